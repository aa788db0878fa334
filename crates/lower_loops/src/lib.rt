// The iterator of a for loop.
// That a word loads the keeper (Loads) is said of a number that the rounds pass on: a struct would hold that number alone.
#![tactic(auto)]

ghost use Rattle.std.specs.Prelude.{◌≡◌, ◌<◌, length};
ghost use Rattle.definitions.specs.Instruction.{instr, CallMethod, JumpIfFalse};
ghost use Rattle.definitions.specs.Slots.{in_globals};
ghost use Rattle.definitions.specs.Tables.{one, ◌⨟◌};
ghost use Rattle.definitions.specs.Tables as Emission;
ghost use Rattle.definitions.specs.Lower.{make_iter, load_iter, ask_iter, take_iter};
ghost use Rattle.state.specs.Words.{word, name_at};
ghost use Rattle.state.specs.State.{slot_names};
ghost use Rattle.state.specs.Kept.{keeping_of, after_loops};
ghost use Rattle.lower_emit.specs.Ops.{Plain};
ghost use Rattle.lower_emit.specs.Emitting.{SoundIn, LowersIn};
ghost use Rattle.names.specs.Made.{made_name};
ghost use Rattle.lower_loops.specs.Iterators.{keeper_of, Loads, StoresKept, StoresIterator};

use lower_emit::emitter::{Code, Emitter};
use lower_emit::packed;
use lower_names::{emit_store, intern_made};
use names::Made;
use numerals::ops::{
    CALL_METHOD, JUMP_IF_FALSE, LOAD_GLOBAL, LOAD_LOCAL, STORE_GLOBAL, STORE_LOCAL,
};
use numerals::places::IN_GLOBALS;
use state::Scope;

// An instruction with the symbol of a made name, and b.
pub(crate) fn emit_made(tree: &[u8], e: &mut Emitter<'_>, m: Made, op: u32, b: u32) -> Option<()>
    requires { SoundIn tree.now e.old × (length (made_name m) < 20) × Plain op 0 b }
    ensures { LowersIn result (Emission.intern (made_name m) (λ k. one (instr op k b))) tree.now e.old e.new }
{
    let tables = &mut e.tables;
    let symbol = intern_made(tree, &mut tables.names, &mut tables.entries, m)?;
    e.code.put_op(op, symbol, b)
}

// The iterator of the value on the stack.
pub fn make_iterator(tree: &[u8], e: &mut Emitter<'_>) -> Option<()>
    requires { SoundIn tree.now e.old }
    ensures { LowersIn result make_iter tree.now e.old e.new }
{
    emit_made(tree, e, Made::Iter, CALL_METHOD, 0)
}

// A value is stored by an instruction with the operand a: the word that loads it again.
fn store_kept(code: &mut Code<'_>, store: u32, load: u32, a: u32) -> Option<u32>
    requires { Plain store a 0 × Plain load a 0 }
    ensures { StoresKept result (word load a 0) (instr store a 0) code.old code.new }
{
    code.put_op(store, a, 0)?;
    Some(packed(load, a, 0))
}

// The iterator goes to the global that is named by the place of its store: the word that loads it.
fn store_global(tree: &[u8], e: &mut Emitter<'_>) -> Option<u32>
    requires { SoundIn tree.now e.old }
    ensures { StoresIterator result in_globals tree.now e.old e.new }
{
    let place = e.code.open - e.code.base;
    let tables = &mut e.tables;
    let m = Made::Iterator(place);
    let global = intern_made(tree, &mut tables.names, &mut tables.entries, m)?;
    store_kept(&mut e.code, STORE_GLOBAL, LOAD_GLOBAL, global)
}

// The iterator goes to the slot of its loop, and the next loop has the next slot; in main it goes to a global. The word that loads it.
pub fn store_iterator(tree: &[u8], e: &mut Emitter<'_>, it: &mut u32) -> Option<u32>
    requires { SoundIn tree.now e.old }
    ensures { StoresIterator result (keeping_of it.old) tree.now e.old e.new × (it.new ≡ after_loops it.old 1) }
{
    let slot = *it;
    if slot < IN_GLOBALS {
        *it = slot + 1;
        return store_kept(&mut e.code, STORE_LOCAL, LOAD_LOCAL, slot);
    }
    store_global(tree, e)
}

// The method with a made name of the iterator that a word loads is called.
fn call_iterator(tree: &[u8], e: &mut Emitter<'_>, load: u32, m: Made) -> Option<()>
    requires { SoundIn tree.now e.old × Loads load (keeper_of load) × (length (made_name m) < 20) }
    ensures { LowersIn result (one (load_iter (keeper_of load)) ⨟ Emission.intern (made_name m) (λ k. one (CallMethod k 0))) tree.now e.old e.new }
{
    e.code.put(load)?;
    emit_made(tree, e, m, CALL_METHOD, 0)
}

// Is there more?
pub fn ask_more(tree: &[u8], e: &mut Emitter<'_>, load: u32) -> Option<()>
    requires { SoundIn tree.now e.old × Loads load (keeper_of load) }
    ensures { LowersIn result (ask_iter (keeper_of load)) tree.now e.old e.new }
{
    call_iterator(tree, e, load, Made::HasNext)
}

// Is there more? The jump past the loop is not known yet.
pub fn ask_iterator(tree: &[u8], e: &mut Emitter<'_>, load: u32) -> Option<()>
    requires { SoundIn tree.now e.old × Loads load (keeper_of load) }
    ensures { LowersIn result (ask_iter (keeper_of load) ⨟ one (JumpIfFalse 0)) tree.now e.old e.new }
{
    ask_more(tree, e, load)?;
    e.code.put_op(JUMP_IF_FALSE, 0, 0)
}

// The next value goes to the variable at `at`.
pub fn take_iterator(s: Scope<'_>, e: &mut Emitter<'_>, at: usize, load: u32) -> Option<()>
    requires { SoundIn s.tree.now e.old × (at < 32768) × Loads load (keeper_of load) }
    ensures { LowersIn result (take_iter (slot_names s.entry.tree.now s.entry.slots.now) (name_at s.entry.tree.now at) (keeper_of load)) s.entry.tree.now e.old e.new }
{
    call_iterator(s.tree, e, load, Made::Next)?;
    emit_store(s, e, at)
}
