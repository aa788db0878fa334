// Parts of a lambda: its function begun and ended, and the closure made of it.
// Naming speaks of the tree and of tables that are lent apart, as in lower_names; the bound of a function's number is a clause, as in lower_emit.
ghost use Rattle.std.specs.Prelude.{◌<◌, ◌≤◌, length};
ghost use Rattle.definitions.specs.Instruction.{MakeClosure};
ghost use Rattle.definitions.specs.Tables.{one, ◌⨟◌};
ghost use Rattle.definitions.specs.Lower.{loads};
ghost use Rattle.state.specs.State.{names_at, slot_names};
ghost use Rattle.lower_forms.specs.Lowerable.{CapturesHaveSlots};
ghost use Rattle.lower_emit.specs.Emitting.{Writes};
ghost use Rattle.lower_names.specs.Naming.{Naming};
ghost use Rattle.lower_leaves.specs.Closures.{BeginsLambda, StartsLambda, EndsLambda};

use lower_emit::emitter::{Code, Emitter, Entries, Names, Used};
use lower_emit::{begin_function, end_function};
use lower_names::intern_made;
use names::Made;
use names::emit::find_slot;
use numerals::ops::{LOAD_LOCAL, MAKE_CLOSURE, RETURN};
use state::Scope;

// The next function is a lambda with `locals` slots: its name's symbol, then its number; none where there is no room.
fn begin_lambda(
    tree: &[u8],
    names: &mut Names<'_>,
    functions: &mut Used<256>,
    entries: &mut Entries<'_>,
    arity: u32,
    locals: u32,
) -> Option<u32>
    requires { Naming tree.now names.old entries.old × (functions.old.count ≤ 256) × (arity < 256) × (locals < 256) }
    ensures { BeginsLambda result arity locals tree.now names.old names.new functions.old functions.new entries.old entries.new }
{
    let symbol = intern_made(tree, names, entries, Made::Lambda(functions.count))?;
    begin_function(functions, entries, symbol, arity, locals)
}

// The same in an emitter, where it is the innermost one from now on.
pub fn start_lambda(tree: &[u8], e: &mut Emitter<'_>, arity: u32, locals: u32) -> Option<u32>
    requires { Naming tree.now e.old.tables.names e.old.tables.entries × (e.old.tables.functions.count ≤ 256) × (arity < 256) × (locals < 256) }
    ensures { StartsLambda result arity locals tree.now e.old e.new }
{
    let open = e.code.open;
    let tables = &mut e.tables;
    let n = begin_lambda(
        tree,
        &mut tables.names,
        &mut tables.functions,
        &mut tables.entries,
        arity,
        locals,
    )?;
    e.code.base = open;
    Some(n)
}

// Function f ends in Return; the one around it begins at `base`.
pub fn end_lambda(code: &mut Code<'_>, entries: &mut Entries<'_>, f: u32, base: u32) -> Option<()>
    requires { (code.old.base ≤ code.old.open) × (f < 256) }
    ensures { EndsLambda result f base code.old code.new entries.old entries.new }
{
    code.put_op(RETURN, 0, 0)?;
    end_function(code, entries, f, base);
    Some(())
}

// The values of captured variables, which have slots.
fn load_captured(s: Scope<'_>, code: &mut Code<'_>, captured: &[u32]) -> Option<()>
    requires { CapturesHaveSlots (slot_names s.tree.now s.slots.now) (names_at s.tree.now captured.now) }
    ensures { Writes result (loads (slot_names s.entry.tree.now s.entry.slots.now) (names_at s.entry.tree.now captured.now)) code.old code.new }
{
    for &at in captured {
        let slot = find_slot(s.tree, s.slots, at as usize)?;
        code.put_op(LOAD_LOCAL, slot, 0)?;
    }
    Some(())
}

// The captured values, and the closure of function f with them.
pub fn end_closure(s: Scope<'_>, code: &mut Code<'_>, captured: &[u32], f: u32) -> Option<()>
    requires { CapturesHaveSlots (slot_names s.tree.now s.slots.now) (names_at s.tree.now captured.now) × (length captured.now ≤ 255) × (f < 65536) }
    ensures { Writes result (loads (slot_names s.entry.tree.now s.entry.slots.now) (names_at s.entry.tree.now captured.now) ⨟ one (MakeClosure f (length captured.now)))
        code.old code.new }
{
    load_captured(s, code, captured)?;
    code.put_op(MAKE_CLOSURE, f, captured.len() as u32)
}
