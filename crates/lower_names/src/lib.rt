// Names and strings numbered in the path of the emission: each part speaks of what it touches.
// Naming and Texts speak of the tree and of tables that are lent apart, so that a step asks for those alone that it uses: one struct of them would ask for more.
// The bound of a single number stays a clause: a type for it would be opened at each use.
#![tactic(auto)]

ghost use Rattle.std.specs.Prelude.{◌≡◌, ◌+◌, ◌<◌, ◌≤◌, ◌^◌, length};
ghost use Rattle.definitions.specs.Instruction.{instr, ConstStr};
ghost use Rattle.definitions.specs.Tables as Emission;
ghost use Rattle.definitions.specs.Tables.{one, get_or_add_string};
ghost use Rattle.definitions.specs.Lower as Lower;
ghost use Rattle.definitions.specs.Lower.{load, store};
ghost use Rattle.state.specs.Words.{name_at, text_at};
ghost use Rattle.state.specs.State.{MadeWithin, SymbolIndex, slot_names};
ghost use Rattle.names.specs.Made.{made_name};
ghost use Rattle.lower_emit.specs.Ops.{Plain};
ghost use Rattle.lower_emit.specs.Emitting.{Puts, SoundIn, LowersIn};
ghost use Rattle.lower_forms.specs.Lowerable.{load_callee};
ghost use Rattle.lower_names.specs.Variable.{variable_among};
ghost use Rattle.lower_names.specs.Naming.{Naming, Texts, SeeksSymbol, SeeksText, Interns, InternsMade, AddsText, Quotes, Resolves, ResolvesFunction, callee_of, call_word};

use lower_emit::emitter::{Code, Emitter, Entries, Names, Used};
use lower_emit::packed;
use names::Made;
use names::calls::find_builtin;
use names::emit::find_slot;
use names::find::{find_head, find_place, find_spelling, find_text};
use names::index::{first_number, hash};
use names::making::write_made;
use names::number::find_symbol;
use names::spell::{name_part, spelling, text_part};
use numerals::ops::{CALL, CALL_BUILTIN, CALL_VALUE, CONST_STR, LOAD_LOCAL, STORE_LOCAL};
use numerals::places::{
    CLASS_NAMES_FROM, HEADS_FROM, MADE_FROM, STRING_BUCKETS, STRING_INDEX_END, STRING_INDEX_FROM,
    STRINGS_FROM, SYMBOL_BUCKETS, SYMBOL_INDEX_FROM,
};
use numerals::sizes::MADE_ROOM;
use state::Scope;

// What a call of a name calls.
#[derive(Clone, Copy)]
pub enum Callee {
    Builtin(u16),
    Function(u16),
    Value,
}

// Where a name or a string is sought: its bucket, the number from which on it may stand, and its number if it has one.
#[derive(Clone, Copy)]
struct Sought {
    bucket: u32,
    first: u32,
    found: Option<u32>,
}

// Where the symbol that the word w spells is sought.
fn seek_symbol(tree: &[u8], names: &Names<'_>, entries: &Entries<'_>, w: u32) -> Sought
    requires { Naming tree.now names.now entries.now }
    ensures { SeeksSymbol result tree.now names.now entries.now w }
{
    let name = spelling(tree, names.made, w);
    let bucket = hash(name) % SYMBOL_BUCKETS;
    let index = &entries.words[SYMBOL_INDEX_FROM..STRING_INDEX_FROM];
    let count = names.symbols.count;
    let first = first_number(index, bucket, count);
    let rest = &entries.words[first as usize..count as usize];
    let found = find_spelling(tree, names.made, rest, name).map(|i| first + i as u32);
    Sought {
        bucket,
        first,
        found,
    }
}

// The number of the symbol that the word w spells; none where there is no room. A made name takes `grow` bytes if it is new.
pub fn intern(
    tree: &[u8],
    names: &mut Names<'_>,
    entries: &mut Entries<'_>,
    w: u32,
    grow: u32,
) -> Option<u32>
    requires { Naming tree.now names.old entries.old × MadeWithin names.old.made.now (names.old.made_len + grow) w × (grow ≤ 20) }
    ensures { Interns result tree.now names.old names.new entries.old entries.new w }
{
    let sought = seek_symbol(tree, names, entries, w);
    if let Some(i) = sought.found {
        return Some(i);
    }
    let n = names.symbols.count;
    if names.symbols.limit <= n {
        return None;
    }
    entries.words[n as usize] = w;
    entries.words[SYMBOL_INDEX_FROM + sought.bucket as usize] = sought.first + 1;
    names.symbols.count = n + 1;
    names.made_len += grow;
    Some(n)
}

// The number of the symbol with a made name.
pub fn intern_made(
    tree: &[u8],
    names: &mut Names<'_>,
    entries: &mut Entries<'_>,
    m: Made,
) -> Option<u32>
    requires { Naming tree.now names.old entries.old × (length (made_name m) < 20) }
    ensures { InternsMade result (made_name m) tree.now names.old names.new entries.old entries.new }
{
    let at = names.made_len;
    let made = &mut *names.made;
    let grow = write_made(made, at as usize, m);
    intern(tree, names, entries, MADE_FROM + at, grow)
}

// Where the string at `at` is sought.
fn seek_text(tree: &[u8], strings: Used<512>, entries: &Entries<'_>, at: usize) -> Sought
    requires { Texts tree.now strings entries.now }
    ensures { SeeksText result tree.now strings entries.now at }
{
    let text = text_part(tree, at);
    let bucket = hash(text) % STRING_BUCKETS;
    let index = &entries.words[STRING_INDEX_FROM..STRING_INDEX_END];
    let first = first_number(index, bucket, strings.count);
    let from = STRINGS_FROM + first as usize;
    let end = STRINGS_FROM + strings.count as usize;
    let found = find_text(tree, &entries.words[from..end], text).map(|i| first + i as u32);
    Sought {
        bucket,
        first,
        found,
    }
}

// The number of the string at `at`; none where there is no room.
fn string_number(
    tree: &[u8],
    strings: &mut Used<512>,
    entries: &mut Entries<'_>,
    at: usize,
) -> Option<u32>
    requires { Texts tree.now strings.old entries.old × (at < 2 ^ 32) }
    ensures { AddsText result tree.now strings.old strings.new entries.old entries.new at }
{
    let sought = seek_text(tree, *strings, entries, at);
    if let Some(i) = sought.found {
        return Some(i);
    }
    let n = strings.count;
    if strings.limit <= n {
        return None;
    }
    entries.words[STRINGS_FROM + n as usize] = at as u32;
    entries.words[STRING_INDEX_FROM + sought.bucket as usize] = sought.first + 1;
    strings.count = n + 1;
    Some(n)
}

// An instruction with the symbol of the name at `at`, and b.
pub fn emit_symbol(tree: &[u8], e: &mut Emitter<'_>, at: usize, op: u32, b: u32) -> Option<()>
    requires { SoundIn tree.now e.old × (at < 32768) × Plain op 0 b }
    ensures lowers { LowersIn result (Emission.intern (name_at tree.now at) (λ k. one (instr op k b))) tree.now e.old e.new }
    ensures made { e.new.tables.names.made.now ≡ e.old.tables.names.made.now }
{
    let tables = &mut e.tables;
    let i = intern(tree, &mut tables.names, &mut tables.entries, at as u32, 0)?;
    e.code.put_op(op, i, b)
}

// ConstStr of the string at `at`.
pub fn emit_string(
    tree: &[u8],
    strings: &mut Used<512>,
    entries: &mut Entries<'_>,
    code: &mut Code<'_>,
    at: usize,
) -> Option<()>
    requires { Texts tree.now strings.old entries.old × (at < 2 ^ 32) }
    ensures { Quotes result (get_or_add_string (text_at tree.now at) (λ k. one (ConstStr k))) tree.now strings.old strings.new entries.old entries.new code.old code.new }
{
    let i = string_number(tree, strings, entries, at)?;
    code.put_op(CONST_STR, i, 0)
}

// The variable at `at` by its slot with `op`, else by the global of its name, whose opcode is two more.
fn emit_variable(s: Scope<'_>, e: &mut Emitter<'_>, at: usize, op: u32) -> Option<()>
    requires { SoundIn s.tree.now e.old × (at < 32768) × (9 ≤ op) × (op ≤ 10) }
    ensures lowers { LowersIn result (variable_among op (slot_names s.entry.tree.now s.entry.slots.now) (name_at s.entry.tree.now at)) s.entry.tree.now e.old e.new }
    ensures made { e.new.tables.names.made.now ≡ e.old.tables.names.made.now }
{
    if let Some(slot) = find_slot(s.tree, s.slots, at) {
        return e.code.put_op(op, slot, 0);
    }
    emit_symbol(s.tree, e, at, op + 2, 0)
}

// The value of the variable at `at`.
pub fn emit_load(s: Scope<'_>, e: &mut Emitter<'_>, at: usize) -> Option<()>
    requires { SoundIn s.tree.now e.old × (at < 32768) }
    ensures lowers { LowersIn result (load (slot_names s.entry.tree.now s.entry.slots.now) (name_at s.entry.tree.now at)) s.entry.tree.now e.old e.new }
    ensures made { e.new.tables.names.made.now ≡ e.old.tables.names.made.now }
{
    emit_variable(s, e, at, LOAD_LOCAL)
}

// The value on the stack goes to the variable at `at`.
pub fn emit_store(s: Scope<'_>, e: &mut Emitter<'_>, at: usize) -> Option<()>
    requires { SoundIn s.tree.now e.old × (at < 32768) }
    ensures lowers { LowersIn result (store (slot_names s.entry.tree.now s.entry.slots.now) (name_at s.entry.tree.now at)) s.entry.tree.now e.old e.new }
    ensures made { e.new.tables.names.made.now ≡ e.old.tables.names.made.now }
{
    emit_variable(s, e, at, STORE_LOCAL)
}

// The function so far whose name is the one given, else a value.
fn resolve_function_id(
    tree: &[u8],
    made: &[u8; MADE_ROOM],
    entries: &[u32],
    symbols: u32,
    functions: u32,
    name: &[u8],
) -> Callee
    requires { (16384 ≤ length entries.now) × SymbolIndex tree.now made.now entries.now symbols × (symbols ≤ 1024) × (functions ≤ 256) }
    ensures { ResolvesFunction result name.now tree.now made.now entries.now symbols functions }
{
    let Some(symbol) = find_symbol(tree, made, entries, symbols, name) else {
        return Callee::Value;
    };
    let end = HEADS_FROM + functions as usize;
    match find_head(&entries[HEADS_FROM..end], symbol) {
        Some(f) => Callee::Function(f as u16),
        None => Callee::Value,
    }
}

// What a call of the name at `at` calls. It takes shared slices, of which Names and Entries, which hold `&mut`, cannot be made.
pub fn resolve(
    tree: &[u8],
    made: &[u8; MADE_ROOM],
    entries: &[u32],
    symbols: u32,
    functions: u32,
    classes: u32,
    at: usize,
) -> Callee
    requires { (16384 ≤ length entries.now) × SymbolIndex tree.now made.now entries.now symbols × (symbols ≤ 1024) × (functions ≤ 256) × (classes ≤ 64) }
    ensures { Resolves result (name_at tree.now at) tree.now made.now entries.now symbols functions classes }
{
    let name = name_part(tree, at);
    if let Some(id) = find_builtin(name) {
        return Callee::Builtin(id as u16);
    }
    let end = CLASS_NAMES_FROM + classes as usize;
    if find_place(tree, &entries[CLASS_NAMES_FROM..end], name).is_some() {
        return Callee::Value;
    }
    resolve_function_id(tree, made, entries, symbols, functions, name)
}

// A callee that is a value is loaded.
pub fn load_callee(s: Scope<'_>, e: &mut Emitter<'_>, at: usize, callee: Callee) -> Option<()>
    requires { SoundIn s.tree.now e.old × (at < 32768) }
    ensures lowers { LowersIn result (load_callee (callee_of callee) (slot_names s.entry.tree.now s.entry.slots.now) (name_at s.entry.tree.now at)) s.entry.tree.now e.old e.new }
    ensures made { e.new.tables.names.made.now ≡ e.old.tables.names.made.now }
{
    match callee {
        Callee::Value => emit_load(s, e, at),
        Callee::Builtin(_) | Callee::Function(_) => Some(()),
    }
}

// The word of a call with n arguments.
#[tactic(auto, unfolding(crate::specs::Naming::call_word))]
fn call_word(callee: Callee, n: u32) -> u32
    requires { n ≤ 255 }
    ensures { result ≡ call_word callee n }
{
    match callee {
        Callee::Builtin(id) => packed(CALL_BUILTIN, id as u32, n),
        Callee::Function(f) => packed(CALL, f as u32, n),
        Callee::Value => packed(CALL_VALUE, n, 0),
    }
}

// The instruction of a call with n arguments.
pub fn put_call(code: &mut Code<'_>, callee: Callee, n: u32) -> Option<()>
    requires { n ≤ 255 }
    ensures { Puts result (call_word callee n) code.old code.new }
{
    code.put(call_word(callee, n))
}
