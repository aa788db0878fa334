// Functions begun under their names, classes begun and ended, their objects: each of what it touches alone.
// The bound of a single number stays a clause: a type for it would be opened at each use.
#![tactic(auto)]

ghost use Rattle.std.specs.Prelude.{◌+◌, ◌<◌, ◌≤◌, ◌^◌, length};
ghost use Rattle.lower_emit.specs.Emitting.{SoundIn};
ghost use Rattle.lower_names.specs.Naming.{Naming};
ghost use Rattle.lower_classes.specs.Classes.{BeginsClass, EndsClass, AddsConstant, BeginsNamed, StartsNamed, StoresClass, FinishesClass};

use lower_emit::begin_function;
use lower_emit::emitter::{Emitter, Entries, Names, Tables, Used};
use lower_names::intern;
use numerals::ops::{LOAD_CONST, STORE_GLOBAL};
use numerals::places::{CLASS_METHODS_FROM, CLASS_NAMES_FROM, CONSTANTS_FROM, METHODS_FROM, UPPER};

// The next class's number, with the name at `at`, none where classes are at the limit; it has no methods yet.
pub fn begin_class(classes: &mut Used<64>, entries: &mut Entries<'_>, at: usize) -> Option<u32>
    requires { at < 2 ^ 32 }
    ensures { BeginsClass result at classes.old classes.new entries.old entries.new }
{
    let n = classes.count;
    if classes.limit <= n {
        return None;
    }
    entries.words[CLASS_NAMES_FROM + n as usize] = at as u32;
    entries.words[CLASS_METHODS_FROM + n as usize] = 0;
    classes.count = n + 1;
    Some(n)
}

// Class i, whose name is at `at`, has these methods, after so many of other classes.
pub(crate) fn end_class(
    before: &mut u32,
    entries: &mut Entries<'_>,
    i: u32,
    at: usize,
    methods: &[u32],
)
    requires { (i < 64) × (at < 2 ^ 32) × (before.old + length methods.now ≤ 256) }
    ensures { EndsClass i at methods.now before.old before.new entries.old entries.new }
{
    let from = METHODS_FROM + *before as usize;
    let n = methods.len() as u32;
    let words = &mut *entries.words;
    words[from..from + methods.len()].copy_from_slice(methods);
    words[CLASS_NAMES_FROM + i as usize] = at as u32;
    words[CLASS_METHODS_FROM + i as usize] = *before * UPPER + n;
    *before += n;
}

// The next constant's number; it is class i.
pub(crate) fn add_constant(tables: &mut Tables<'_>, i: u32) -> u32
    requires { tables.old.constants < 64 }
    ensures { AddsConstant result i tables.old tables.new }
{
    let n = tables.constants;
    tables.entries.words[CONSTANTS_FROM + n as usize] = i;
    tables.constants = n + 1;
    n
}

// The function with the name at `at` begins: its number, none where there is no room.
fn begin_named(
    tree: &[u8],
    names: &mut Names<'_>,
    functions: &mut Used<256>,
    entries: &mut Entries<'_>,
    at: usize,
    arity: u32,
    locals: u32,
) -> Option<u32>
    requires { Naming tree.now names.old entries.old × (at < 32768) × (arity < 256) × (locals < 256) }
    ensures { BeginsNamed result at arity locals tree.now names.old names.new functions.old functions.new entries.old entries.new }
{
    let symbol = intern(tree, names, entries, at as u32, 0)?;
    begin_function(functions, entries, symbol, arity, locals)
}

// The same in an emitter, where it is the innermost one from now on.
pub fn start_named(
    tree: &[u8],
    e: &mut Emitter<'_>,
    at: usize,
    arity: u32,
    locals: u32,
) -> Option<u32>
    requires { Naming tree.now e.old.tables.names e.old.tables.entries × (at < 32768) × (arity < 256) × (locals < 256) }
    ensures { StartsNamed result at arity locals tree.now e.old e.new }
{
    let open = e.code.open;
    let tables = &mut e.tables;
    let n = begin_named(
        tree,
        &mut tables.names,
        &mut tables.functions,
        &mut tables.entries,
        at,
        arity,
        locals,
    )?;
    e.code.base = open;
    Some(n)
}

// The object of class i is a constant, and goes to the global of the symbol.
fn store_class(e: &mut Emitter<'_>, i: u32, symbol: u32) -> Option<()>
    requires { (e.old.tables.constants < 64) × (symbol < 65536) }
    ensures { StoresClass result i symbol e.old e.new }
{
    let constant = add_constant(&mut e.tables, i);
    e.code.put_op(LOAD_CONST, constant, 0)?;
    e.code.put_op(STORE_GLOBAL, symbol, 0)
}

// Class i, whose name is at `at`, has these methods; then its object.
pub fn finish_class(
    tree: &[u8],
    e: &mut Emitter<'_>,
    at: usize,
    i: u32,
    methods: &[u32],
) -> Option<()>
    requires { SoundIn tree.now e.old × (at < 32768) × (i < e.old.tables.classes.count) × (e.old.tables.methods + length methods.now ≤ e.old.tables.functions.count)
        × (e.old.tables.constants < e.old.tables.classes.count) }
    ensures { FinishesClass result at i methods.now tree.now e.old e.new }
{
    let tables = &mut e.tables;
    end_class(&mut tables.methods, &mut tables.entries, i, at, methods);
    let symbol = intern(tree, &mut tables.names, &mut tables.entries, at as u32, 0)?;
    store_class(e, i, symbol)
}
