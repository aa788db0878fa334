// What a measure reads.
ghost use Rattle.std.specs.Prelude.{◌≤◌, length};
ghost use Rattle.state.specs.State.{SymbolIndex};
ghost use Rattle.state.specs.Props.{covered-prop};

use numerals::sizes::MADE_ROOM;
use state::Scope;

// The tree and the slots of the function in hand; the made names and the tables, whose functions and classes are those so far; and the places of the names
// of functions and classes that begin in what is measured, so far.
#[derive(Clone, Copy)]
pub struct Measurer<'a> {
    pub scope: Scope<'a>,
    pub made: &'a [u8; MADE_ROOM],
    pub entries: &'a [u32],
    pub symbols: u32,
    pub functions: u32,
    pub classes: u32,
    pub new_functions: &'a [u32],
    pub new_classes: &'a [u32],
    pub ghost short: { length scope.tree.now ≤ 32768 },
    pub ghost room: { 16384 ≤ length entries.now },
    pub ghost few_symbols: { symbols ≤ 1024 },
    pub ghost few_functions: { functions ≤ 256 },
    pub ghost few_classes: { classes ≤ 64 },
    pub ghost index: { SymbolIndex scope.tree.now made.now entries.now symbols } by { covered-prop },
}
