// What the emission works on: words of code and the module's tables, in slices lent to it.
ghost use Rattle.std.specs.Prelude.{◌+◌, ◌≤◌, length};

use numerals::sizes::MADE_ROOM;

// The code area: `open` words of functions not done yet, of which the innermost begins at `base`, and `done` words of finished ones after the first half;
// at most `limit` in all.
#[derive(Drop)]
pub struct Code<'a> {
    pub words: &'a mut [u32],
    pub base: u32,
    pub open: u32,
    pub done: u32,
    pub limit: u32,
    pub ghost code_room: { 16384 ≤ length words.now },
    pub ghost code_limit: { limit ≤ 8192 },
    pub ghost code_size: { «open» + done ≤ limit },
}

// How many places of a table are used, and at most how many: no more than the MOST that it has.
#[derive(Clone, Copy)]
pub struct Used<const MOST: usize> {
    pub count: u32,
    pub limit: u32,
    pub ghost most: { limit ≤ MOST },
}

// The made names, how many bytes of them are used, and how many symbols there are.
#[derive(Drop)]
pub struct Names<'a> {
    pub made: &'a mut [u8; MADE_ROOM],
    pub made_len: u32,
    pub symbols: Used<1024>,
}

// The second area, where each table has its place: one slice, so a step takes it beside the table that it is for.
#[derive(Drop)]
pub struct Entries<'a> {
    pub words: &'a mut [u32],
    pub ghost room: { 16384 ≤ length words.now },
}

// The module's tables, and how much of each is used. `methods` counts those of ended classes.
#[derive(Drop)]
pub struct Tables<'a> {
    pub names: Names<'a>,
    pub entries: Entries<'a>,
    pub strings: Used<512>,
    pub functions: Used<256>,
    pub classes: Used<64>,
    pub methods: u32,
    pub constants: u32,
}

// The code and the tables of a lowering. The tree is lent beside it, as it is read while this is written. That code and tables show a sound state (SoundIn, SoleIn) is a clause of
// each step and no ghost field: it speaks of the tree, too, and does not hold between the words of one step.
#[derive(Drop)]
pub struct Emitter<'a> {
    pub code: Code<'a>,
    pub tables: Tables<'a>,
}
