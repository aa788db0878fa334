// The tables by their places in the second area, and the parts of words.
use crate::ops;

// The slots of loops are below this number; main's loops, which keep their iterators in globals, have it in the place of a slot. A number and no Option: public
// functions of the emission take it so, and an Option would ask more of callers.
pub const IN_GLOBALS: u32 = 256;

// The first finished word of the code area.
pub const FINISHED_FROM: usize = 8192;

// The tables of the second area; symbols are from 0 on.
pub const STRINGS_FROM: usize = 1024;

pub const HEADS_FROM: usize = 1536;

pub const CODES_FROM: usize = 1792;

pub const CLASS_NAMES_FROM: usize = 2048;

pub const CLASS_METHODS_FROM: usize = 2112;

pub const METHODS_FROM: usize = 2176;

pub const CONSTANTS_FROM: usize = 2432;

pub const SYMBOL_INDEX_FROM: usize = 2496;

pub const STRING_INDEX_FROM: usize = 10688;

pub const STRING_INDEX_END: usize = 14784;

// How many methods there may be, and how many buckets each index has.
pub const METHODS_ROOM: usize = 256;

pub const SYMBOL_BUCKETS: u32 = 8192;

pub const STRING_BUCKETS: u32 = 4096;

// A name's hash is below HASHES: each byte is added to what the bytes before it make, times HASH_FACTOR.
pub const HASH_FACTOR: u32 = 30011;

pub const HASHES: u32 = 65536;

// A symbol is the place of its name in the tree, or from here on that in the made names.
pub const MADE_FROM: u32 = 32768;

pub const MADE_START: usize = MADE_FROM as usize;

// The slots of a function come after an index of so many buckets.
pub const SLOTS_FROM: usize = 2048;

// A word is its opcode times this, its first operand times that, and its second operand.
pub const WORD_OP: u32 = 16777216;

pub const WORD_FIRST: u32 = 256;

// Below this a word's first operand is the place of its eight bytes in the tree: a ConstI64 or a ConstF64.
pub const PLACED_END: u32 = ops::CONST_STR * WORD_OP;

// A place and a count in one number, and a symbol and the rest of a function's head: the first times this.
pub const UPPER: u32 = 65536;
