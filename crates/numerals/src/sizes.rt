// Sizes of records, in bytes, and of what is lent to the lowering, in numbers.

// A tree, and a module, at the most.
pub const TREE_MOST: usize = 32768;

pub const MODULE_MOST: usize = 524288;

// The head of both: the count of the bytes after it in four, then the version, each its own.
pub const COUNT: usize = 4;

pub const HEAD: usize = 5;

// Before a tree's first statement: its head, and the count of the statements in two.
pub const TOP: usize = 7;

pub const TREE_VERSION: u8 = 1;

pub const MODULE_VERSION: u8 = 2;

// The head of a function in a module: symbol, arity, slots, height, count of instructions.
pub const FUNCTION_HEAD: usize = 9;

// In it, where the height begins, and the count.
pub const FUNCTION_HEIGHT: usize = 5;

pub const FUNCTION_COUNT: usize = 7;

// How deep statements and expressions may stand.
pub const DEPTH: u32 = 32;

// A work area at the least.
pub const AREA: usize = 16384;

// Bytes of made names: 20 for each symbol, and what one more takes.
pub const MADE_ROOM: usize = 20500;

// How many slots a function may have, and the numbers that its slots take: an index of their names, and a place for one slot more.
pub const SLOTS_MOST: u32 = 255;

pub const SLOTS_ROOM: usize = 2304;

// Marks of slots: one for each.
pub const SLOTS_MARKED: usize = 256;
