// Opcodes, and those of words that are no instruction yet: a break and a continue whose jump is not known, an integer that the word holds.
// Numbers and no enum: a word holds one beside its operands, operators give theirs by sums, and public functions take them as numbers, of which an enum
// would ask more.
use crate::operators;

pub const CONST_I64: u32 = 0;

pub const CONST_F64: u32 = 1;

pub const CONST_STR: u32 = 2;

pub const TRUE: u32 = 3;

pub const FALSE: u32 = 4;

pub const NONE: u32 = 5;

pub const LOAD_CONST: u32 = 6;

pub const POP: u32 = 7;

pub const DUP: u32 = 8;

pub const LOAD_LOCAL: u32 = 9;

pub const STORE_LOCAL: u32 = 10;

pub const LOAD_GLOBAL: u32 = 11;

pub const STORE_GLOBAL: u32 = 12;

pub const ADD: u32 = 13;

pub const SUB: u32 = 14;

pub const MUL: u32 = 15;

pub const DIV: u32 = 16;

pub const TRUE_DIV: u32 = 17;

pub const MOD: u32 = 18;

pub const NEG: u32 = 19;

pub const POS: u32 = 20;

pub const EQ: u32 = 21;

pub const NE: u32 = 22;

pub const LT: u32 = 23;

pub const LE: u32 = 24;

pub const GT: u32 = 25;

pub const GE: u32 = 26;

pub const NOT: u32 = 27;

pub const JUMP: u32 = 28;

pub const JUMP_IF_FALSE: u32 = 29;

pub const JUMP_IF_TRUE: u32 = 30;

pub const CALL: u32 = 31;

pub const CALL_BUILTIN: u32 = 32;

pub const RETURN: u32 = 33;

pub const CALL_VALUE: u32 = 34;

pub const CALL_METHOD: u32 = 35;

pub const LOAD_ATTR: u32 = 36;

pub const STORE_ATTR: u32 = 37;

pub const BUILD_LIST: u32 = 38;

pub const BUILD_TUPLE: u32 = 39;

pub const BUILD_DICT: u32 = 40;

pub const BUILD_SET: u32 = 41;

pub const BUILD_TREE_SET: u32 = 42;

pub const LOAD_INDEX: u32 = 43;

pub const STORE_INDEX: u32 = 44;

pub const MAKE_CLOSURE: u32 = 45;

// The opcode of a binary operator before the comparisons is the operator plus this, but that `/` and `//` are exchanged; that of a comparison is the operator plus that.
pub const ARITHMETIC: u32 = ADD;

pub const COMPARISON: u32 = EQ - operators::FIRST_COMPARISON as u32;

// The jump of `and` or `or` is the operator plus this; the constant on its short way is the other minus the jump.
pub const LOGICAL: u32 = JUMP_IF_FALSE - operators::AND as u32;

pub const SHORT: u32 = JUMP_IF_FALSE + FALSE;

pub const BREAK: u32 = 46;

pub const CONTINUE: u32 = 47;

pub const SMALL_INT: u32 = 48;
