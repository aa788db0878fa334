// Opcodes as places in a table.
use crate::ops;

pub const CONST_I64: usize = ops::CONST_I64 as usize;

pub const CONST_F64: usize = ops::CONST_F64 as usize;

pub const CONST_STR: usize = ops::CONST_STR as usize;

pub const TRUE: usize = ops::TRUE as usize;

pub const FALSE: usize = ops::FALSE as usize;

pub const NONE: usize = ops::NONE as usize;

pub const LOAD_CONST: usize = ops::LOAD_CONST as usize;

pub const POP: usize = ops::POP as usize;

pub const DUP: usize = ops::DUP as usize;

pub const LOAD_LOCAL: usize = ops::LOAD_LOCAL as usize;

pub const STORE_LOCAL: usize = ops::STORE_LOCAL as usize;

pub const LOAD_GLOBAL: usize = ops::LOAD_GLOBAL as usize;

pub const STORE_GLOBAL: usize = ops::STORE_GLOBAL as usize;

pub const ADD: usize = ops::ADD as usize;

pub const SUB: usize = ops::SUB as usize;

pub const MUL: usize = ops::MUL as usize;

pub const DIV: usize = ops::DIV as usize;

pub const TRUE_DIV: usize = ops::TRUE_DIV as usize;

pub const MOD: usize = ops::MOD as usize;

pub const NEG: usize = ops::NEG as usize;

pub const POS: usize = ops::POS as usize;

pub const EQ: usize = ops::EQ as usize;

pub const NE: usize = ops::NE as usize;

pub const LT: usize = ops::LT as usize;

pub const LE: usize = ops::LE as usize;

pub const GT: usize = ops::GT as usize;

pub const GE: usize = ops::GE as usize;

pub const NOT: usize = ops::NOT as usize;

pub const JUMP: usize = ops::JUMP as usize;

pub const JUMP_IF_FALSE: usize = ops::JUMP_IF_FALSE as usize;

pub const JUMP_IF_TRUE: usize = ops::JUMP_IF_TRUE as usize;

pub const CALL: usize = ops::CALL as usize;

pub const CALL_BUILTIN: usize = ops::CALL_BUILTIN as usize;

pub const RETURN: usize = ops::RETURN as usize;

pub const CALL_VALUE: usize = ops::CALL_VALUE as usize;

pub const CALL_METHOD: usize = ops::CALL_METHOD as usize;

pub const LOAD_ATTR: usize = ops::LOAD_ATTR as usize;

pub const STORE_ATTR: usize = ops::STORE_ATTR as usize;

pub const BUILD_LIST: usize = ops::BUILD_LIST as usize;

pub const BUILD_TUPLE: usize = ops::BUILD_TUPLE as usize;

pub const BUILD_DICT: usize = ops::BUILD_DICT as usize;

pub const BUILD_SET: usize = ops::BUILD_SET as usize;

pub const BUILD_TREE_SET: usize = ops::BUILD_TREE_SET as usize;

pub const LOAD_INDEX: usize = ops::LOAD_INDEX as usize;

pub const STORE_INDEX: usize = ops::STORE_INDEX as usize;

pub const MAKE_CLOSURE: usize = ops::MAKE_CLOSURE as usize;
