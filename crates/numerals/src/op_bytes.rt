// Opcodes as bytes of a module.
use crate::ops;

pub const JUMP: u8 = ops::JUMP as u8;

pub const JUMP_IF_FALSE: u8 = ops::JUMP_IF_FALSE as u8;

pub const JUMP_IF_TRUE: u8 = ops::JUMP_IF_TRUE as u8;

pub const RETURN: u8 = ops::RETURN as u8;

// The last of them.
pub const LAST: u8 = ops::MAKE_CLOSURE as u8;
