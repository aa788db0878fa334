// Bytes of an instruction and of its operands, by its opcode. A match becomes a table in the program's data; an array would be made anew at each call.
#![tactic(auto)]

mod stack; // stack.rt: what an instruction pops and pushes

ghost use Rattle.std.specs.Prelude.{◌≡◌, ◌+◌, ◌≤◌};
ghost use Rattle.definitions.specs.Instruction.{first_width, second_width};
ghost use Rattle.widths.specs.Ops.{code_of};

use numerals::op_places::*;
use numerals::ops;
pub use stack::{height_after, height_onward, popped};

// As a place among the opcodes.
const SMALL_INT: usize = ops::SMALL_INT as usize;

// Bytes of an instruction's first operand. An opcode an arm, here and below: tried by or-patterns, which become tests one after the other, and reading
// a module takes a fifth longer.
#[tactic(auto, unfolding(definitions::specs::Instruction::first_width, definitions::specs::Instruction::row_of, definitions::specs::Instruction::instruction_table))]
pub fn first_width(op: usize) -> u8
    ensures { (result ≡ first_width op) × (result ≤ 8) }
{
    match op {
        CONST_I64 => 8,
        CONST_F64 => 8,
        CONST_STR => 4,
        LOAD_CONST => 4,
        LOAD_LOCAL => 2,
        STORE_LOCAL => 2,
        LOAD_GLOBAL => 2,
        STORE_GLOBAL => 2,
        JUMP => 4,
        JUMP_IF_FALSE => 4,
        JUMP_IF_TRUE => 4,
        CALL => 2,
        CALL_BUILTIN => 1,
        CALL_VALUE => 1,
        CALL_METHOD => 2,
        LOAD_ATTR => 2,
        STORE_ATTR => 2,
        BUILD_LIST => 2,
        BUILD_TUPLE => 2,
        BUILD_DICT => 2,
        BUILD_SET => 2,
        BUILD_TREE_SET => 2,
        MAKE_CLOSURE => 2,
        _ => 0,
    }
}

// Bytes of its second operand.
#[tactic(auto, unfolding(definitions::specs::Instruction::second_width, definitions::specs::Instruction::row_of, definitions::specs::Instruction::instruction_table))]
pub fn second_width(op: usize) -> u8
    ensures { (result ≡ second_width op) × (result ≤ 1) }
{
    match op {
        CALL => 1,
        CALL_BUILTIN => 1,
        CALL_METHOD => 1,
        MAKE_CLOSURE => 1,
        _ => 0,
    }
}

// Bytes of a word's whole instruction, the opcode's and both operands', by the opcode that stands in the word: a small integer has one of its own there. A
// table of its own: tried as their sum, and writing a module takes a quarter longer; tried with the small integer apart, a tenth.
#[tactic(auto, unfolding(definitions::specs::Instruction::first_width, definitions::specs::Instruction::second_width, definitions::specs::Instruction::row_of, definitions::specs::Instruction::instruction_table, crate::specs::Ops::code_of))]
pub fn word_width(op: usize) -> u8
    ensures { (result ≡ 1 + first_width (code_of op) + second_width (code_of op)) × (result ≤ 9) }
{
    match op {
        CONST_I64 => 9,
        CONST_F64 => 9,
        CONST_STR => 5,
        LOAD_CONST => 5,
        LOAD_LOCAL => 3,
        STORE_LOCAL => 3,
        LOAD_GLOBAL => 3,
        STORE_GLOBAL => 3,
        JUMP => 5,
        JUMP_IF_FALSE => 5,
        JUMP_IF_TRUE => 5,
        CALL => 4,
        CALL_BUILTIN => 3,
        CALL_VALUE => 2,
        CALL_METHOD => 4,
        LOAD_ATTR => 3,
        STORE_ATTR => 3,
        BUILD_LIST => 3,
        BUILD_TUPLE => 3,
        BUILD_DICT => 3,
        BUILD_SET => 3,
        BUILD_TREE_SET => 3,
        MAKE_CLOSURE => 4,
        SMALL_INT => 9,
        _ => 1,
    }
}
