// Questions 20 and 21 of one instruction.
// The bound of a single number stays a clause: a type for it would be opened at each use.
ghost use Rattle.std.specs.Prelude.{◌≡◌, ◌<◌};
ghost use Rattle.definitions.specs.Instruction.{numbers_of};
ghost use Rattle.definitions.specs.Builtins.{registry};
ghost use Rattle.definitions.specs.Reader.{is_builtin, landing};
ghost use Rattle.reader.specs.Asks.{operand_of, exists_in, op_stands, ask_op, ask_head};

use crate::{Asked, Counts, Head, Instruction, Operand};
use numerals::op_bytes::{JUMP, JUMP_IF_TRUE, RETURN};
use numerals::op_places::{
    CALL, CALL_BUILTIN, CALL_METHOD, CONST_STR, LOAD_ATTR, LOAD_CONST, LOAD_GLOBAL, LOAD_LOCAL,
    MAKE_CLOSURE, STORE_ATTR, STORE_GLOBAL, STORE_LOCAL,
};

// A built-in has the id.
fn is_builtin(n: u64) -> bool
    ensures { result ≡ is_builtin registry n }
{
    matches!(n, 0..=7 | 10..=14)
}

// What an instruction's first operand numbers. An opcode an arm, as in widths: tried by or-patterns, which become tests one after the other.
#[tactic(auto, unfolding(crate::specs::Asks::operand_of, definitions::specs::Instruction::numbers_of, definitions::specs::Instruction::row_of, definitions::specs::Instruction::instruction_table))]
fn operand_of(op: u8) -> Operand
    ensures { result ≡ operand_of (numbers_of op) }
{
    match usize::from(op) {
        CONST_STR => Operand::Text,
        LOAD_CONST => Operand::Constant,
        LOAD_LOCAL => Operand::Slot,
        STORE_LOCAL => Operand::Slot,
        LOAD_GLOBAL => Operand::Symbol,
        STORE_GLOBAL => Operand::Symbol,
        CALL => Operand::Function,
        CALL_BUILTIN => Operand::Builtin,
        CALL_METHOD => Operand::Symbol,
        LOAD_ATTR => Operand::Symbol,
        STORE_ATTR => Operand::Symbol,
        MAKE_CLOSURE => Operand::Function,
        _ => Operand::Nothing,
    }
}

// What the operand numbers exists.
#[tactic(auto, unfolding(crate::specs::Asks::exists_in))]
fn number_exists(counts: Counts, slots: u64, operand: Operand, n: u64) -> bool
    ensures { result ≡ exists_in counts slots operand n }
{
    match operand {
        Operand::Nothing => true,
        Operand::Text => n < counts.strings,
        Operand::Constant => n < counts.constants,
        Operand::Slot => n < slots,
        Operand::Symbol => n < counts.symbols,
        Operand::Function => n < counts.functions,
        Operand::Builtin => is_builtin(n),
    }
}

// Where a jump at a place goes.
#[tactic(auto, unfolding(definitions::specs::Reader::landing))]
pub fn jump_target(place: u64, a: u64) -> u64
    requires { place < 4294967296 }
    ensures { result ≡ landing place a }
{
    (place + 1 + a % 4294967296) % 4294967296
}

// A jump lands, and the last instruction is Return.
fn op_stands(n: u64, place: u64, op: u8, a: u64) -> bool
    requires { place < 4294967296 }
    ensures { result ≡ op_stands n place op a }
{
    if place + 1 == n {
        return op == RETURN;
    }
    match op {
        JUMP..=JUMP_IF_TRUE => jump_target(place, a) < n,
        _ => true,
    }
}

// A question of an instruction at a place of a function.
#[tactic(auto, unfolding(crate::specs::Asks::ask_op))]
pub(crate) fn ask_op(asked: Asked, head: Head, place: u64, i: Instruction) -> bool
    requires { place < 4294967296 }
    ensures { result ≡ ask_op asked head.count head.slots place i.op i.a }
{
    match asked {
        Asked::Layout => true,
        Asked::Numbers(counts) => { number_exists(counts, head.slots, operand_of(i.op), i.a) }
        Asked::Jumps => op_stands(head.count, place, i.op, i.a),
    }
}

// A question of a function's name and count of instructions.
#[tactic(auto, unfolding(crate::specs::Asks::ask_head))]
pub(crate) fn ask_head(asked: Asked, head: Head) -> bool
    ensures { result ≡ ask_head asked head.name head.count }
{
    match asked {
        Asked::Layout => true,
        Asked::Numbers(counts) => head.name < counts.symbols,
        Asked::Jumps => 0 < head.count,
    }
}
