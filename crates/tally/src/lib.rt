// The functions of an accepted module, one after the other: what is counted of their code; and what a call answers that writes a text about them.
#![tactic(auto)]

ghost use Rattle.std.specs.Prelude.{◌≡◌, ◌≤◌, length};
ghost use Rattle.definitions.specs.Module.{instructions};
ghost use Rattle.definitions.specs.Reader.{function_record, instruction};
ghost use Rattle.definitions.specs.Sheet.{is_question, is_call};
ghost use Rattle.tally.specs.Walk.{Values, functions_from};
ghost use Rattle.tally.specs.Counts.{Tallies};

use numerals::op_bytes::{JUMP_IF_FALSE, JUMP_IF_TRUE};
use numerals::ops;
use numerals::sizes::{FUNCTION_COUNT, FUNCTION_HEAD};
use reader::{instruction_at, number_at};

// Where the code after some instructions begins, and the conditional jumps and calls among these.
#[derive(Clone, Copy)]
pub struct Tallied {
    pub at: usize,
    pub questions: u64,
    pub calls: u64,
}

// Opcodes of calls, as bytes of a module.
const CALL: u8 = ops::CALL as u8;

const CALL_BUILTIN: u8 = ops::CALL_BUILTIN as u8;

const CALL_VALUE: u8 = ops::CALL_VALUE as u8;

const CALL_METHOD: u8 = ops::CALL_METHOD as u8;

// A conditional jump.
#[tactic(auto, unfolding(definitions::specs::Sheet::is_question))]
pub fn is_question(op: u8) -> bool
    ensures { result ≡ is_question op }
{
    matches!(op, JUMP_IF_FALSE | JUMP_IF_TRUE)
}

// A call.
#[tactic(auto, unfolding(definitions::specs::Sheet::is_call))]
fn is_call(op: u8) -> bool
    ensures { result ≡ is_call op }
{
    matches!(op, CALL | CALL_BUILTIN | CALL_VALUE | CALL_METHOD)
}

// n instructions from `at` on.
pub fn count_code(bytes: &[u8], at: usize, n: u64) -> Tallied
    requires { Values instruction n bytes.now at }
    ensures { Tallies result n bytes.now at }
{
    let mut tallied = Tallied {
        at,
        questions: 0,
        calls: 0,
    };
    for _ in 0..n {
        let Some(instruction) = instruction_at(bytes, tallied.at) else {
            return tallied;
        };
        tallied.at = instruction.next;
        tallied.questions += u64::from(is_question(instruction.op));
        tallied.calls += u64::from(is_call(instruction.op));
    }
    tallied
}

// The instructions of `count` functions from `at` on. That they stand there (Values) is said of a place that moves on, so no struct keeps it.
pub fn count_functions(bytes: &[u8], at: usize, count: u64) -> u64
    requires { Values function_record count bytes.now at }
    ensures { (result ≡ instructions (functions_from count bytes.now at)) × (result ≤ length bytes.now) }
{
    let mut p = at;
    let mut total = 0u64;
    for _ in 0..count {
        let n = number_at(bytes, p + FUNCTION_COUNT, 2);
        p = count_code(bytes, p + FUNCTION_HEAD, n).at;
        total += n;
    }
    total
}
