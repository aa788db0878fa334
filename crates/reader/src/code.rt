// The instruction at a position.
ghost use Rattle.std.specs.Prelude.{◌≡◌};
ghost use Rattle.reader.specs.View.{found_at};

use crate::Instruction;
use crate::numbers::number_at;
use numerals::op_bytes;
use widths::{first_width, second_width};

// The instruction at `at`: what listings, counts and the run read.
pub fn instruction_at(bytes: &[u8], at: usize) -> Option<Instruction>
    ensures { result ≡ found_at bytes.now at }
{
    if bytes.len() <= at {
        return None;
    }
    let op = bytes[at];
    // The opcodes have no gap, so one comparison tells them; a match would name all 46.
    if op_bytes::LAST < op {
        return None;
    }
    let first = first_width(op as usize) as usize;
    let second = second_width(op as usize) as usize;
    if bytes.len() - at - 1 < first + second {
        return None;
    }
    let a = number_at(bytes, at + 1, first);
    let b = number_at(bytes, at + 1 + first, second);
    Some(Instruction {
        op,
        a,
        b,
        next: at + 1 + first + second,
    })
}
