// The number in a function's record: the largest height that one of its words leaves, in one pass over them.
ghost use Rattle.std.specs.Prelude.{◌≡◌, List, ℕ, ◌+◌, ◌≤◌, ◌<◌, false, eqb, length};
ghost use Rattle.definitions.specs.Instruction.{flow};
ghost use Rattle.definitions.specs.Stack.{height_after, following, height_number};
ghost use Rattle.state.specs.Words.{instr_of, instrs_of};
ghost use Rattle.widths.specs.Turns.{turn};

use crate::words::opcode;
use numerals::op_places::JUMP;
use numerals::places::{UPPER, WORD_FIRST};
use widths::height_onward;

// The height that a word's instruction leaves, met at height h, and whether the next place is met at it.
fn left_by(w: u32, h: u64) -> (u64, bool)
    requires { h < 4294967296 }
    ensures left { ((t : List ℕ) → result.0 ≡ height_after (instr_of t w) h) × (result.0 ≤ h + 2) }
    ensures onward { (t : List ℕ) → result.1 ≡ eqb (turn (flow (instr_of t w).op)) 0 }
{
    let a = w / WORD_FIRST % UPPER;
    let b = w % WORD_FIRST;
    height_onward(opcode(w), a as u64, b as u64, h)
}

// The height at the next place where it is not the one left: after a jump one less, or 0, after a return 0.
fn height_turned(w: u32, h: u64) -> u64
    requires { (t : List ℕ) → eqb (turn (flow (instr_of t w).op)) 0 ≡ false }
    ensures { ((t : List ℕ) → result ≡ following (flow (instr_of t w).op) (instr_of t w) h) × (result ≤ h) }
{
    match opcode(w) {
        JUMP => h.saturating_sub(1),
        _ => 0,
    }
}

// The number of some words.
pub(crate) fn height_of(words: &[u32]) -> u64
    requires { length words.now < 65536 }
    ensures { (t : List ℕ) → result ≡ height_number (instrs_of t words.now) }
{
    let mut h = 0u64;
    let mut most = 0u64;
    for i in 0..words.len() {
        let (left, onward) = left_by(words[i], h);
        most = most.max(left);
        h = if onward {
            left
        } else {
            height_turned(words[i], h)
        };
    }
    most
}
