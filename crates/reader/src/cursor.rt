// A place in a module's bytes, from which they are read on.
ghost use Rattle.std.specs.Prelude.{◌≤◌, length};

use crate::Instruction;
use crate::code::instruction_at;
use crate::numbers::number_at;

// Where in a module's bytes the reading stands. A loop goes on with a copy of its own, which stays in registers: through `self` reading long code took
// half as long again.
#[derive(Clone, Copy)]
pub(crate) struct Cursor<'a> {
    bytes: &'a [u8],
    pub(crate) at: usize,
    ghost inside: { at ≤ length bytes.now },
}

impl<'a> Cursor<'a> {
    ghost use Rattle.std.specs.Prelude.{◌≡◌, ◌<◌, take, drop, MatchOption};
    ghost use Rattle.reader.specs.View.{number_at};
    ghost use Rattle.reader.specs.Cursors.{CursorStands, CursorWent, CursorShort, CursorFinds};

    // At a place.
    pub(crate) fn new(bytes: &'a [u8], at: usize) -> Cursor<'a>
        requires { at ≤ length bytes.now }
        ensures { CursorStands bytes.now at result }
    {
        Cursor { bytes, at }
    }

    // The next n bytes.
    pub(crate) fn take(&mut self, n: usize) -> Option<&'a [u8]>
        ensures { MatchOption result (CursorShort n self.old) (λ part. CursorWent n self.old self.new × (part.now ≡ take n (drop self.old.at self.old.bytes.now))) }
    {
        let bytes = self.bytes;
        let at = self.at;
        if bytes.len() - at < n {
            return None;
        }
        self.at = at + n;
        Some(&bytes[at..at + n])
    }

    // The number of one byte. `number` has the bound that its callers need: one function over a const width could not name it plainly.
    pub(crate) fn byte(&mut self) -> Option<u64>
        ensures { MatchOption result (CursorShort 1 self.old) (λ n. CursorWent 1 self.old self.new × (n ≡ number_at 1 self.old.bytes.now self.old.at)) }
    {
        let at = self.at;
        self.take(1)?;
        Some(number_at(self.bytes, at, 1))
    }

    // The number of two bytes.
    pub(crate) fn number(&mut self) -> Option<u64>
        ensures { MatchOption result (CursorShort 2 self.old) (λ n. CursorWent 2 self.old self.new × (n ≡ number_at 2 self.old.bytes.now self.old.at) × (n < 65536)) }
    {
        let at = self.at;
        self.take(2)?;
        Some(number_at(self.bytes, at, 2))
    }

    // The next instruction.
    pub(crate) fn instruction(&mut self) -> Option<Instruction>
        ensures { CursorFinds result self.old self.new }
    {
        let instruction = instruction_at(self.bytes, self.at)?;
        self.at = instruction.next;
        Some(instruction)
    }
}
