// The instructions of a code in order.
ghost use Rattle.std.specs.Prelude.{◌≡◌, ◌≤◌};

use crate::Placed;
use crate::code::instruction_at;

// The instructions of a function's code in order, each with its place.
#[derive(Clone, Copy)]
pub struct Instructions<'a> {
    code: &'a [u8],
    place: u64,
    at: usize,
    // So that the number of the next place fits.
    pub ghost few: { place ≤ at },
}

impl<'a> Instructions<'a> {
    // Those of the whole code.
    pub fn of(code: &'a [u8]) -> Instructions<'a>
        ensures { (result.code ≡ code.entry) × (result.place ≡ 0) × (result.at ≡ 0) }
    {
        Instructions::from(code, 0, 0)
    }

    // Those from the byte `at` on, of which the first has the number `place`.
    pub fn from(code: &'a [u8], place: u64, at: usize) -> Instructions<'a>
        requires { place ≤ at }
        ensures { (result.code ≡ code.entry) × (result.place ≡ place) × (result.at ≡ at) }
    {
        Instructions { code, place, at }
    }
}

impl<'a> Iterator for Instructions<'a> {
    ghost use Rattle.std.specs.Iterator.{item_count};
    ghost use Rattle.reader.specs.View.{Walks, instructions_left};

    type Item = Placed;

    ghost next_gives = { Walks };

    ghost remaining = { item_count instructions_left };

    fn next(&mut self) -> Option<Placed> {
        let instruction = instruction_at(self.code, self.at)?;
        let placed = Placed {
            place: self.place,
            at: self.at,
            instruction,
        };
        *self = Instructions {
            code: self.code,
            place: self.place + 1,
            at: instruction.next,
        };
        Some(placed)
    }
}
