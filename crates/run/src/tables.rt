// Tables of a function's code, made once for a run: where each instruction begins, and where going straight on from it stops.
ghost use Rattle.std.specs.Prelude.{◌≡◌, ◌≤◌, length};
ghost use Rattle.reader.specs.View.{instructions_of};
ghost use Rattle.run.specs.Tables.{Coded, PlacesFilled, Stops, GoesOn, Nearer};

use numerals::op_bytes::{JUMP, JUMP_IF_FALSE, JUMP_IF_TRUE, RETURN};
use reader::Instructions;

// A function's code, and how many instructions it has.
#[derive(Clone, Copy)]
pub(crate) struct Function<'a> {
    pub code: &'a [u8],
    pub n: usize,
    ghost coded: { Coded code.now },
    ghost counted: { n ≡ length (instructions_of code.now) },
}

// Where each instruction begins.
pub fn fill_places(code: &[u8], places: &mut [u32])
    requires { Coded code.now × (length (instructions_of code.now) ≤ length places.old) }
    ensures { PlacesFilled code.now places.new }
{
    for placed in Instructions::of(code) {
        places[placed.place as usize] = placed.at as u32;
    }
}

// The instruction of an opcode goes straight on.
pub fn goes_on(op: u8) -> bool
    ensures { GoesOn result op }
{
    match op {
        JUMP | JUMP_IF_FALSE | JUMP_IF_TRUE | RETURN => false,
        _ => true,
    }
}

// Of the stop after place k, and k: the first that is a stop.
pub(crate) fn nearer(op: u8, k: usize, stop: usize) -> usize
    ensures { Nearer result op k stop }
{
    if goes_on(op) { stop } else { k }
}

// Where going straight on stops, from each of the function's instructions on.
pub(crate) fn fill_stops(function: Function<'_>, places: &[u32], stops: &mut [u32])
    requires { PlacesFilled function.code.now places.now × (function.n ≤ length stops.old) }
    ensures { Stops function.entry.code.now stops.new }
{
    let mut stop = 0;
    for k in (0..function.n).rev() {
        stop = nearer(function.code[places[k] as usize], k, stop);
        stops[k] = stop as u32;
    }
}
