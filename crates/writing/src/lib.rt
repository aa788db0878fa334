// Bytes written from the start of the output that is lent, and the laws of what is written piece by piece.
#![tactic(auto)]

pub mod numbers; // numbers.rt: numbers of several bytes, bytes with their count, the head of a record

ghost use Rattle.std.specs.Prelude.{◌≤◌, length};
ghost use Rattle.writing.specs.Wrote.{Wrote};

// Some bytes.
#[tactic(auto, unfolding(definitions::specs::Calls::written))]
pub fn write_bytes(bytes: &[u8], out: &mut [u8]) -> usize
    requires { length bytes.now ≤ length out.old }
    ensures { Wrote result bytes.now out.old out.new }
{
    out[..bytes.len()].copy_from_slice(bytes);
    bytes.len()
}
