// Numbers of several bytes, the highest first, bytes with their count before them, and the head of a record.
ghost use Rattle.std.specs.Prelude.{◌++◌, ◌+◌, ◌-◌, ◌≤◌, ◌<◌, ◌^◌, length};
ghost use Rattle.definitions.specs.Bytes.{be};
ghost use Rattle.writing.specs.Wrote.{Wrote};

use crate::write_bytes;
use numerals::sizes::COUNT;

// The low w bytes of v, of which one or two are stored by themselves.
pub fn write_number(w: usize, v: u64, out: &mut [u8]) -> usize
    requires { (w ≤ length out.old) × (w ≤ 8) }
    ensures { Wrote result (be w v) out.old out.new }
{
    match w {
        0 => 0,
        1 => {
            out[0] = (v % 256) as u8;
            1
        }
        2 => {
            out[0] = (v / 256 % 256) as u8;
            out[1] = (v % 256) as u8;
            2
        }
        _ => {
            let bytes = v.to_be_bytes();
            write_bytes(&bytes[8 - w..], out)
        }
    }
}

// Some bytes after their count, which fits in w bytes: a name or a string.
pub fn write_counted(w: usize, bytes: &[u8], out: &mut [u8]) -> usize
    requires { (length bytes.now < 256 ^ w) × (w + length bytes.now ≤ length out.old) × (w ≤ 8) }
    ensures { Wrote result (be w (length bytes.now) ++ bytes.now) out.old out.new }
{
    let at = write_number(w, bytes.len() as u64, out);
    at + write_bytes(bytes, &mut out[at..])
}

// The head of a record of `size` bytes: four bytes with the count of those after them, and the version.
pub fn write_head(size: usize, version: u8, out: &mut [u8]) -> usize
    requires { (5 ≤ length out.old) × (4 ≤ size) × (size < 2 ^ 32) }
    ensures { Wrote result (be 4 (size - 4) ++ be 1 version) out.old out.new }
{
    let at = write_number(COUNT, (size - COUNT) as u64, out);
    at + write_number(1, version as u64, &mut out[at..])
}
