// Names and strings as parts of the slices that hold them.
ghost use Rattle.std.specs.Prelude.{◌≡◌, ◌+◌, ◌<◌, ◌^◌, take, drop, get_or};
ghost use Rattle.state.specs.Words.{big_endian_at, name_at, text_at};
ghost use Rattle.state.specs.State.{spelled};
ghost use Rattle.names.specs.Parts.{begin_at, Points, Spells};

use numerals::places::{MADE_FROM, MADE_START};

// The byte at `at`, 0 past the end.
pub fn byte(bytes: &[u8], at: usize) -> u8
    ensures { result ≡ get_or bytes.now at 0 }
{
    bytes.get(at).copied().unwrap_or(0)
}

// n bytes from `from` on, cut at the end.
pub fn part<'a>(bytes: &'a [u8], from: usize, n: usize) -> &'a [u8]
    ensures result_value { result.now ≡ take n (drop from bytes.now) }
    ensures begins { Points result.ref_ptr bytes.entry.ref_ptr (begin_at bytes.now from) }
{
    if bytes.len() < from {
        return &bytes[0..0];
    }
    if bytes.len() - from < n {
        return &bytes[from..];
    }
    let end = from + n;
    &bytes[from..end]
}

// The name whose length byte is at `at`: empty past the end, cut at the end.
pub fn name_part<'a>(bytes: &'a [u8], at: usize) -> &'a [u8]
    ensures result_value { result.now ≡ name_at bytes.now at }
    ensures begins { Points result.ref_ptr bytes.entry.ref_ptr (begin_at bytes.now (at + 1)) }
{
    if bytes.len() <= at {
        return &bytes[0..0];
    }
    let n = bytes[at] as usize;
    part(bytes, at + 1, n)
}

// The count of two bytes at `at`, 0 for those past the end.
pub(crate) fn count_at(bytes: &[u8], at: usize) -> usize
    requires { at < 2 ^ 63 }
    ensures { (result ≡ big_endian_at 2 bytes.now at) × (result < 65536) }
{
    let high = byte(bytes, at);
    let low = byte(bytes, at + 1);
    high as usize * 256 + low as usize
}

// The string whose count is at `at`.
pub fn text_part<'a>(bytes: &'a [u8], at: usize) -> &'a [u8]
    ensures result_value { result.now ≡ text_at bytes.now at }
    ensures begins { Points result.ref_ptr bytes.entry.ref_ptr (begin_at bytes.now (at + 2)) }
{
    if bytes.len() <= at {
        return &bytes[0..0];
    }
    let n = count_at(bytes, at);
    part(bytes, at + 2, n)
}

// A symbol's spelling: a part of the tree or of the made names, by where it was first made.
pub fn spelling<'a>(tree: &'a [u8], made: &'a [u8], w: u32) -> &'a [u8]
    ensures result_value { result.now ≡ spelled tree.now made.now w }
    ensures begins { Spells result.ref_ptr tree.entry.ref_ptr made.entry.ref_ptr tree.now made.now w }
{
    if w < MADE_FROM {
        return name_part(tree, w as usize);
    }
    name_part(made, w as usize - MADE_START)
}
