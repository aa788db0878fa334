// Names that the lowering makes: each with its length before it, at the free end of the made bytes.
// The bound of a single number stays a clause: a type for it would be opened at each use.
ghost use Rattle.std.specs.Prelude.{◌≡◌, ◌++◌, ◌+◌, ◌≤◌, ◌<◌, length};
ghost use Rattle.definitions.specs.Bytes.{decimal};
ghost use Rattle.names.specs.Made.{made_name, pasted, NameStands};

use crate::Made;

// The bytes `part` from `at` on, and where they end: copy_from_slice does not tell that, and a name goes on from there.
pub fn paste(bytes: &mut [u8], at: usize, part: &[u8]) -> usize
    requires { at + length part.now ≤ length bytes.old }
    ensures { (result ≡ at + length part.now) × (bytes.new ≡ pasted part.now at bytes.old) }
{
    let end = at + part.len();
    bytes[at..end].copy_from_slice(part);
    end
}

// The decimal digits of n from `at` on, and where they end. Not by Display, which writes to a formatter: one over these bytes is no plainer.
pub fn paste_decimal(bytes: &mut [u8], at: usize, n: u32) -> usize
    requires { at + length (decimal n) ≤ length bytes.old }
    ensures { (result ≡ at + length (decimal n)) × (bytes.new ≡ pasted (decimal n) at bytes.old) }
{
    if n < 10 {
        bytes[at] = 48 + n as u8;
        return at + 1;
    }
    let p = paste_decimal(bytes, at, n / 10);
    bytes[p] = 48 + (n % 10) as u8;
    p + 1
}

// The bytes `head`, the digits of n and the bytes `tail` from `at` on, and where they end.
fn paste_numbered(bytes: &mut [u8], at: usize, head: &[u8], n: u32, tail: &[u8]) -> usize
    requires { at + length (head.now ++ (decimal n ++ tail.now)) ≤ length bytes.old }
    ensures { (result ≡ at + length (head.now ++ (decimal n ++ tail.now)))
        × (bytes.new ≡ pasted (head.now ++ (decimal n ++ tail.now)) at bytes.old) }
{
    let p = paste(bytes, at, head);
    let q = paste_decimal(bytes, p, n);
    paste(bytes, q, tail)
}

// The name's bytes from `at` on, and where they end.
fn paste_name(bytes: &mut [u8], at: usize, m: Made) -> usize
    requires { at + length (made_name m) ≤ length bytes.old }
    ensures { (result ≡ at + length (made_name m)) × (bytes.new ≡ pasted (made_name m) at bytes.old) }
{
    match m {
        Made::Main => paste(bytes, at, b"__main__"),
        Made::Iter => paste(bytes, at, b"__iter__"),
        Made::HasNext => paste(bytes, at, b"__has_next__"),
        Made::Next => paste(bytes, at, b"__next__"),
        Made::Iterator(place) => paste_numbered(bytes, at, b"__for_iter_", place, b"__"),
        Made::Lambda(n) => paste_numbered(bytes, at, b"<lambda#", n, b">"),
    }
}

// The name with its length before it at `at`, and how many bytes that takes.
pub fn write_made(bytes: &mut [u8], at: usize, m: Made) -> u32
    requires { (at + 1 + length (made_name m) ≤ length bytes.old) × (length (made_name m) < 20) }
    ensures { (result ≡ 1 + length (made_name m)) × NameStands (made_name m) at bytes.old bytes.new }
{
    let from = at + 1;
    let end = paste_name(bytes, from, m);
    let n = end - from;
    bytes[at] = n as u8;
    1 + n as u32
}
