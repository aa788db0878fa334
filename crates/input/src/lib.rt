// An input's bytes and the program's arguments, as many as a buffer has room for.
#![tactic(auto)]

ghost use Rattle.std.specs.Prelude.{◌≡◌, ◌≤◌, length, IfOk};

use std::env::FillError;
use std::io::Read;
use std::rt::Env;

// Reads until buf is full, the input ends or a read fails, and returns what it read. On an empty buf it makes no call. The library's read_exact says
// too little of an input that ends before.
pub fn read_full<'a, R: Read>(input: &mut R, buf: &'a mut [u8]) -> &'a [u8]
    ensures size { length result.now ≤ length buf.old }
    ensures begins { (result.ref_ptr.0 ≡ buf.entry.ref_ptr.0) × (result.ref_ptr.1 ≡ buf.entry.ref_ptr.1) }
{
    let mut done = 0usize;
    while done < buf.len() {
        match input.read(&mut buf[done..]) {
            Ok(n @ 1..) => done += n,
            _ => break,
        }
    }
    &buf[..done]
}

// Argument i, where it is there and no longer than buf.
pub fn arg<'a>(rt: &impl Env, i: usize, buf: &'a mut [u8]) -> Result<&'a [u8], FillError>
    ensures size { IfOk result (λ text. length text.now ≤ length buf.old) }
    ensures begins { IfOk result (λ text. (text.ref_ptr.0 ≡ buf.entry.ref_ptr.0) × (text.ref_ptr.1 ≡ buf.entry.ref_ptr.1)) }
{
    let n = rt.arg(i, buf)?;
    Ok(&buf[..n])
}
