// Lowers the tree on standard input: the module's bytes, or `refused N`, on standard output.
#![tactic(auto)]

ghost use Rattle.std.specs.Prelude.{◌≤◌, ◌≡◌, ◌∷◌, [], ◌++◌, length};
ghost use Rattle.definitions.specs.Bytes.{ascii, decimal};
ghost use Rattle.definitions.specs.Calls.{lower_program};
ghost use Rattle.questions.specs.Numbers.{number};

use input::read_full;
use limits::Limits;
use names::making::{paste, paste_decimal};
use numerals::sizes::AREA;
use questions::Question;
use std::io::Result as IoResult;

// One byte more than the longest tree, so that a longer one is refused; and the room for a module.
const INPUT_ROOM: usize = 32769;

const MODULE_ROOM: usize = 65536;

// The line of a refusal, at the start of out.
fn refusal<'a>(question: Question, out: &'a mut [u8]) -> &'a [u8]
    requires { 65536 ≡ length out.old }
    ensures { result.now ≡ ascii "refused " ++ (decimal (number question) ++ 10 ∷ []) }
{
    let number = paste(out, 0, b"refused ");
    let end = paste_decimal(out, number, question.number());
    let n = paste(out, end, b"\n");
    &out[..n]
}

// What the program writes for an input, at the start of out.
fn answer<'a>(input: &[u8], out: &'a mut [u8]) -> &'a [u8]
    requires { (length input.now ≤ 32769) × (65536 ≡ length out.old) }
    ensures { result.now ≡ lower_program input.now }
{
    let mut area1 = [0u32; AREA];
    let mut area2 = [0u32; AREA];
    match lowering::lower(input, Limits::Office, &mut area1, &mut area2, out) {
        Ok(n) => &out[..n],
        Err(question) => refusal(question, out),
    }
}

// An output that takes only a part of a module can't pass for one: a module's first bytes count the rest.
fn main(rt: HostRuntime) -> IoResult<()> {
    let mut input = [0u8; INPUT_ROOM];
    let mut out = [0u8; MODULE_ROOM];
    let tree = read_full(&mut rt.stdin(), &mut input);
    if rt.write_all(answer(tree, &mut out)).is_err() {
        rt.eprintln("lower: standard output can't be written")?;
    }
    Ok(())
}
