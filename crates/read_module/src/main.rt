// Reads the module on standard input: `accepted` and a line for each constant, or `refused N`. With an argument, the number of a function, also the
// bytes of its code in hexadecimal, or `refused 22`.
#![tactic(auto)]

ghost use Rattle.std.specs.Prelude.{length, ◌≡◌};

use classes::Class;
use digits::decimal_of;
use input::{arg, read_full};
use report::Hex;
use std::env::FillError;
use std::io::Result as IoResult;
use std::rt::Env;

// The bytes of the number of an argument, at the most.
const DIGITS: usize = 20;

// A constant: its number, its class and the type number of the class's object.
fn constant(rt: &impl Print, k: usize, class: u16) -> IoResult<()> {
    let number = Class::type_number(class);
    println!(rt; "constant {k}: class {class}, type {number}")
}

// The constants: two bytes each, after two bytes with their count.
fn constants(rt: &impl Print, list: &[u8]) -> IoResult<()> {
    for (k, class) in list.chunks_exact(2).skip(1).enumerate() {
        constant(rt, k, u16::from_be_bytes([class[0], class[1]]))?;
    }
    Ok(())
}

// The answer to a module, and whether it is accepted.
fn answer(rt: &impl Print, module: &[u8]) -> IoResult<bool> {
    match reader::read_module(module) {
        Ok(sections) => {
            rt.println("accepted")?;
            constants(rt, reader::part_of(module, Ok(sections.constants)))?;
            Ok(true)
        }
        Err(q) => {
            println!(rt; "refused {q}")?;
            Ok(false)
        }
    }
}

// The code of the function f.
fn code(rt: &impl Print, module: &[u8], f: u64) -> IoResult<()> {
    match reader::check_code(module, f) {
        Ok(()) => println!(rt; "code: {}", Hex(reader::function_code(module, f))),
        Err(q) => println!(rt; "refused {q}"),
    }
}

// The code of the function that the argument names, if there is one.
fn code_of_argument<R: Env + Print + Eprint>(rt: &R, module: &[u8]) -> IoResult<()> {
    let mut word = [0; DIGITS];
    let number = match arg(rt, 1, &mut word) {
        Err(FillError::NotPresent) => return Ok(()),
        Err(FillError::TooLong) => None,
        Ok(word) => decimal_of(word),
    };
    match number {
        Some(f) => code(rt, module, f),
        None => rt.eprintln("read_module: the function is a number below 2^64"),
    }
}

fn read<R: Env + Print + Eprint>(rt: &R, module: &[u8]) -> IoResult<()> {
    if answer(rt, module)? {
        code_of_argument(rt, module)?;
    }
    Ok(())
}

// One byte more than the longest module, so that a longer one is refused.
fn module_buffer() -> [u8; 524289]
    ensures { 524289 ≡ length result }
{
    [0; 524289]
}

fn main(rt: HostRuntime) -> IoResult<()> {
    let mut module = module_buffer();
    read(&rt, read_full(&mut rt.stdin(), &mut module))
}
