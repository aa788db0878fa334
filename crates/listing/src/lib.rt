// The code listing: questions 17 to 21 and 31.
#![tactic(auto)]

mod code;
mod lines;
mod names;

ghost use Rattle.std.specs.Prelude.{◌≡◌, ◌+◌, ◌*◌, ◌/◌, ◌<◌};
ghost use Rattle.definitions.specs.Calls.{list_call};
ghost use Rattle.tally.specs.Walk.{FunctionsAt};
ghost use Rattle.tally.specs.Listed.{Printed};

use code::write_functions;
use questions::Question;
use reader::{Part, read_module};
use tally::count_functions;

// The bytes of a line, and the code lines of a page.
pub const LINE: usize = 53;

pub const PAGE: u64 = 50;

// Where the code after some instructions begins, and how many bytes their lines have.
#[derive(Clone, Copy)]
pub struct Next {
    pub at: usize,
    pub put: usize,
}

// The bytes of a listing of so many code lines: those of the lines, and of each page's first line.
fn listing_size(lines: u64) -> u64
    requires { lines < 1000000 }
    ensures { result ≡ 53 * (lines + (lines + 49) / 50) }
{
    LINE as u64 * (lines + (lines + PAGE - 1) / PAGE)
}

// The listing of a module with those functions.
fn list_functions(bytes: &[u8], functions: Part, out: &mut [u8]) -> Result<usize, Question>
    requires { FunctionsAt bytes.now functions }
    ensures { Printed result (list_call bytes.now out.old) out.new }
{
    let first = functions.start + 2;
    let lines = count_functions(bytes, first, functions.count);
    if (out.len() as u64) < listing_size(lines) {
        return Err(Question::ListingRoom);
    }
    Ok(write_functions(bytes, first, functions.count, out))
}

// The listing of a module, written only where it fits.
pub fn list(bytes: &[u8], out: &mut [u8]) -> Result<usize, Question>
    ensures { Printed result (list_call bytes.now out.old) out.new }
{
    let sections = read_module(bytes)?;
    list_functions(bytes, sections.functions, out)
}
