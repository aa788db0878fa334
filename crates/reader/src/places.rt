// Where a function's code is, in an accepted module.
ghost use Rattle.reader.specs.View.{ListsFunctions, FoundAt, Ready, Locates};

use crate::cursor::Cursor;
use crate::numbers::number_at;
use crate::{Asked, Part, Sections};
use numerals::sizes::{FUNCTION_COUNT, FUNCTION_HEAD};
use questions::Question;

// The record of the function f.
fn find_function(bytes: &[u8], functions: Part, f: u64) -> Option<usize>
    requires { ListsFunctions bytes.now functions }
    ensures { FoundAt result bytes.now functions.start f }
{
    if functions.count <= f {
        return None;
    }
    let mut c = Cursor::new(bytes, functions.start + 2);
    for _ in 0..f {
        c.function(Asked::Layout)?;
    }
    Some(c.at)
}

// Where the code of the function f is, in an accepted module.
pub(crate) fn locate_in(bytes: &[u8], sections: Sections, f: u64) -> Result<Part, Question>
    requires { Ready bytes.now sections }
    ensures { Locates result bytes.now f }
{
    let head = find_function(bytes, sections.functions, f).ok_or(Question::Function)?;
    let mut c = Cursor::new(bytes, head);
    c.function(Asked::Layout).ok_or(Question::Function)?;
    let start = head + FUNCTION_HEAD;
    Ok(Part {
        start,
        size: c.at - start,
        count: number_at(bytes, head + FUNCTION_COUNT, 2),
    })
}
