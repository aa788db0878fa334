// The check of a module's stack heights (R-10): questions 1, 17 to 21 and 37.
#![tactic(auto)]

mod levels; // levels.rt: a function's code, by the marks of a search

ghost use Rattle.std.specs.Prelude.{◌≡◌, ◌≤◌, length};
ghost use Rattle.definitions.specs.Bytes.{all};
ghost use Rattle.definitions.specs.Heights.{function_holds, heights_hold, heights_answer};
ghost use Rattle.reader.specs.View.{said};
ghost use Rattle.tally.specs.Walk.{functions_from, code_from};
ghost use Rattle.heights.specs.Holding.{Parted, Stood, ChecksHeights};

use areas::clear;
use levels::code_holds;
use numerals::sizes::{FUNCTION_COUNT, FUNCTION_HEAD, FUNCTION_HEIGHT};
use questions::Question;
use reader::{Part, number_at, part_of, read_module};
use tally::count_code;

// How long the work area is at least: question 1.
pub const AREA: usize = 131072;

// Whether the heights of a part's instructions hold with a number.
fn part_holds(bytes: &[u8], part: Part, number: u64, area: &mut [u32]) -> bool
    requires { Parted bytes.now part × (131072 ≤ length area.old) }
    ensures { result ≡ heights_hold number (code_from part.count bytes.now part.start) }
{
    code_holds(part_of(bytes, Ok(part)), part.count as usize, number, area)
}

// 37, of `count` functions from `at` on. That they stand there (Stood) is said of a place that moves on, so no struct keeps it.
fn functions_hold(bytes: &[u8], at: usize, count: u64, area: &mut [u32]) -> bool
    requires { Stood bytes.now count at × (131072 ≤ length area.old) }
    ensures { result ≡ all function_holds (functions_from count bytes.now at) }
{
    let mut p = at;
    for _ in 0..count {
        let number = number_at(bytes, p + FUNCTION_HEIGHT, 2);
        let n = number_at(bytes, p + FUNCTION_COUNT, 2);
        let start = p + FUNCTION_HEAD;
        let end = count_code(bytes, start, n).at;
        let part = Part {
            start,
            size: end - start,
            count: n,
        };
        if !part_holds(bytes, part, number, area) {
            return false;
        }
        p = end;
    }
    true
}

// Questions 17 to 21 and 37; the area keeps what stands in it.
fn check_functions(bytes: &[u8], area: &mut [u32]) -> Result<(), Question>
    requires { 131072 ≤ length area.old }
    ensures { said result ≡ heights_answer (length area.old) bytes.now }
{
    let sections = read_module(bytes)?;
    let functions = sections.functions;
    if functions_hold(bytes, functions.start + 2, functions.count, area) {
        Ok(())
    } else {
        Err(Question::Heights)
    }
}

// Whether the heights of every function of a module hold. The area is zero afterwards, but after the question of its length, which leaves it.
pub fn check_heights(bytes: &[u8], area: &mut [u32]) -> Result<(), Question>
    ensures { ChecksHeights result bytes.now area.old area.new }
{
    if area.len() < AREA {
        return Err(Question::WorkAreas);
    }
    let checked = check_functions(bytes, area);
    clear(area);
    checked
}
