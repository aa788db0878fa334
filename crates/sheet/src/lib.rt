// The count sheet: questions 17 to 21 and 32.
#![tactic(auto)]

mod lines;

ghost use Rattle.std.specs.Prelude.{◌≤◌, ◌<◌, length};
ghost use Rattle.definitions.specs.Calls.{sheet_call};
ghost use Rattle.definitions.specs.Module.{instructions};
ghost use Rattle.definitions.specs.Reader.{function_record};
ghost use Rattle.definitions.specs.Sheet.{sheet_of};
ghost use Rattle.writing.specs.Wrote.{Wrote};
ghost use Rattle.tally.specs.Walk.{Values, functions_from, FunctionsAt};
ghost use Rattle.tally.specs.Listed.{Printed};

use lines::{Row, write_count, write_total};
use numerals::sizes::{FUNCTION_COUNT, FUNCTION_HEAD};
use questions::Question;
use reader::{Part, number_at, read_module};
use tally::count_code;

// The bytes of a line.
const LINE: usize = 41;

// The lines of `count` functions from `at` on, and their totals.
fn write_sheet(bytes: &[u8], at: usize, count: u64, out: &mut [u8]) -> usize
    requires { Values function_record count bytes.now at × (count < 65536) × (instructions (functions_from count bytes.now at) < 1000000) × (length (sheet_of (functions_from count bytes.now at)) ≤ length out.old) }
    ensures { Wrote result (sheet_of (functions_from count bytes.now at)) out.old out.new }
{
    let mut p = at;
    let mut put = 0usize;
    let mut totals = Row {
        instructions: 0,
        questions: 0,
        calls: 0,
    };
    for f in 0..count {
        let n = number_at(bytes, p + FUNCTION_COUNT, 2);
        let code = count_code(bytes, p + FUNCTION_HEAD, n);
        let row = Row {
            instructions: n,
            questions: code.questions,
            calls: code.calls,
        };
        write_count(f, row, &mut out[put..]);
        put += LINE;
        totals = Row {
            instructions: totals.instructions + n,
            questions: totals.questions + code.questions,
            calls: totals.calls + code.calls,
        };
        p = code.at;
    }
    write_total(totals, &mut out[put..]);
    put + LINE
}

// The count sheet of a module with those functions.
fn sheet_functions(bytes: &[u8], functions: Part, out: &mut [u8]) -> Result<usize, Question>
    requires { FunctionsAt bytes.now functions }
    ensures { Printed result (sheet_call bytes.now out.old) out.new }
{
    if (out.len() as u64) < LINE as u64 * (functions.count + 1) {
        return Err(Question::SheetRoom);
    }
    Ok(write_sheet(bytes, functions.start + 2, functions.count, out))
}

// The count sheet of a module, written only where it fits.
pub fn count_sheet(bytes: &[u8], out: &mut [u8]) -> Result<usize, Question>
    ensures { Printed result (sheet_call bytes.now out.old) out.new }
{
    let sections = read_module(bytes)?;
    sheet_functions(bytes, sections.functions, out)
}
