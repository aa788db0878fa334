// The lines of functions, in pages.
ghost use Rattle.std.specs.Prelude.{◌++◌, ◌+◌, ◌≤◌, ◌<◌, length};
ghost use Rattle.definitions.specs.Module.{instructions};
ghost use Rattle.definitions.specs.Reader.{function_record, instruction};
ghost use Rattle.definitions.specs.Listing.{heading, code_line, code_lines, function_lines};
ghost use Rattle.reader.specs.View.{instructions_of, instruction_shown};
ghost use Rattle.writing.specs.Wrote.{Wrote};
ghost use Rattle.tally.specs.Walk.{Values, code_from, functions_from};
ghost use Rattle.listing.specs.Lines.{Operands, Lined};

use crate::lines::{write_line, write_page};
use crate::{LINE, Next, PAGE};
use numerals::sizes::{FUNCTION_COUNT, FUNCTION_HEAD};
use reader::{Instructions, Part, Placed, number_at, part_of};
use tally::count_code;

// Code line k, after a page's first line where it begins a page.
fn write_entry(k: u64, f: u64, placed: Placed, out: &mut [u8]) -> usize
    requires { (k < 1000000) × (f < 65536) × (placed.place < 65536) × Operands placed × (length (heading k ++ code_line f placed.place (instruction_shown placed)) ≤ length out.old) }
    ensures { Wrote result (heading k ++ code_line f placed.place (instruction_shown placed)) out.old out.new }
{
    if k % PAGE == 0 {
        write_page(k / PAGE + 1, out);
        write_line(f, placed, &mut out[LINE..]);
        return LINE + LINE;
    }
    write_line(f, placed, out);
    LINE
}

// The lines of the function f, whose code this is, from code line k on: their bytes.
fn write_code(code: &[u8], f: u64, k: u64, out: &mut [u8]) -> usize
    requires { (length (instructions_of code.now) < 65536) × (f < 65536) × (k + length (instructions_of code.now) < 1000000) × (length (code_lines f 0 k (instructions_of code.now)) ≤ length out.old) }
    ensures { Wrote result (code_lines f 0 k (instructions_of code.now)) out.old out.new }
{
    let mut put = 0usize;
    for placed in Instructions::of(code) {
        put += write_entry(k + placed.place, f, placed, &mut out[put..]);
    }
    put
}

// The lines of the function f, whose n instructions begin at `at`, from code line k on: its code is handed back as a part of the module.
fn write_function(bytes: &[u8], at: usize, n: u64, f: u64, k: u64, out: &mut [u8]) -> Next
    requires { Values instruction n bytes.now at × (n < 65536) × (f < 65536) × (k + n < 1000000) × (length (code_lines f 0 k (code_from n bytes.now at)) ≤ length out.old) }
    ensures { Lined result n bytes.now at f k out.old out.new }
{
    let end = count_code(bytes, at, n).at;
    let code = Part {
        start: at,
        size: end - at,
        count: n,
    };
    let put = write_code(part_of(bytes, Ok(code)), f, k, out);
    Next { at: end, put }
}

// The lines of `count` functions from `at` on. That they stand there (Values) is said of a place that moves on, so no struct keeps it.
pub(crate) fn write_functions(bytes: &[u8], at: usize, count: u64, out: &mut [u8]) -> usize
    requires { Values function_record count bytes.now at × (count < 65536) × (instructions (functions_from count bytes.now at) < 1000000) × (length (function_lines 0 0 (functions_from count bytes.now at)) ≤ length out.old) }
    ensures { Wrote result (function_lines 0 0 (functions_from count bytes.now at)) out.old out.new }
{
    let mut p = at;
    let mut put = 0usize;
    let mut k = 0u64;
    for f in 0..count {
        let n = number_at(bytes, p + FUNCTION_COUNT, 2);
        let lines = write_function(bytes, p + FUNCTION_HEAD, n, f, k, &mut out[put..]);
        put += lines.put;
        p = lines.at;
        k += n;
    }
    put
}
