// The lines of a listing, 52 columns and a line feed each.
ghost use Rattle.std.specs.Prelude.{◌≡◌, ◌^◌, ◌≤◌, ◌<◌, length};
ghost use Rattle.definitions.specs.Calls.{written};
ghost use Rattle.definitions.specs.Instruction.{first_width};
ghost use Rattle.definitions.specs.Columns.{signed};
ghost use Rattle.definitions.specs.Listing.{first_text, second_text, code_line, page_line};
ghost use Rattle.columns.specs.Fields.{field_text};
ghost use Rattle.reader.specs.View.{instruction_shown};
ghost use Rattle.listing.specs.Lines.{Operands};

use crate::names::put_name;
use columns::{Field, put_field};
use reader::Placed;
use widths::{first_width, second_width};
use writing::write_bytes;

// Opcodes by which a first operand is shown: an integer, a float, and the jumps; numbers of its own, as the crate needs nothing else of numerals.
const CONST_I64: u8 = 0;

const CONST_F64: u8 = 1;

const JUMP: u8 = 28;

const JUMP_IF_FALSE: u8 = 29;

const JUMP_IF_TRUE: u8 = 30;

const LINE_FEED: u8 = 10;

// A number of 64 bits, by its sign.
fn signed_long(a: u64) -> Field
    ensures { field_text result ≡ signed 64 a }
{
    if a < 9223372036854775808 {
        return Field::Digits(a);
    }
    Field::Negative(18446744073709551615 - a + 1)
}

// A number of 32 bits, by its sign.
fn signed_short(a: u64) -> Field
    requires { a < 4294967296 }
    ensures { field_text result ≡ signed 32 a }
{
    if a < 2147483648 {
        return Field::Digits(a);
    }
    Field::Negative(4294967296 - a)
}

// The first operand.
fn first_shown(op: u8, a: u64) -> Field
    requires { a < 256 ^ first_width op }
    ensures { field_text result ≡ first_text op a }
{
    match op {
        CONST_I64 => signed_long(a),
        CONST_F64 => Field::Bits(16, a),
        JUMP | JUMP_IF_FALSE | JUMP_IF_TRUE => signed_short(a),
        _ if first_width(op as usize) == 0 => Field::Blank,
        _ => Field::Digits(a),
    }
}

// The second operand.
fn second_shown(op: u8, b: u64) -> Field
    ensures { field_text result ≡ second_text op b }
{
    if second_width(op as usize) == 0 {
        return Field::Blank;
    }
    Field::Digits(b)
}

// The line of an instruction at a place of the function f.
pub(crate) fn write_line(f: u64, placed: Placed, out: &mut [u8])
    requires { (f < 65536) × (placed.place < 65536) × Operands placed × (53 ≤ length out.old) }
    ensures { out.new ≡ written (code_line f placed.place (instruction_shown placed)) out.old }
{
    let instruction = placed.instruction;
    let first = first_shown(instruction.op, instruction.a);
    let second = second_shown(instruction.op, instruction.b);
    put_field(5, Field::Digits(f), out);
    put_field(6, Field::Digits(placed.place), &mut out[5..]);
    put_name(instruction.op, &mut out[11..]);
    put_field(21, first, &mut out[27..]);
    put_field(4, second, &mut out[48..]);
    out[52] = LINE_FEED;
}

// The first line of page n.
pub(crate) fn write_page(n: u64, out: &mut [u8])
    requires { (n < 1000000) × (53 ≤ length out.old) }
    ensures { out.new ≡ written (page_line n) out.old }
{
    write_bytes(b"PAGE ", out);
    put_field(6, Field::Digits(n), &mut out[5..]);
    put_field(41, Field::Blank, &mut out[11..]);
    out[52] = LINE_FEED;
}
