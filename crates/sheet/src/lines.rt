// The lines of a count sheet, 40 columns and a line feed each.
ghost use Rattle.std.specs.Prelude.{◌≡◌, ◌≤◌, ◌<◌, length};
ghost use Rattle.definitions.specs.Bytes.{ascii, decimal};
ghost use Rattle.definitions.specs.Calls.{written};
ghost use Rattle.definitions.specs.Sheet.{count_line};
ghost use Rattle.sheet.specs.Rows.{counts_text, Few};
ghost use Rattle.sheet.specs.Props.{few-prop};

use columns::{Field, put_field};
use writing::write_bytes;

const LINE_FEED: u8 = 10;

// The three counts of a line, of at most six digits each.
#[derive(Clone, Copy)]
pub(crate) struct Row {
    pub(crate) instructions: u64,
    pub(crate) questions: u64,
    pub(crate) calls: u64,
    pub(crate) ghost few: { Few instructions questions calls } by { few-prop _ _ _ },
}

// A line's counts, from its sixth column on.
fn put_counts(row: Row, out: &mut [u8])
    requires { 36 ≤ length out.old }
    ensures { out.new ≡ written (counts_text row.instructions row.questions row.calls) out.old }
{
    put_field(7, Field::Digits(row.instructions), out);
    put_field(7, Field::Digits(row.questions), &mut out[7..]);
    put_field(7, Field::Digits(row.calls), &mut out[14..]);
    put_field(14, Field::Blank, &mut out[21..]);
    out[35] = LINE_FEED;
}

// The line of the function f.
pub(crate) fn write_count(f: u64, row: Row, out: &mut [u8])
    requires { (f < 65536) × (41 ≤ length out.old) }
    ensures { out.new ≡ written (count_line (decimal f) row.instructions row.questions row.calls) out.old }
{
    put_field(5, Field::Digits(f), out);
    put_counts(row, &mut out[5..]);
}

// The last line.
pub(crate) fn write_total(row: Row, out: &mut [u8])
    requires { 41 ≤ length out.old }
    ensures { out.new ≡ written (count_line (ascii "TOTAL") row.instructions row.questions row.calls) out.old }
{
    write_bytes(b"TOTAL", out);
    put_counts(row, &mut out[5..]);
}
