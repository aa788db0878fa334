// Fields of a line: numbers at the right of their columns, each written from the start of the output that is lent.
#![tactic(auto)]

ghost use Rattle.std.specs.Prelude.{◌≡◌, ◌≤◌, ◌<◌, length};
ghost use Rattle.definitions.specs.Calls.{written};
ghost use Rattle.definitions.specs.Columns.{right_in, hex_digit};
ghost use Rattle.columns.specs.Fields.{field_text, Splits};

// What a field shows, at its right: nothing, a number in decimal digits, the same after a minus, a minus, the low hexadecimal digits of a number.
#[derive(Clone, Copy)]
pub enum Field {
    Blank,
    Digits(u64),
    Negative(u64),
    Minus,
    Bits(u8, u64),
}

// The last byte of a field, and what it shows before that.
#[derive(Clone, Copy)]
pub struct Last {
    pub byte: u8,
    pub rest: Field,
}

// An upper-case hexadecimal digit.
#[tactic(auto, unfolding(definitions::specs::Columns::hex_digit))]
fn hex_digit(d: u64) -> u8
    requires { d < 16 }
    ensures { result ≡ hex_digit d }
{
    if d < 10 {
        b'0' + d as u8
    } else {
        b'A' + (d - 10) as u8
    }
}

// The last byte of a field, and what it shows before that. Tried with guards and a 0 in the arms, which test the field twice: a field takes a third longer.
fn last_of(f: Field) -> Last
    ensures { Splits f result }
{
    let (byte, rest) = match f {
        Field::Blank => (b' ', Field::Blank),
        Field::Minus => (b'-', Field::Blank),
        Field::Digits(n) => {
            if n < 10 {
                (b'0' + n as u8, Field::Blank)
            } else {
                (b'0' + (n % 10) as u8, Field::Digits(n / 10))
            }
        }
        Field::Negative(n) => {
            if n < 10 {
                (b'0' + n as u8, Field::Minus)
            } else {
                (b'0' + (n % 10) as u8, Field::Negative(n / 10))
            }
        }
        Field::Bits(w, n) => {
            if w == 0 {
                (b' ', Field::Blank)
            } else {
                (hex_digit(n % 16), Field::Bits(w - 1, n / 16))
            }
        }
    };
    Last { byte, rest }
}

// A field of w columns, from its last byte to its first; what it does not show is spaces.
pub fn put_field(w: usize, f: Field, out: &mut [u8])
    requires { (length (field_text f) ≤ w) × (w ≤ length out.old) }
    ensures { out.new ≡ written (right_in w (field_text f)) out.old }
{
    let mut rest = f;
    for i in (0..w).rev() {
        if let Field::Blank = rest {
            out[..i + 1].fill(b' ');
            return;
        }
        let last = last_of(rest);
        out[i] = last.byte;
        rest = last.rest;
    }
}
