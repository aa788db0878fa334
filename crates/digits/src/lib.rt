// Digits and numbers of text.
#![tactic(auto)]

ghost use Rattle.std.specs.Prelude.{◌≡◌, ◌+◌, ◌*◌, ◌%◌, ◌<◌, SomeIff};
ghost use Rattle.digits.specs.Text.{digit_value, decimal_spelled};

use std::str;

const ZERO: u32 = '0' as u32;

const NINE: u32 = '9' as u32;

const LOWER_A: u32 = 'a' as u32;

const LOWER_F: u32 = 'f' as u32;

const DECIMAL: u32 = 10;

// The value of a hexadecimal digit in lower case. Not by to_digit, which takes capitals too: leaving those out is no plainer.
#[tactic(auto, unfolding(crate::specs::Text::digit_value))]
pub fn digit_of(c: u32) -> Option<u32>
    ensures { SomeIff result (digit_value c < 16) (digit_value c) }
{
    match c {
        ZERO..=NINE => Some(c - ZERO),
        LOWER_A..=LOWER_F => Some(c - LOWER_A + 10),
        _ => None,
    }
}

// The byte of two digits, of each the lowest four bits.
pub fn pair(high: u32, low: u32) -> u8
    ensures { result ≡ high % 16 * 16 + low % 16 }
{
    (high % 16 * 16 + low % 16) as u8
}

// The number that a text spells in decimal digits, of which there is at least one. The library also reads a plus in front.
pub fn decimal_of(text: &[u8]) -> Option<u64>
    ensures { result ≡ decimal_spelled text.now }
{
    let number = str::from_utf8(text).ok()?;
    if number.starts_with('+') {
        return None;
    }
    u64::from_str_radix(number, DECIMAL).ok()
}
