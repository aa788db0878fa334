// Tests of bytes: whether two lists of them are the same, which comes first, whether they are a name.
#![tactic(auto)]

ghost use Rattle.std.specs.Prelude.{◌≡◌, ◌||◌};
ghost use Rattle.definitions.specs.Bytes.{same, below};
ghost use Rattle.definitions.specs.Wellformed.{letter, digit, is_name};

// A name's greatest length.
const MOST_BYTES: usize = 64;

// Whether the two are the same bytes. Tried with `==`, which is made for long slices: a search among names, which are short, takes up to twice as long.
pub fn same_bytes(a: &[u8], b: &[u8]) -> bool
    ensures { result ≡ same a.now b.now }
{
    if a.len() != b.len() {
        return false;
    }
    for i in 0..a.len() {
        if a[i] != b[i] {
            return false;
        }
    }
    true
}

// Whether the bytes a are below b: byte by byte, a proper beginning first. Tried with `<`: the sort of the names that a lambda captures, which are short, takes 1.7 times as long.
pub fn below_bytes(a: &[u8], b: &[u8]) -> bool
    ensures { result ≡ below a.now b.now }
{
    for i in 0..a.len().min(b.len()) {
        if a[i] != b[i] {
            return a[i] < b[i];
        }
    }
    a.len() < b.len()
}

// A letter or `_`.
#[tactic(auto, unfolding(definitions::specs::Wellformed::letter))]
fn is_letter(c: u8) -> bool
    ensures { result ≡ letter c }
{
    matches!(c, b'A'..=b'Z' | b'a'..=b'z' | b'_')
}

// A letter, a digit or `_`.
#[tactic(auto, unfolding(definitions::specs::Wellformed::digit))]
fn is_inner(c: u8) -> bool
    ensures { result ≡ (letter c || digit c) }
{
    is_letter(c) || matches!(c, b'0'..=b'9')
}

// Whether the bytes are a name (7, 19).
pub fn is_name(bytes: &[u8]) -> bool
    ensures { result ≡ is_name bytes.now }
{
    match bytes {
        [first, inner @ ..] if is_letter(*first) && inner.len() < MOST_BYTES => inner
            .iter()
            .all(|c| is_inner(*c)),
        _ => false,
    }
}
