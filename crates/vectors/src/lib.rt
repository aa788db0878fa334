// Cases of tests/vectors from an input: a case a line, its fields parted by tabs, its name first.
#![tactic(auto)]

ghost use Rattle.std.specs.Prelude.{◌≡◌, ◌≤◌, length, true, false, is_none, is_some, IfOk, IfSome, Some};
ghost use Rattle.vectors.specs.Lines.{is_end, is_tab, Cases};

use digits::{decimal_of, digit_of, pair};
use input::read_full;
use std::io;
use std::io::Read;

// How many bytes are read at once, and how many digits a number has at the most.
const PIECE: usize = 4096;

const DIGITS: usize = 20;

// An input by its lines: a piece of it, of which the bytes from `at` to `end` are still to be taken, and the byte that was taken last, if the
// input has not ended.
#[derive(Drop)]
pub struct Lines<R> {
    input: R,
    piece: [u8; PIECE],
    at: usize,
    end: usize,
    last: Option<u8>,
    ghost inside: { (at ≤ end) × (end ≤ 4096) },
}

// Whether a line ends with the byte, or a field where `at_tab` is set.
#[tactic(auto, unfolding(crate::specs::Lines::is_end))]
fn is_end(last: Option<u8>, at_tab: bool) -> bool
    ensures { result ≡ is_end at_tab last }
{
    match last {
        None | Some(b'\n') => true,
        Some(b'\t') => at_tab,
        _ => false,
    }
}

impl<R: Read> Lines<R> {
    // Before the first line.
    pub fn new(input: R) -> Self
        ensures { (result.at ≡ 0) × (result.end ≡ 0) × (result.last ≡ Some 10) }
    {
        Lines {
            input,
            piece: [0; PIECE],
            at: 0,
            end: 0,
            last: Some(b'\n'),
        }
    }

    // Whether the input has ended.
    fn has_ended(&self) -> bool
        ensures { result ≡ is_none self.now.last }
    {
        self.last.is_none()
    }

    // Whether another field follows in the line.
    #[tactic(auto, unfolding(crate::specs::Lines::is_tab))]
    fn has_field(&self) -> bool
        ensures { result ≡ is_tab self.now.last }
    {
        matches!(self.last, Some(b'\t'))
    }

    // The next byte, of the next piece where this one is used up.
    fn take(&mut self) {
        if self.at == self.end {
            self.at = 0;
            self.end = read_full(&mut self.input, &mut self.piece).len();
        }
        if self.at < self.end {
            self.last = Some(self.piece[self.at]);
            self.at += 1;
        } else {
            self.last = None;
        }
    }

    // To the end of the line, or of the field where `at_tab` is set. Nothing says that there is one: after so many bytes as no input has, the input
    // counts as ended.
    #[tactic(auto, unfolding(crate::specs::Lines::is_end))]
    fn skip(&mut self, at_tab: bool)
        ensures ends { is_end at_tab self.new.last ≡ true }
        ensures stays { is_end at_tab self.old.last ≡ true → self.new ≡ self.old }
    {
        for _ in 0..u64::MAX {
            if is_end(self.last, at_tab) {
                return;
            }
            self.take();
        }
        self.last = None;
    }

    // To the end of the line.
    fn skip_line(&mut self)
        ensures ends { is_end false self.new.last ≡ true }
        ensures stays { is_end false self.old.last ≡ true → self.new ≡ self.old }
    {
        self.skip(false);
    }

    // From the end of a line past the name of the next.
    fn skip_name(&mut self)
        ensures { is_end true self.new.last ≡ true }
    {
        self.take();
        self.skip(true); // to the end of the name
    }

    // To the end of a field, and whether it ended here.
    fn finish(&mut self) -> bool
        ensures ends { is_end true self.new.last ≡ true }
        ensures here { result ≡ is_end true self.old.last }
    {
        let ends = is_end(self.last, true);
        self.skip(true);
        ends
    }

    // The characters of the rest of a field, of which the first is taken.
    fn text<'a>(&mut self, out: &'a mut [u8]) -> &'a [u8] {
        for (n, byte) in out.iter_mut().enumerate() {
            match self.last {
                Some(c) if !is_end(self.last, true) => *byte = c,
                _ => return &out[..n],
            }
            self.take();
        }
        out
    }

    // The digit that was taken last. A field comes byte by byte from an input in pieces, so the library, which reads whole texts, serves its number alone.
    fn digit(&self) -> Option<u32> {
        digit_of(u32::from(self.last?))
    }

    // The bytes of the rest of a field in hexadecimal, of which the first character is taken; none where a digit has no second; `-` has no byte.
    fn bytes<'a>(&mut self, out: &'a mut [u8]) -> Option<&'a [u8]>
        ensures size { IfSome result (λ bytes. length bytes.now ≤ length out.old) }
        ensures begins { IfSome result (λ bytes. (bytes.ref_ptr.0 ≡ out.entry.ref_ptr.0) × (bytes.ref_ptr.1 ≡ out.entry.ref_ptr.1)) }
    {
        if self.last == Some(b'-') {
            self.take();
            return Some(&out[..0]);
        }
        for (n, byte) in out.iter_mut().enumerate() {
            let Some(high) = self.digit() else {
                return Some(&out[..n]);
            };
            self.take();
            let low = self.digit()?;
            self.take();
            *byte = pair(high, low);
        }
        Some(out)
    }

    // The bytes of the field after a tab in hexadecimal; `-` has none. A field of more bytes than `out` holds is skipped, and there are none.
    pub fn hex_field<'a>(&mut self, out: &'a mut [u8]) -> Option<&'a [u8]>
        ensures size { IfSome result (λ bytes. length bytes.now ≤ length out.old) }
        ensures begins { IfSome result (λ bytes. (bytes.ref_ptr.0 ≡ out.entry.ref_ptr.0) × (bytes.ref_ptr.1 ≡ out.entry.ref_ptr.1)) }
        ensures ends { is_tab self.old.last ≡ true → is_end true self.new.last ≡ true }
        ensures some { is_some result ≡ true → is_tab self.old.last ≡ true }
        ensures none { is_tab self.old.last ≡ false → self.new ≡ self.old }
    {
        if !self.has_field() {
            return None;
        }
        self.take();
        let bytes = self.bytes(out);
        if self.finish() { bytes } else { None }
    }

    // The number of the field after a tab, in decimal digits.
    pub fn decimal_field(&mut self) -> Option<u64>
        ensures ends { is_tab self.old.last ≡ true → is_end true self.new.last ≡ true }
        ensures some { is_some result ≡ true → is_tab self.old.last ≡ true }
        ensures none { is_tab self.old.last ≡ false → self.new ≡ self.old }
    {
        if !self.has_field() {
            return None;
        }
        self.take();
        let mut text = [0u8; DIGITS];
        let number = decimal_of(self.text(&mut text));
        if self.finish() { number } else { None }
    }

    // Each case in turn, up to an error: `read` takes the fields after its name, and the rest of its line is skipped. Nothing says that the input ends, as in
    // `skip`.
    pub fn each_case<E, F: FnMut(&mut Lines<R>) -> Result<(), E>>(
        &mut self,
        mut read: F,
    ) -> Result<(), E>
        requires { F.IsAlwaysCallable read }
        ensures ends { IfOk result (λ _. is_none self.new.last ≡ true) }
        ensures cases { Cases (λ lines. lines.last) F.FnMut 18446744073709551615 0 read self.old result self.new }
    {
        for _ in 0..u64::MAX {
            if self.has_ended() {
                return Ok(());
            }
            self.skip_name();
            if self.has_field() {
                read(self)?;
                self.skip_line();
            }
        }
        self.last = None;
        Ok(())
    }

    // The answer to each case, whose first field is in hexadecimal, by the bytes of the field, for which `out` has room.
    pub fn replay<P: Print, F: Fn(&[u8]) -> io::Result<()>>(
        &mut self,
        rt: &P,
        out: &mut [u8],
        answer: F,
    ) -> io::Result<()>
        requires { F.IsAlwaysCallable answer }
        ensures { IfOk result (λ _. is_none self.new.last ≡ true) }
    {
        self.each_case(|case| match case.hex_field(out) {
            Some(bytes) => answer(bytes),
            None => rt.println("not read"),
        })
    }
}
