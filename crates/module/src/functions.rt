// Functions with their instructions.
ghost use Rattle.std.specs.Prelude.{◌≡◌, ◌/◌, ◌%◌, ◌<◌, length, map, get_or};
ghost use Rattle.definitions.specs.Instruction.{encode};
ghost use Rattle.definitions.specs.Module.{function_bytes};
ghost use Rattle.state.specs.Words.{region, instr_of};
ghost use Rattle.state.specs.State.{functions_of};

use crate::heights::height_of;
use crate::list::{Listed, list_size, write_list};
use crate::words::{instruction_size, write_instruction};
use numerals::places::UPPER;
use numerals::sizes::FUNCTION_COUNT;
use writing::numbers::write_number;

// n words from `from` on, cut at the end. names::spell::part is the same of bytes, and no one function serves both: it also says at which address
// its bytes begin, which a function over any type cannot.
pub fn words_part<'a>(words: &'a [u32], from: usize, n: usize) -> &'a [u32]
    ensures { result.now ≡ region from n words.now }
{
    let rest = &words[from.min(words.len())..];
    &rest[..n.min(rest.len())]
}

// The words whose place and count one number has.
pub(crate) fn placed<'a>(words: &'a [u32], place: u32) -> &'a [u32]
    ensures { result.now ≡ region (place / 65536) (place % 65536) words.now }
{
    words_part(words, (place / UPPER) as usize, (place % UPPER) as usize)
}

// Instructions, by their words.
#[derive(Clone, Copy)]
pub(crate) struct Code<'a> {
    pub tree: &'a [u8],
    pub words: &'a [u32],
}

impl Listed for Code<'_> {
    ghost elements = { λ s. map (λ w. encode (instr_of s.tree.now w)) s.words.now };

    fn count(&self) -> usize {
        self.words.len()
    }

    fn size_at(&self, i: usize) -> usize {
        instruction_size(self.words[i])
    }

    fn write_at(&self, i: usize, out: &mut [u8]) -> usize {
        write_instruction(self.tree, self.words[i], out)
    }
}

// Functions, by their heads and the places of their code among the finished words.
#[derive(Clone, Copy)]
pub(crate) struct Functions<'a> {
    pub tree: &'a [u8],
    pub finished: &'a [u32],
    pub heads: &'a [u32],
    pub places: &'a [u32],
}

impl<'a> Functions<'a> {
    // The instructions of one function.
    fn code_at(&self, i: usize) -> Code<'a>
        requires { i < length self.now.places.now }
        ensures tree { result.tree.now ≡ self.now.tree.now }
        ensures words { let k = get_or self.now.places.now i 0 in result.words.now ≡ region (k / 65536) (k % 65536) self.now.finished.now }
    {
        Code {
            tree: self.tree,
            words: placed(self.finished, self.places[i]),
        }
    }
}

impl Listed for Functions<'_> {
    ghost elements = { λ s. map function_bytes (functions_of s.tree.now s.finished.now s.heads.now s.places.now) };

    fn count(&self) -> usize {
        self.heads.len().min(self.places.len())
    }

    fn size_at(&self, i: usize) -> usize {
        let code = self.code_at(i);
        FUNCTION_COUNT + list_size(&code)
    }

    fn write_at(&self, i: usize, out: &mut [u8]) -> usize {
        let head = self.heads[i];
        let code = self.code_at(i);
        let height = height_of(code.words);
        let mut at = write_number(2, (head / UPPER) as u64, out);
        at += write_number(1, (head / 256 % 256) as u64, &mut out[at..]);
        at += write_number(2, (head % 256) as u64, &mut out[at..]);
        at += write_number(2, height, &mut out[at..]);
        at + write_list(&code, &mut out[at..])
    }
}
