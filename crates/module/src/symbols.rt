// Symbols and strings, each with its own count before it.
ghost use Rattle.std.specs.Prelude.{ℕ, ◌<◌, map, get_or};
ghost use Rattle.definitions.specs.Module.{name_bytes, text_bytes};
ghost use Rattle.state.specs.Words.{text_at};
ghost use Rattle.state.specs.State.{spelled};

use crate::list::Listed;
use names::spell::{spelling, text_part};
use writing::numbers::write_counted;

// Symbols, by where each was first made.
#[derive(Clone, Copy)]
pub(crate) struct Symbols<'a> {
    pub tree: &'a [u8],
    pub made: &'a [u8],
    pub entries: &'a [u32],
    ghost tree_bytes: { (i : ℕ) → get_or tree.now i 0 < 256 },
    ghost made_bytes: { (i : ℕ) → get_or made.now i 0 < 256 },
}

impl Listed for Symbols<'_> {
    ghost elements = { λ s. map (λ w. name_bytes (spelled s.tree.now s.made.now w)) s.entries.now };

    fn count(&self) -> usize {
        self.entries.len()
    }

    fn size_at(&self, i: usize) -> usize {
        1 + spelling(self.tree, self.made, self.entries[i]).len()
    }

    fn write_at(&self, i: usize, out: &mut [u8]) -> usize {
        write_counted(1, spelling(self.tree, self.made, self.entries[i]), out)
    }
}

// Strings, by their places in the tree.
#[derive(Clone, Copy)]
pub(crate) struct Strings<'a> {
    pub tree: &'a [u8],
    pub entries: &'a [u32],
    ghost tree_bytes: { (i : ℕ) → get_or tree.now i 0 < 256 },
}

impl Listed for Strings<'_> {
    ghost elements = { λ s. map (λ w. text_bytes (text_at s.tree.now w)) s.entries.now };

    fn count(&self) -> usize {
        self.entries.len()
    }

    fn size_at(&self, i: usize) -> usize {
        2 + text_part(self.tree, self.entries[i] as usize).len()
    }

    fn write_at(&self, i: usize, out: &mut [u8]) -> usize {
        write_counted(2, text_part(self.tree, self.entries[i] as usize), out)
    }
}
