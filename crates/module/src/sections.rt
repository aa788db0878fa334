// The sections from the areas: each writer is lent the rest of the output, from the byte where the one before it ended.
ghost use Rattle.std.specs.Prelude.{ℕ, ◌≡◌, ◌≤◌, ◌<◌, ◌^◌, length, drop, get_or};
ghost use Rattle.state.specs.Words.{region};
ghost use Rattle.state.specs.State.{strings_from, heads_from, codes_from, class_names_from, class_methods_from, methods_from, constants_from, done_from};
ghost use Rattle.writing.specs.Wrote.{Wrote};
ghost use Rattle.module.specs.Sections.{Roomy, texts_bytes, bodies_bytes};
ghost use Rattle.module.specs.Props.{roomy-prop};

use crate::classes::{Classes, Constants};
use crate::functions::{Functions, words_part};
use crate::list::{list_size, write_list};
use crate::symbols::{Strings, Symbols};
use numerals::places::{
    CLASS_METHODS_FROM, CLASS_NAMES_FROM, CODES_FROM, CONSTANTS_FROM, FINISHED_FROM, HEADS_FROM,
    METHODS_FROM, METHODS_ROOM, STRINGS_FROM,
};
use state::Counts;

// What a lowering leaves, from which its module is written: the tree, the bytes of the made names, the two areas, and how much of them is used.
#[derive(Clone, Copy)]
pub struct Lowered<'a> {
    pub tree: &'a [u8],
    pub made: &'a [u8],
    pub code: &'a [u32],
    pub tables: &'a [u32],
    pub counts: Counts,
    pub ghost tree_bytes: { (i : ℕ) → get_or tree.now i 0 < 256 },
    pub ghost made_bytes: { (i : ℕ) → get_or made.now i 0 < 256 },
    pub ghost roomy: { Roomy code.now tables.now counts } by { roomy-prop _ _ _ },
}

impl<'a> Lowered<'a> {
    // By a function, which knows of slices lent to it that their elements are bytes.
    pub fn new(
        tree: &'a [u8],
        made: &'a [u8],
        code: &'a [u32],
        tables: &'a [u32],
        counts: Counts,
    ) -> Lowered<'a>
        requires { Roomy code.now tables.now counts }
        ensures tree { result.tree.now ≡ tree.now }
        ensures made { result.made.now ≡ made.now }
        ensures code { result.code.now ≡ code.now }
        ensures tables { result.tables.now ≡ tables.now }
        ensures counts { result.counts ≡ counts }
    {
        Lowered {
            tree,
            made,
            code,
            tables,
            counts,
        }
    }

    // The lists, as parts of the areas.
    fn symbols(&self) -> Symbols<'a>
        ensures tree { result.tree.now ≡ self.now.tree.now }
        ensures made { result.made.now ≡ self.now.made.now }
        ensures entries { result.entries.now ≡ region 0 self.now.counts.symbols self.now.tables.now }
    {
        Symbols {
            tree: self.tree,
            made: self.made,
            entries: words_part(self.tables, 0, self.counts.symbols as usize),
        }
    }

    fn strings(&self) -> Strings<'a>
        ensures tree { result.tree.now ≡ self.now.tree.now }
        ensures entries { result.entries.now ≡ region strings_from self.now.counts.strings self.now.tables.now }
    {
        Strings {
            tree: self.tree,
            entries: words_part(self.tables, STRINGS_FROM, self.counts.strings as usize),
        }
    }

    fn functions(&self) -> Functions<'a>
        ensures tree { result.tree.now ≡ self.now.tree.now }
        ensures finished { result.finished.now ≡ drop done_from self.now.code.now }
        ensures heads { result.heads.now ≡ region heads_from self.now.counts.functions self.now.tables.now }
        ensures places { result.places.now ≡ region codes_from self.now.counts.functions self.now.tables.now }
    {
        let n = self.counts.functions as usize;
        Functions {
            tree: self.tree,
            finished: &self.code[FINISHED_FROM..],
            heads: words_part(self.tables, HEADS_FROM, n),
            places: words_part(self.tables, CODES_FROM, n),
        }
    }

    fn classes(&self) -> Classes<'a>
        ensures tree { result.tree.now ≡ self.now.tree.now }
        ensures methods { result.methods.now ≡ region methods_from 256 self.now.tables.now }
        ensures names { result.names.now ≡ region class_names_from self.now.counts.classes self.now.tables.now }
        ensures places { result.places.now ≡ region class_methods_from self.now.counts.classes self.now.tables.now }
    {
        let n = self.counts.classes as usize;
        Classes {
            tree: self.tree,
            methods: words_part(self.tables, METHODS_FROM, METHODS_ROOM),
            names: words_part(self.tables, CLASS_NAMES_FROM, n),
            places: words_part(self.tables, CLASS_METHODS_FROM, n),
        }
    }

    fn constants(&self) -> Constants<'a>
        ensures { result.entries.now ≡ region constants_from self.now.counts.constants self.now.tables.now }
    {
        Constants {
            entries: words_part(self.tables, CONSTANTS_FROM, self.counts.constants as usize),
        }
    }

    // The bytes of symbols and strings.
    pub(crate) fn texts_size(&self) -> usize
        ensures { let s = self.now in (result ≡ length (texts_bytes s.tree.now s.made.now s.tables.now s.counts)) × (result < 2 ^ 30) }
    {
        let symbols = self.symbols();
        let strings = self.strings();
        list_size(&symbols) + list_size(&strings)
    }

    pub(crate) fn write_texts(&self, out: &mut [u8]) -> usize
        requires { let s = self.now in length (texts_bytes s.tree.now s.made.now s.tables.now s.counts) ≤ length out.old }
        ensures { let s = self.now in Wrote result (texts_bytes s.tree.now s.made.now s.tables.now s.counts) out.old out.new }
    {
        let symbols = self.symbols();
        let strings = self.strings();
        let at = write_list(&symbols, out);
        at + write_list(&strings, &mut out[at..])
    }

    // The bytes of functions, classes and constants.
    pub(crate) fn bodies_size(&self) -> usize
        ensures { let s = self.now in (result ≡ length (bodies_bytes s.tree.now s.code.now s.tables.now s.counts)) × (result < 2 ^ 31) }
    {
        let functions = self.functions();
        let classes = self.classes();
        let constants = self.constants();
        list_size(&functions) + list_size(&classes) + list_size(&constants)
    }

    pub(crate) fn write_bodies(&self, out: &mut [u8]) -> usize
        requires { let s = self.now in length (bodies_bytes s.tree.now s.code.now s.tables.now s.counts) ≤ length out.old }
        ensures { let s = self.now in Wrote result (bodies_bytes s.tree.now s.code.now s.tables.now s.counts) out.old out.new }
    {
        let functions = self.functions();
        let classes = self.classes();
        let constants = self.constants();
        let mut at = write_list(&functions, out);
        at += write_list(&classes, &mut out[at..]);
        at + write_list(&constants, &mut out[at..])
    }
}
