// Questions 19 and 20 of the classes and constants.
ghost use Rattle.std.specs.Prelude.{◌≡◌};
ghost use Rattle.reader.specs.Asks.{ask_next};

use crate::cursor::Cursor;
use crate::{Asked, Counts};
use byte_tests::below_bytes;

impl Asked {
    ghost use Rattle.reader.specs.Asks.{counts_asked};

    // The counts of what may be numbered, where that is asked.
    #[tactic(auto, unfolding(crate::specs::Asks::counts_asked))]
    fn numbers(self) -> Option<Counts>
        ensures { result ≡ counts_asked self }
    {
        match self {
            Asked::Numbers(counts) => Some(counts),
            Asked::Layout | Asked::Jumps => None,
        }
    }
}

// A question of a method's name, after the one before it, and of its function.
#[tactic(auto, unfolding(crate::specs::Asks::ask_next))]
fn ask_next(before: &[u8], name: &[u8], asked: Asked, function: u64) -> bool
    ensures { result ≡ ask_next asked before.now name.now function }
{
    below_bytes(before, name)
        && asked
            .numbers()
            .is_none_or(|counts| function < counts.functions)
}

impl<'a> Cursor<'a> {
    ghost use Rattle.std.specs.Prelude.{[]};
    ghost use Rattle.definitions.specs.Bytes.{list_of, field, checked, all};
    ghost use Rattle.definitions.specs.Reader.{method_record, class_record};
    ghost use Rattle.reader.specs.Asks.{ask_constant, ask_methods, ask_class};
    ghost use Rattle.reader.specs.Cursors.{Skips};

    // A constant and its question: it is the number of a class.
    fn constant(&mut self, asked: Asked) -> Option<()>
        ensures { Skips (checked (ask_constant asked) (field 2)) result self.old self.new }
    {
        let class = self.number()?;
        if asked.numbers().is_none_or(|counts| class < counts.classes) {
            Some(())
        } else {
            None
        }
    }

    // The counted constants and their questions.
    pub(crate) fn constants(&mut self, asked: Asked) -> Option<()>
        ensures { Skips (checked (all (ask_constant asked)) (list_of 2 (field 2))) result self.old self.new }
    {
        self.list(|c| c.constant(asked))
    }

    // The counted methods and their questions.
    fn methods(&mut self, asked: Asked) -> Option<()>
        ensures { Skips (checked (ask_methods asked []) (list_of 2 method_record)) result self.old self.new }
    {
        let count = self.number()?;
        let mut c = *self;
        let mut before: &[u8] = &[];
        for _ in 0..count {
            let name = c.proper()?;
            let function = c.number()?;
            if !ask_next(before, name, asked, function) {
                return None;
            }
            before = name;
        }
        *self = c;
        Some(())
    }

    // A class and its questions.
    fn class(&mut self, asked: Asked) -> Option<()>
        ensures { Skips (checked (ask_class asked) class_record) result self.old self.new }
    {
        self.proper()?;
        self.methods(asked)
    }

    // The counted classes and their questions.
    pub(crate) fn classes(&mut self, asked: Asked) -> Option<()>
        ensures { Skips (checked (all (ask_class asked)) (list_of 2 class_record)) result self.old self.new }
    {
        self.list(|c| c.class(asked))
    }
}
