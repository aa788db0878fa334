// Questions 19 to 21 of the functions.
use crate::cursor::Cursor;
use crate::operands::{ask_head, ask_op};
use crate::{Asked, Head};

impl<'a> Cursor<'a> {
    ghost use Rattle.std.specs.Prelude.{[], ◌∷◌};
    ghost use Rattle.definitions.specs.Bytes.{list_of, counted, checked, all};
    ghost use Rattle.definitions.specs.Reader.{instruction, function_record};
    ghost use Rattle.reader.specs.Asks.{ask_code, ask_function};
    ghost use Rattle.reader.specs.Cursors.{Skips, HeadRead};

    // A function's instructions and their questions.
    fn code(&mut self, asked: Asked, head: Head) -> Option<()>
        ensures { Skips (checked (ask_code asked head.count head.slots 0) (counted [] ◌∷◌ instruction head.count)) result self.old self.new }
    {
        let mut c = *self;
        for place in 0..head.count {
            let instruction = c.instruction()?;
            if !ask_op(asked, head, place, instruction) {
                return None;
            }
        }
        *self = c;
        Some(())
    }

    // The head of a function: the number of its name, of its parameters, of its slots, its height, and the number of its instructions.
    fn head(&mut self) -> Option<Head>
        ensures { HeadRead result self.old self.new }
    {
        let name = self.number()?;
        self.byte()?;
        let slots = self.number()?;
        self.number()?;
        let count = self.number()?;
        Some(Head { name, slots, count })
    }

    // A function and its questions.
    pub(crate) fn function(&mut self, asked: Asked) -> Option<()>
        ensures { Skips (checked (ask_function asked) function_record) result self.old self.new }
    {
        let head = self.head()?;
        if ask_head(asked, head) {
            self.code(asked, head)
        } else {
            None
        }
    }

    // The counted functions and their questions.
    pub(crate) fn functions(&mut self, asked: Asked) -> Option<()>
        ensures { Skips (checked (all (ask_function asked)) (list_of 2 function_record)) result self.old self.new }
    {
        self.list(|c| c.function(asked))
    }
}
