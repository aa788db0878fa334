// Strings: a count and its bytes, well-formed UTF-8 (8).
use crate::asked::BlockQuestion;
use crate::checker::Checker;
use questions::Question;
use utf8::is_utf8;

impl<'a> Checker<'a> {
    ghost use Rattle.definitions.specs.Bytes.{text};
    ghost use Rattle.tree_view.specs.Judge.{judged, ask_text};
    ghost use Rattle.parts.specs.Judged.{Judged};

    // A string's count and bytes.
    pub fn string(&mut self) -> Result<(), Question>
        ensures { Judged result self.old self.new (judged ask_text text) }
    {
        let n = self.number()?;
        let text = self.take(n as usize)?;
        self.note(BlockQuestion::Strings, is_utf8(text));
        Ok(())
    }
}
