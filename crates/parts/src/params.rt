// Parameter lists, and the head of a method (11 to 13).
ghost use Rattle.std.specs.Prelude.{◌≡◌, not, ◌||◌, ltb};
ghost use Rattle.definitions.specs.Bytes.{same};
ghost use Rattle.definitions.specs.Wellformed.{init};

use crate::asked::BlockQuestion;
use crate::checker::Checker;
use crate::distinct::distinct_names;
use questions::Question;
use tree_view::names::name_part;
use tree_view::numbers::u16_at;

// How many names or arguments a list may have (13).
pub const LIST_MOST: u32 = 255;

// 12: whether a method of this name may have n parameters. These are counted, not the name's bytes.
fn may_have(name: &[u8], n: u32) -> bool
    ensures { result ≡ (not (same name.now init) || ltb 0 n) }
{
    name != b"__init__".as_slice() || 0 < n
}

impl<'a> Checker<'a> {
    ghost use Rattle.tree_view.specs.Judge.{judge_names, judge_params, judge_head};
    ghost use Rattle.parts.specs.Judged.{Judged};

    // n names.
    fn names(&mut self, n: u32) -> Result<(), Question>
        ensures { Judged result self.old self.new (λ t p w. judge_names t n p w) }
    {
        for _ in 0..n {
            self.name()?;
        }
        Ok(())
    }

    // A parameter list.
    pub fn params(&mut self) -> Result<(), Question>
        ensures { Judged result self.old self.new judge_params }
    {
        let n = self.number()?;
        let from = self.at;
        self.names(n)?;
        let distinct = distinct_names(self.tree, from, n);
        self.note(BlockQuestion::Parameters, distinct);
        self.note(BlockQuestion::ListLengths, n <= LIST_MOST);
        Ok(())
    }

    // A method's name and parameters.
    pub fn head(&mut self) -> Result<(), Question>
        ensures { Judged result self.old self.new judge_head }
    {
        let at = self.at;
        self.name()?;
        let list = self.at;
        self.params()?;
        let ok = may_have(name_part(self.tree, at), u16_at(self.tree, list));
        self.note(BlockQuestion::Init, ok);
        Ok(())
    }
}
