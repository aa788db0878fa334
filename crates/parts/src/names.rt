// Names: a length byte and its bytes (7, 33).
ghost use Rattle.std.specs.Prelude.{◌≡◌, ◌&&◌, ltb, length};
ghost use Rattle.definitions.specs.Bytes.{all};
ghost use Rattle.definitions.specs.Wellformed.{digit, is_iterator};

use crate::asked::BlockQuestion;
use crate::checker::Checker;
use byte_tests::is_name;
use questions::Question;

// Whether the bytes are a digit or more.
#[tactic(auto, unfolding(definitions::specs::Wellformed::digit))]
fn are_digits(bytes: &[u8]) -> bool
    ensures { result ≡ (ltb 0 (length bytes.now) && all digit bytes.now) }
{
    !bytes.is_empty() && bytes.iter().all(|byte| matches!(byte, b'0'..=b'9'))
}

// 33: whether the bytes are the name of a loop's iterator: its beginning, a digit or more, its end.
fn is_iterator(bytes: &[u8]) -> bool
    ensures { result ≡ is_iterator bytes.now }
{
    let Some(rest) = bytes.strip_prefix(b"__for_iter_") else {
        return false;
    };
    let Some(digits) = rest.strip_suffix(b"__") else {
        return false;
    };
    are_digits(digits)
}

impl<'a> Checker<'a> {
    ghost use Rattle.tree_view.specs.Judge.{judge_name};
    ghost use Rattle.parts.specs.Judged.{Judged};

    // A name.
    pub fn name(&mut self) -> Result<(), Question>
        ensures { Judged result self.old self.new judge_name }
    {
        let n = self.byte()?;
        let name = self.take(n as usize)?;
        self.note(BlockQuestion::IteratorNames, !is_iterator(name));
        self.note(BlockQuestion::Names, is_name(name));
        Ok(())
    }
}
