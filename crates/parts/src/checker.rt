// A place in a tree that is checked, and the first of a block's questions that is answered no.
ghost use Rattle.std.specs.Prelude.{◌≤◌, length};

use crate::asked::{BlockQuestion, QUESTIONS};
use crate::operators::operator_at;
use questions::Question;
use tree_view::numbers::u16_at;
use tree_view::roles::Role;

// Where in a tree the checking stands, and the first question that is answered no.
#[derive(Drop)]
pub struct Checker<'a> {
    pub(crate) tree: &'a [u8],
    pub(crate) at: usize,
    first: Option<BlockQuestion>,
    ghost inside: { at ≤ length tree.now },
}

impl<'a> Checker<'a> {
    ghost use Rattle.std.specs.Prelude.{◌≡◌, take, drop, MatchResult, IfOk};
    ghost use Rattle.definitions.specs.Bytes.{field};
    ghost use Rattle.parts.specs.Asked.{stand};
    ghost use Rattle.tree_view.specs.Judge.{judged, unasked, judge_operator, suited, filled};
    ghost use Rattle.parts.specs.Judged.{Starts, ReadsByte, Judged, ReadsCount, CheckerWent, CheckerShort, SkipsByte, SkipsBelow, StandChanged, answered, Rules, SettlesAtEnd};

    // From a place on, with no question answered no.
    #[tactic(auto, unfolding(crate::specs::Asked::stand))]
    pub fn new(tree: &'a [u8], at: usize) -> Checker<'a>
        requires { at ≤ length tree.now }
        ensures { Starts tree.now at result }
    {
        Checker {
            tree,
            at,
            first: None,
        }
    }

    // The next n bytes.
    pub(crate) fn take(&mut self, n: usize) -> Result<&'a [u8], Question>
        ensures { MatchResult result (λ part. CheckerWent n self.old self.new × (part.now ≡ take n (drop self.old.at self.old.tree.now))) (λ q. CheckerShort n self.old self.new q) }
    {
        let tree = self.tree;
        let at = self.at;
        if tree.len() - at < n {
            return Err(Question::TreeLayout);
        }
        self.at = at + n;
        Ok(&tree[at..at + n])
    }

    // The next byte.
    #[tactic(auto, unfolding(crate::specs::Judged::ReadsByte))]
    pub fn byte(&mut self) -> Result<u8, Question>
        ensures { ReadsByte result self.old self.new }
    {
        if self.tree.len() <= self.at {
            return Err(Question::TreeLayout);
        }
        let byte = self.tree[self.at];
        self.at += 1;
        Ok(byte)
    }

    // Passes over the next byte, if it is this one; whether it is.
    #[tactic(auto, unfolding(crate::specs::Judged::SkipsByte, crate::specs::Judged::ReadsByte))]
    pub fn skip_byte(&mut self, byte: u8) -> bool
        ensures { SkipsByte byte result self.old self.new }
    {
        if self.tree.len() <= self.at {
            return false;
        }
        if self.tree[self.at] != byte {
            return false;
        }
        self.at += 1;
        true
    }

    // A count of two bytes.
    pub fn number(&mut self) -> Result<u32, Question>
        ensures { ReadsCount result self.old self.new }
    {
        let at = self.at;
        self.take(2)?;
        Ok(u16_at(self.tree, at))
    }

    // Eight bytes, of which nothing is asked.
    pub fn skip_eight(&mut self) -> Result<(), Question>
        ensures { Judged result self.old self.new (judged unasked (field 8)) }
    {
        self.take(8)?;
        Ok(())
    }

    // An operator below `limit`.
    pub fn operator(&mut self, limit: u8) -> Result<(), Question>
        ensures { Judged result self.old self.new (judge_operator limit) }
    {
        if !operator_at(self.tree, self.at, limit) {
            return Err(Question::TreeLayout);
        }
        self.at += 1;
        Ok(())
    }

    // Passes over the bytes below `limit` that come next, at most `most`; how many these are.
    pub fn skip_below(&mut self, limit: u8, most: usize) -> usize
        ensures { SkipsBelow limit most result self.old self.new }
    {
        let rest = &self.tree[self.at..];
        let few = &rest[..most.min(rest.len())];
        let n = few
            .iter()
            .position(|byte| limit <= *byte)
            .unwrap_or(few.len());
        self.at += n;
        n
    }

    // How many of a block's questions stand.
    #[tactic(auto, unfolding(crate::specs::Asked::stand))]
    fn stand(&self) -> u32
        ensures { result ≡ stand self.now.first }
    {
        match self.first {
            None => QUESTIONS,
            Some(question) => question.place(),
        }
    }

    // Notes the answer to a question of a block.
    pub fn note(&mut self, question: BlockQuestion, ok: bool)
        ensures { StandChanged self.old self.new (answered question ok) }
    {
        if !ok && question.place() < self.stand() {
            self.first = Some(question);
        }
    }

    // 10: notes whether an expression of this kind may stand in this role.
    pub fn suits(&mut self, role: Role, kind: u8)
        ensures { StandChanged self.old self.new (suited role kind) }
    {
        self.note(BlockQuestion::Targets, role.fits(kind));
    }

    // 36: notes whether a tuple of n elements may stand in this role.
    pub fn fills(&mut self, role: Role, n: u32)
        ensures { StandChanged self.old self.new (filled role n) }
    {
        self.note(BlockQuestion::EmptyTargets, role.holds(n));
    }

    // The first of a block's questions that is answered no, of all that has been read.
    pub fn verdict(&self) -> Result<(), Question>
        ensures { Rules result self.now }
    {
        match self.first {
            None => Ok(()),
            Some(question) => Err(question.question()),
        }
    }

    // What is answered of a block that has been read: whether something is over, and the first question answered no.
    pub fn settle(&self) -> Result<(), Question>
        ensures { SettlesAtEnd result self.now }
    {
        if self.at < self.tree.len() {
            return Err(Question::TreeLayout);
        }
        self.verdict()
    }
}
