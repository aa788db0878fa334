// A refused tree cut down to the fewest consecutive top statements that are refused with the same number, the earliest of equals. What is written is a
// head, a count and a part of the tree; nothing else of it is copied.
#![tactic(auto)]

mod begin; // begin.rt: where the search for the shortest stretch begins
mod failing; // failing.rt: the first statement that fails a question
mod shortest; // shortest.rt: the shortest stretch that is over the limits
mod write; // write.rt: the tree of a stretch

ghost use Rattle.std.specs.Prelude.{◌≡◌, ◌≤◌, true, length};
ghost use Rattle.definitions.specs.Tree.{[]ᵇ};
ghost use Rattle.definitions.specs.Lower.{compile};
ghost use Rattle.definitions.specs.Module.{tables_fit};
ghost use Rattle.definitions.specs.Cut as Cut;
ghost use Rattle.state.specs.State.{limits_of, Limited};
ghost use Rattle.limits.specs.Sets.{limits_for};
ghost use Rattle.cut.specs.Answered.{CutsIn, CutsDown};

use areas::clear;
use compile::Stretch;
use failing::first_failing;
use limits::{Limits, limit_numbers};
use numerals::sizes::AREA;
use questions::Question;
use settle::accept;
use shortest::shortest;
use state::Limits as LimitNumbers;
use write::write_stretch;

// 38, then 2 to 6; a tree refused by another question is cut down. The areas keep what was worked out.
fn cut_in(
    tree: &[u8],
    code: &mut [u32],
    tables: &mut [u32],
    limits: LimitNumbers,
    out: &mut [u8],
) -> Result<Option<usize>, Question>
    requires { (16384 ≤ length code.old) × (16384 ≤ length tables.old) × Limited limits × (tables_fit (limits_of limits) (compile []ᵇ).tables ≡ true) }
    ensures { CutsIn result out.old out.new (Cut.cut_answer (limits_of limits) (length code.old) (length tables.old) (length out.old) tree.now) }
{
    if out.len() < tree.len() {
        return Err(Question::CutRoom);
    }
    let Err(question) = accept(tree, code, tables, limits) else {
        return Ok(None);
    };
    if question.number() <= Question::Depth.number() {
        return Err(question);
    }
    let stretch = match question {
        Question::Limits => shortest(tree, code, tables, limits),
        _ => Stretch {
            at: first_failing(tree, question),
            count: 1,
        },
    };
    Ok(Some(write_stretch(tree, stretch, out)))
}

// A refused tree cut down, within a set of limits: the count of its bytes, which are written once it is found; or none, where the tree is not refused.
// Both work areas are zero afterwards, but after refusal 1, which leaves them.
pub fn cut(
    tree: &[u8],
    limits: Limits,
    area1: &mut [u32],
    area2: &mut [u32],
    out: &mut [u8],
) -> Result<Option<usize>, Question>
    ensures { CutsDown result area1.new area2.new out.new (Cut.cut_call (limits_for limits) tree.now area1.old area2.old out.old) }
{
    if area1.len() < AREA || area2.len() < AREA {
        return Err(Question::WorkAreas);
    }
    let l = limit_numbers(limits);
    let r = cut_in(tree, area1, area2, l, out);
    clear(area1);
    clear(area2);
    r
}
