// Question 15: the shortest stretch whose tables are over the limits. A stretch that is over them stays so with more statements at its end, so from each start
// the shortest so far is tried with fewer statements, in steps that double, and then halfway: at most two and a half lowerings a statement, mostly one.
ghost use Rattle.std.specs.Prelude.{◌≡◌, ◌≤◌, ◌<◌, ◌+◌, ◌-◌, suc, not, true, length};
ghost use Rattle.definitions.specs.Lower.{compile};
ghost use Rattle.definitions.specs.Module.{slots_fit, tables_fit};
ghost use Rattle.tree_view.specs.Places.{count_at};
ghost use Rattle.state.specs.State.{limits_of, Limited};
ghost use Rattle.compile.specs.Compiled.{tree_block, StretchIn, stretch_block};
ghost use Rattle.cut.specs.Tops.{TopAt};
ghost use Rattle.cut.specs.Seeking.{Large, Best, Least};

use crate::begin::first_over;
use compile::{Stretch, compile_stretch};
use lower_emit::emitter::Emitter;
use numerals::sizes::{DEPTH, HEAD, MADE_ROOM};
use slots::skip::skip_stmt;
use state::Limits;
use tree_view::numbers::u16_at;

// Whether a stretch is over the limits.
pub(crate) fn over(
    tree: &[u8],
    stretch: Stretch,
    code: &mut [u32],
    tables: &mut [u32],
    limits: Limits,
) -> bool
    requires { (16384 ≤ length code.old) × (16384 ≤ length tables.old) × Limited limits × StretchIn tree.now stretch × (slots_fit (compile (stretch_block tree.now stretch)).tables ≡ true) }
    ensures { result ≡ not (tables_fit (limits_of limits) (compile (stretch_block tree.now stretch)).tables) }
{
    let mut made = [0u8; MADE_ROOM];
    let mut e = Emitter::new(code, &mut made, tables, limits);
    compile_stretch(tree, stretch, &mut e).is_none()
}

// How many statements to try, where few are not over the limits and many are. As long as none are known not to be, one fewer than most, then two, four and
// so on; then halfway.
fn next_count(few: u32, many: u32, most: u32, left: u32) -> u32
    requires { (few < left) × (few + 1 < many) × (many ≤ most) }
    ensures { (few < result) × (result < many) × (result ≤ left) }
{
    if 0 < few {
        return (few + (many - few) / 2).min(left);
    }
    let step = (most - many).max(1);
    many.saturating_sub(step).max(1).min(left)
}

// The shortest stretch so far, or a shorter one of the statements that are left.
fn shorten(
    tree: &[u8],
    left: Stretch,
    mut best: Stretch,
    code: &mut [u32],
    tables: &mut [u32],
    limits: Limits,
) -> Stretch
    requires { (16384 ≤ length code.old) × (16384 ≤ length tables.old) × Limited limits × Large (limits_of limits) tree.now
        × (left.count ≤ count_at tree.now 5) × TopAt tree.now (tree_block tree.now) (count_at tree.now 5 - left.count) left.at
        × Best (limits_of limits) tree.now (count_at tree.now 5 - left.count) best }
    ensures { Best (limits_of limits) tree.now (suc (count_at tree.now 5 - left.count)) result }
{
    let most = best.count;
    let mut few = 0;
    while few < left.count && few + 1 < best.count {
        let tried = Stretch {
            at: left.at,
            count: next_count(few, best.count, most, left.count),
        };
        if over(tree, tried, code, tables, limits) {
            best = tried;
        } else {
            few = tried.count;
        }
    }
    best
}

// The shortest stretch of a tree that is over the limits, the first of equals.
pub(crate) fn shortest(tree: &[u8], code: &mut [u32], tables: &mut [u32], limits: Limits) -> Stretch
    requires { (16384 ≤ length code.old) × (16384 ≤ length tables.old) × Limited limits × Large (limits_of limits) tree.now }
    ensures { Least (limits_of limits) tree.now result }
{
    let count = u16_at(tree, HEAD);
    let (first, mut best) = first_over(tree, code, tables, limits);
    let mut at = best.at;
    for i in first..count {
        let left = Stretch {
            at,
            count: count - i,
        };
        best = shorten(tree, left, best, code, tables, limits);
        at = skip_stmt(tree, at, DEPTH);
    }
    best
}
