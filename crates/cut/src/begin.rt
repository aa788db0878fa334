// Where the search for the shortest stretch begins: at the first stretch of a likely length that is over the limits, so that where few statements take long to
// lower they are not lowered from each start before them.
ghost use Rattle.std.specs.Prelude.{◌≡◌, ◌≤◌, ◌-◌, length};
ghost use Rattle.tree_view.specs.Places.{count_at};
ghost use Rattle.state.specs.State.{limits_of, Limited};
ghost use Rattle.cut.specs.Seeking.{Large, SeeksFrom, Tops};

use crate::shortest::over;
use crate::write::stretch_end;
use compile::Stretch;
use numerals::sizes::{DEPTH, HEAD, TOP};
use slots::skip::skip_stmt;
use state::Limits;
use tree_view::numbers::u16_at;

// A stretch without its first n statements.
fn without(tree: &[u8], stretch: Stretch, n: u32) -> Stretch
    requires { Tops tree.now stretch × (n ≤ stretch.count) }
    ensures { Tops tree.now result × (result.count ≡ stretch.count - n) }
{
    let first = Stretch {
        at: stretch.at,
        count: n,
    };
    Stretch {
        at: stretch_end(tree, first),
        count: stretch.count - n,
    }
}

// A stretch that is tried, if it is over the limits; else the last one that was.
fn fewer(
    tree: &[u8],
    last: Stretch,
    tried: Stretch,
    code: &mut [u32],
    tables: &mut [u32],
    limits: Limits,
) -> Stretch
    requires { (16384 ≤ length code.old) × (16384 ≤ length tables.old) × Limited limits × Large (limits_of limits) tree.now × Tops tree.now last × Tops tree.now tried }
    ensures { Tops tree.now result }
{
    if over(tree, tried, code, tables, limits) {
        return tried;
    }
    last
}

// How few statements are likely to be over the limits: of all, fewer and fewer at the end or at the start are left out. Whatever it is, the search is right.
fn likely_count(tree: &[u8], code: &mut [u32], tables: &mut [u32], limits: Limits) -> u32
    requires { (16384 ≤ length code.old) × (16384 ≤ length tables.old) × Limited limits × Large (limits_of limits) tree.now }
    ensures { result ≤ count_at tree.now 5 }
{
    let count = u16_at(tree, HEAD);
    let mut last = Stretch { at: TOP, count };
    let mut step = count / 2;
    while 0 < step {
        if step < last.count {
            let tried = Stretch {
                at: last.at,
                count: last.count - step,
            };
            last = fewer(tree, last, tried, code, tables, limits);
        }
        if step < last.count {
            let tried = without(tree, last, step);
            last = fewer(tree, last, tried, code, tables, limits);
        }
        step /= 2;
    }
    last.count
}

// The first stretch of a likely length that is over the limits, and its start; or all statements.
pub(crate) fn first_over(
    tree: &[u8],
    code: &mut [u32],
    tables: &mut [u32],
    limits: Limits,
) -> (u32, Stretch)
    requires { (16384 ≤ length code.old) × (16384 ≤ length tables.old) × Limited limits × Large (limits_of limits) tree.now }
    ensures { SeeksFrom (limits_of limits) tree.now result.0 result.1.at result.1 }
{
    let likely = likely_count(tree, code, tables, limits);
    let count = u16_at(tree, HEAD);
    let mut at = TOP;
    for i in 0..count {
        let tried = Stretch {
            at,
            count: likely.min(count - i),
        };
        if over(tree, tried, code, tables, limits) {
            return (i, tried);
        }
        at = skip_stmt(tree, at, DEPTH);
    }
    (0, Stretch { at: TOP, count })
}
