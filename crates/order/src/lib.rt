// The order of two accepted trees: that of the bytes of their rests. Neither tree is copied or changed.
#![tactic(auto)]

ghost use Rattle.std.specs.Prelude.{◌≡◌, ◌≤◌, length};
ghost use Rattle.definitions.specs.Order as Order;
ghost use Rattle.tree_view.specs.StmtAt.{block_at, TreeAt};
ghost use Rattle.state.specs.State.{limits_of, Limited};
ghost use Rattle.limits.specs.Sets.{limits_for};
ghost use Rattle.order.specs.Ordered.{place, order_said, Sorts};

use areas::clear;
use instep::{Spot, Trees};
use limits::{Limits, limit_numbers};
use numerals::sizes::{AREA, DEPTH, HEAD};
use questions::Question;
use rests::rest_size;
use settle::accept;
use state::Limits as LimitNumbers;
use std::cmp::Ordering;

// The rests of two accepted trees: the counts of their bytes, which the headers hold, then the blocks in step.
fn compare(first: &[u8], second: &[u8]) -> Ordering
    requires { TreeAt first.now × TreeAt second.now }
    ensures { place result ≡ Order.order (block_at 32 first.now 5).value (block_at 32 second.now 5).value }
{
    let size = rest_size(first);
    let other = rest_size(second);
    if size < other {
        return Ordering::Less;
    }
    if other < size {
        return Ordering::Greater;
    }
    let start = Spot {
        first: HEAD,
        second: HEAD,
    };
    match (Trees { first, second }).block(start, DEPTH) {
        Ok(_) => Ordering::Equal,
        Err(apart) => apart,
    }
}

// Questions 2 to 15 of the first tree, then of the second; the areas keep what was worked out.
fn order_in(
    first: &[u8],
    second: &[u8],
    code: &mut [u32],
    tables: &mut [u32],
    limits: LimitNumbers,
) -> Result<Ordering, Question>
    requires { (16384 ≤ length code.old) × (16384 ≤ length tables.old) × Limited limits }
    ensures { order_said result ≡ Order.order_answer (limits_of limits) (length code.old) (length tables.old) first.now second.now }
{
    accept(first, code, tables, limits)?;
    accept(second, code, tables, limits)?;
    Ok(compare(first, second))
}

// The order of two trees that are accepted within a set of limits. Both work areas are zero afterwards, but after refusal 1, which leaves them.
pub fn order(
    first: &[u8],
    second: &[u8],
    limits: Limits,
    area1: &mut [u32],
    area2: &mut [u32],
) -> Result<Ordering, Question>
    ensures { Sorts result area1.new area2.new (Order.order_call (limits_for limits) first.now second.now area1.old area2.old) }
{
    if area1.len() < AREA || area2.len() < AREA {
        return Err(Question::WorkAreas);
    }
    let l = limit_numbers(limits);
    let r = order_in(first, second, area1, area2, l);
    clear(area1);
    clear(area2);
    r
}
