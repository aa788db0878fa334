// Targets and assignments: what a value takes to be stored.
ghost use Rattle.std.specs.Prelude.{◌+◌, ◌≤◌, length};
ghost use Rattle.definitions.specs.Tree.{view};
ghost use Rattle.definitions.specs.Measured.{measure_expr, measure_target, measure_unpack, measure_assign};
ghost use Rattle.tree_view.specs.ExprAt.{expr_at, ExprReads, TwoAt, second_at, ListAt, list_at};
ghost use Rattle.measure.specs.Known.{known, names_in};
ghost use Rattle.measure.specs.Sized.{Sized};

use measure::Measure;
use measure::measurer::Measurer;
use numerals::kinds::ExprKind;
use slots::skip::skip_expr;
use tree_view::names::name_end;
use tree_view::numbers::u16_at;

// An element of a tuple target: a store, or the elements of a tuple.
#[cycle(measure_targets)]
fn measure_target(tree: &[u8], at: usize, depth: u32) -> Measure
    requires { (length tree.now ≤ 32768) × ExprReads depth tree.now at }
    ensures { Sized result (at + 1) (expr_at depth tree.now at).end 0 (measure_target (expr_at depth tree.now at).value) }
{
    match ExprKind::of(tree[at]) {
        ExprKind::Variable => {
            let next = name_end(tree, at + 1);
            Measure { size: 1, next }
        }
        ExprKind::Tuple => measure_elements(tree, at + 1, depth - 1),
        _ => {
            let next = skip_expr(tree, at, depth);
            Measure { size: 0, next }
        }
    }
}

// A count of elements, each with its index, its load and its store; all but the first with a copy of the value.
#[cycle(measure_targets)]
fn measure_elements(tree: &[u8], at: usize, depth: u32) -> Measure
    requires { (length tree.now ≤ 32768) × ListAt depth tree.now at }
    ensures { Sized result at (list_at depth tree.now at).end 0 (measure_unpack (list_at depth tree.now at).value 0) }
{
    let count = u16_at(tree, at);
    let mut next = at + 2;
    let mut size = 0u32;
    let mut copy = 0u32;
    for _ in 0..count {
        let one = measure_target(tree, next, depth);
        size += one.size + copy + 2;
        copy = 1;
        next = one.next;
    }
    Measure { size, next }
}

// A target and a value: what the target asks for before the value, the value, and the store.
pub(crate) fn measure_assign(m: Measurer<'_>, at: usize, depth: u32) -> Measure
    requires { TwoAt depth m.scope.tree.now at }
    ensures { let t = m.entry.scope.tree.now in let names = names_in m.entry in let k = known m.entry in
        Sized result at (second_at depth t at).end 1 (measure_assign (view (expr_at depth t at).value) names k (measure_expr names k (second_at depth t at).value)) }
{
    let tree = m.scope.tree;
    match ExprKind::of(tree[at]) {
        ExprKind::Variable => m.more(name_end(tree, at + 1), depth, 1),
        ExprKind::Attribute => {
            let object = m.expr(at + 1, depth - 1);
            let value = name_end(tree, object.next);
            m.more(value, depth, object.size + 1)
        }
        ExprKind::Tuple => {
            let all = measure_elements(tree, at + 1, depth - 1);
            m.more(all.next, depth, all.size)
        }
        ExprKind::Index => {
            let object = m.expr(at + 1, depth - 1);
            let index = m.more(object.next, depth - 1, object.size + 1);
            m.more(index.next, depth, index.size)
        }
        // no other target is accepted
        _ => {
            let value = skip_expr(tree, at, depth);
            let next = skip_expr(tree, value, depth);
            Measure { size: 0, next }
        }
    }
}
