// Statements, branches and blocks. Each answers none where there is no room for the names that begin in it.
ghost use Rattle.std.specs.Prelude.{◌≡◌, ◌+◌};
ghost use Rattle.definitions.specs.Measured.{measure_expr, measure_for, measure_stmt, measure_block, measure_branches};
ghost use Rattle.definitions.specs.Measured.{add_function, add_class, after_stmt, after_block, after_branches, after_methods};
ghost use Rattle.tree_view.specs.Places.{name_end};
ghost use Rattle.tree_view.specs.ExprAt.{expr_at};
ghost use Rattle.tree_view.specs.StmtAt.{stmt_at, StmtReads, block_at, BlockReads, branches_at, BranchesRead, methods_at, MethodsRead};
ghost use Rattle.tree_view.specs.StmtAt.{BranchAt, body_at, IfAt, elifs_at, ForAt, DefAt, def_block_at, ClassAt, class_methods_at, class_at};
ghost use Rattle.state.specs.Words.{name_at};
ghost use Rattle.measure.specs.Known.{names_in};
ghost use Rattle.measure_stmts.specs.Heads.{heads_stmt, heads_block, heads_branches, heads_methods};
ghost use Rattle.measure_stmts.specs.Walked.{seen, PartMeasured};

use crate::begun::Begun;
use crate::notes::{knowing, note_class, note_function};
use crate::targets::measure_assign;
use measure::Measure;
use measure::measurer::Measurer;
use numerals::kinds::StmtKind;
use slots::skip::{skip_params, skip_stmt};
use tree_view::names::name_end;
use tree_view::numbers::u16_at;

// What a condition and a block have beside them: the question that passes the block, and the jump after it.
const BRANCH_MORE: u32 = 2;

// What a for has beside its branch: the iterator is made and stored; each round asks it in 2 and takes the next value in 3.
const FOR_MORE: u32 = 7;

// A class's object and its store.
const CLASS_SIZE: u32 = 2;

// The statement at `at`, with `depth` levels left.
#[cycle(measure_stmts)]
fn measure_stmt(m: Measurer<'_>, begun: &mut Begun, at: usize, depth: u32) -> Option<Measure>
    requires { StmtReads depth m.scope.tree.now at }
    ensures { let s = stmt_at depth m.entry.scope.tree.now at in
        PartMeasured result m.entry at s.end (measure_stmt (names_in m.entry) (seen m.entry begun.old) s.value) (heads_stmt s.value) (after_stmt s.value) begun.old begun.new }
{
    let a = at + 1;
    let below = depth - 1;
    match StmtKind::of(m.scope.tree[at]) {
        StmtKind::Break | StmtKind::Continue => Some(Measure { size: 1, next: a }),
        StmtKind::Pass => Some(Measure { size: 0, next: a }),
        StmtKind::Expr | StmtKind::Return => Some(knowing(m, begun).more(a, below, 1)),
        StmtKind::Assign => Some(measure_assign(knowing(m, begun), a, below)),
        StmtKind::If => measure_if(m, begun, a, below),
        StmtKind::While => measure_branch(m, begun, a, below),
        StmtKind::For => measure_for(m, begun, a, below),
        StmtKind::Def => measure_def(m, begun, a, below),
        StmtKind::Class => {
            let next = skip_stmt(m.scope.tree, at, depth);
            measure_class(m, begun, a, below, next)
        }
    }
}

// A count of statements, and these.
#[cycle(measure_stmts)]
pub fn measure_block(m: Measurer<'_>, begun: &mut Begun, at: usize, depth: u32) -> Option<Measure>
    requires { BlockReads depth m.scope.tree.now at }
    ensures { let b = block_at depth m.entry.scope.tree.now at in
        PartMeasured result m.entry (at + 2) b.end (measure_block (names_in m.entry) (seen m.entry begun.old) b.value) (heads_block b.value) (after_block b.value) begun.old begun.new }
{
    let count = u16_at(m.scope.tree, at);
    let mut next = at + 2;
    let mut size = 0u32;
    for _ in 0..count {
        let one = measure_stmt(m, begun, next, depth)?;
        size += one.size;
        next = one.next;
    }
    Some(Measure { size, next })
}

// A condition and a block, the question that passes the block and the jump after it: a branch of an if, or a while.
#[cycle(measure_stmts)]
pub fn measure_branch(m: Measurer<'_>, begun: &mut Begun, at: usize, depth: u32) -> Option<Measure>
    requires { BranchAt depth m.scope.tree.now at }
    ensures { let t = m.entry.scope.tree.now in let k = seen m.entry begun.old in let b = body_at depth t at in
        PartMeasured result m.entry at b.end (measure_expr (names_in m.entry) k (expr_at depth t at).value + (measure_block (names_in m.entry) k b.value + 2))
        (heads_block b.value) (after_block b.value) begun.old begun.new }
{
    let condition = knowing(m, begun).expr(at, depth);
    let block = measure_block(m, begun, condition.next, depth)?;
    Some(Measure {
        size: condition.size + (block.size + BRANCH_MORE),
        next: block.next,
    })
}

// A first branch, a count of elifs, these, and an else block or none.
#[cycle(measure_stmts)]
fn measure_if(m: Measurer<'_>, begun: &mut Begun, at: usize, depth: u32) -> Option<Measure>
    requires { IfAt depth m.scope.tree.now at }
    ensures { let t = m.entry.scope.tree.now in let k = seen m.entry begun.old in let names = names_in m.entry in
        let b = (body_at depth t at).value in let r = (elifs_at depth t at).value in
        PartMeasured result m.entry at (elifs_at depth t at).end
        (measure_expr names k (expr_at depth t at).value + (measure_block names k b + 2) + measure_branches names (after_block b k) r)
        (heads_block b + heads_branches r) (λ s. after_branches r (after_block b s)) begun.old begun.new }
{
    let first = measure_branch(m, begun, at, depth)?;
    let count = u16_at(m.scope.tree, first.next);
    let rest = measure_elifs(m, begun, first.next + 2, depth, count)?;
    Some(Measure {
        size: first.size + rest.size,
        next: rest.next,
    })
}

// So many elifs, and an else block or none.
#[cycle(measure_stmts)]
fn measure_elifs(
    m: Measurer<'_>,
    begun: &mut Begun,
    at: usize,
    depth: u32,
    count: u32,
) -> Option<Measure>
    requires { BranchesRead depth count m.scope.tree.now at }
    ensures { let r = branches_at depth count m.entry.scope.tree.now at in
        PartMeasured result m.entry at r.end (measure_branches (names_in m.entry) (seen m.entry begun.old) r.value) (heads_branches r.value) (after_branches r.value) begun.old begun.new }
{
    let mut next = at;
    let mut size = 0u32;
    for _ in 0..count {
        let one = measure_branch(m, begun, next, depth)?;
        size += one.size;
        next = one.next;
    }
    let last = measure_else(m, begun, next, depth)?;
    Some(Measure {
        size: size + last.size,
        next: last.next,
    })
}

// The byte 0; or 1, and an else block.
#[cycle(measure_stmts)]
fn measure_else(m: Measurer<'_>, begun: &mut Begun, at: usize, depth: u32) -> Option<Measure>
    requires { BranchesRead depth 0 m.scope.tree.now at }
    ensures { let r = branches_at depth 0 m.entry.scope.tree.now at in
        PartMeasured result m.entry at r.end (measure_branches (names_in m.entry) (seen m.entry begun.old) r.value) (heads_branches r.value) (after_branches r.value) begun.old begun.new }
{
    if m.scope.tree[at] == 0 {
        return Some(Measure {
            size: 0,
            next: at + 1,
        });
    }
    measure_block(m, begun, at + 1, depth)
}

// A loop variable, what it goes through, and a block.
#[cycle(measure_stmts)]
fn measure_for(m: Measurer<'_>, begun: &mut Begun, at: usize, depth: u32) -> Option<Measure>
    requires { ForAt depth m.scope.tree.now at }
    ensures { let t = m.entry.scope.tree.now in let k = seen m.entry begun.old in let start = name_end t at in let b = body_at depth t start in
        PartMeasured result m.entry at b.end (measure_for (measure_expr (names_in m.entry) k (expr_at depth t start).value) (measure_block (names_in m.entry) k b.value))
        (heads_block b.value) (after_block b.value) begun.old begun.new }
{
    let start = name_end(m.scope.tree, at);
    let branch = measure_branch(m, begun, start, depth)?;
    Some(Measure {
        size: branch.size + FOR_MORE,
        next: branch.next,
    })
}

// A name, parameters and a block: a def after its kind byte, or a method. Its code is a function of its own, so only the names in it count.
#[cycle(measure_stmts)]
fn measure_def(m: Measurer<'_>, begun: &mut Begun, at: usize, depth: u32) -> Option<Measure>
    requires { DefAt depth m.scope.tree.now at }
    ensures { let t = m.entry.scope.tree.now in let b = def_block_at depth t at in
        PartMeasured result m.entry at b.end 0 (1 + heads_block b.value) (λ s. after_block b.value (add_function (name_at t at) s)) begun.old begun.new }
{
    note_function(begun, at)?;
    let params = name_end(m.scope.tree, at);
    let block = skip_params(m.scope.tree, params);
    let body = measure_block(m, begun, block, depth)?;
    Some(Measure {
        size: 0,
        next: body.next,
    })
}

// So many methods.
#[cycle(measure_stmts)]
fn measure_methods(
    m: Measurer<'_>,
    begun: &mut Begun,
    at: usize,
    depth: u32,
    count: u32,
) -> Option<Measure>
    requires { MethodsRead depth count m.scope.tree.now at }
    ensures { let ms = methods_at depth count m.entry.scope.tree.now at in
        PartMeasured result m.entry at ms.end 0 (heads_methods ms.value) (after_methods ms.value) begun.old begun.new }
{
    let mut next = at;
    for _ in 0..count {
        let one = measure_def(m, begun, next, depth)?;
        next = one.next;
    }
    Some(Measure { size: 0, next })
}

// A class, which ends at `next`: its object and its store. Its methods are functions of their own, and its attributes are not lowered.
#[cycle(measure_stmts)]
fn measure_class(
    m: Measurer<'_>,
    begun: &mut Begun,
    at: usize,
    depth: u32,
    next: usize,
) -> Option<Measure>
    requires { ClassAt depth m.scope.tree.now at × (next ≡ (class_at depth m.scope.tree.now at).end) }
    ensures { let t = m.entry.scope.tree.now in let ms = (class_methods_at depth t at).value in
        PartMeasured result m.entry at (class_at depth t at).end 2 (1 + heads_methods ms) (λ s. after_methods ms (add_class (name_at t at) s)) begun.old begun.new }
{
    note_class(begun, at)?;
    let start = name_end(m.scope.tree, at);
    let count = u16_at(m.scope.tree, start);
    measure_methods(m, begun, start + 2, depth, count)?;
    Some(Measure {
        size: CLASS_SIZE,
        next,
    })
}
