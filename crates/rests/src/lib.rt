// The rest of a tree: how many bytes are taken out, and how many are left. Positions and levels stay two numbers, as in the other walks over the tree.
#![tactic(auto)]

ghost use Rattle.std.specs.Prelude.{◌≡◌, ◌+◌, true, length, get_or};
ghost use Rattle.std.proofs.Math.Pow.{are_bytes};
ghost use Rattle.definitions.specs.TreeBytes.{tree_bytes};
ghost use Rattle.definitions.specs.Rests.{rest, taken_stmt, taken, taken_branches, taken_methods};
ghost use Rattle.tree_view.specs.Places.{name_end};
ghost use Rattle.tree_view.specs.StmtAt.{stmt_at, block_at, branches_at, methods_at, StmtReads, BlockReads, BranchesRead, MethodsRead, BranchAt, body_at, IfAt, elifs_at, ForAt, DefAt, def_block_at, TreeAt};
ghost use Rattle.rests.specs.Taking.{Takes};

use numerals::kinds::StmtKind;
use numerals::sizes::{DEPTH, HEAD};
use slots::skip::{skip_expr, skip_params, skip_stmt};
use tree_view::names::name_end;
use tree_view::numbers::u16_at;

// Where a part of the tree ends, and how many of its bytes are taken out.
#[derive(Clone, Copy)]
pub struct Taken {
    pub next: usize,
    pub bytes: usize,
}

// A statement: a Pass whole; of a class the attributes; of blocks what is taken out of their statements.
#[cycle(taken)]
fn taken_stmt(tree: &[u8], at: usize, depth: u32) -> Taken
    requires { (are_bytes tree.now ≡ true) × StmtReads depth tree.now at }
    ensures { Takes result at (stmt_at depth tree.now at).end (taken_stmt (stmt_at depth tree.now at).value) }
{
    let a = at + 1;
    match StmtKind::of(tree[at]) {
        StmtKind::Pass => Taken { next: a, bytes: 1 },
        StmtKind::Break
        | StmtKind::Continue
        | StmtKind::Expr
        | StmtKind::Return
        | StmtKind::Assign => Taken {
            next: skip_stmt(tree, at, depth),
            bytes: 0,
        },
        StmtKind::If => taken_if(tree, a, depth - 1),
        StmtKind::While => taken_branch(tree, a, depth - 1),
        StmtKind::For => taken_for(tree, a, depth - 1),
        StmtKind::Def => taken_def(tree, a, depth - 1),
        StmtKind::Class => taken_class(tree, at, depth),
    }
}

// A block.
#[cycle(taken)]
fn taken_block(tree: &[u8], at: usize, depth: u32) -> Taken
    requires { (are_bytes tree.now ≡ true) × BlockReads depth tree.now at }
    ensures { Takes result at (block_at depth tree.now at).end (taken (block_at depth tree.now at).value) }
{
    let count = u16_at(tree, at);
    let mut p = at + 2;
    let mut sum = 0usize;
    for _ in 0..count {
        let one = taken_stmt(tree, p, depth);
        sum += one.bytes;
        p = one.next;
    }
    Taken {
        next: p,
        bytes: sum,
    }
}

// A condition and a block.
#[cycle(taken)]
fn taken_branch(tree: &[u8], at: usize, depth: u32) -> Taken
    requires { (are_bytes tree.now ≡ true) × BranchAt depth tree.now at }
    ensures { Takes result at (body_at depth tree.now at).end (taken (body_at depth tree.now at).value) }
{
    let p = skip_expr(tree, at, depth);
    taken_block(tree, p, depth)
}

// A first branch, a count of elifs, these, and an else block or none.
#[cycle(taken)]
fn taken_if(tree: &[u8], at: usize, depth: u32) -> Taken
    requires { (are_bytes tree.now ≡ true) × IfAt depth tree.now at }
    ensures { Takes result at (elifs_at depth tree.now at).end (taken (body_at depth tree.now at).value + taken_branches (elifs_at depth tree.now at).value) }
{
    let first = taken_branch(tree, at, depth);
    let count = u16_at(tree, first.next);
    let others = taken_elifs(tree, first.next + 2, depth, count);
    Taken {
        next: others.next,
        bytes: first.bytes + others.bytes,
    }
}

// So many elifs, and an else block or none.
#[cycle(taken)]
fn taken_elifs(tree: &[u8], at: usize, depth: u32, count: u32) -> Taken
    requires { (are_bytes tree.now ≡ true) × BranchesRead depth count tree.now at }
    ensures { Takes result at (branches_at depth count tree.now at).end (taken_branches (branches_at depth count tree.now at).value) }
{
    let mut p = at;
    let mut sum = 0usize;
    for _ in 0..count {
        let one = taken_branch(tree, p, depth);
        sum += one.bytes;
        p = one.next;
    }
    let last = taken_else(tree, p, depth);
    Taken {
        next: last.next,
        bytes: sum + last.bytes,
    }
}

// The byte 0; or 1, and an else block.
#[cycle(taken)]
fn taken_else(tree: &[u8], at: usize, depth: u32) -> Taken
    requires { (are_bytes tree.now ≡ true) × BranchesRead depth 0 tree.now at }
    ensures { Takes result at (branches_at depth 0 tree.now at).end (taken_branches (branches_at depth 0 tree.now at).value) }
{
    if tree[at] == 0 {
        return Taken {
            next: at + 1,
            bytes: 0,
        };
    }
    taken_block(tree, at + 1, depth)
}

// A loop variable, an expression and a block.
#[cycle(taken)]
fn taken_for(tree: &[u8], at: usize, depth: u32) -> Taken
    requires { (are_bytes tree.now ≡ true) × ForAt depth tree.now at }
    ensures { Takes result at (body_at depth tree.now (name_end tree.now at)).end (taken (body_at depth tree.now (name_end tree.now at)).value) }
{
    let p = name_end(tree, at);
    taken_branch(tree, p, depth)
}

// A name, parameters and a block: a def after its kind byte, a method.
#[cycle(taken)]
fn taken_def(tree: &[u8], at: usize, depth: u32) -> Taken
    requires { (are_bytes tree.now ≡ true) × DefAt depth tree.now at }
    ensures { Takes result at (def_block_at depth tree.now at).end (taken (def_block_at depth tree.now at).value) }
{
    let params = name_end(tree, at);
    let p = skip_params(tree, params);
    taken_block(tree, p, depth)
}

// So many methods.
#[cycle(taken)]
fn taken_methods(tree: &[u8], at: usize, depth: u32, count: u32) -> Taken
    requires { (are_bytes tree.now ≡ true) × MethodsRead depth count tree.now at }
    ensures { Takes result at (methods_at depth count tree.now at).end (taken_methods (methods_at depth count tree.now at).value) }
{
    let mut p = at;
    let mut sum = 0usize;
    for _ in 0..count {
        let one = taken_def(tree, p, depth);
        sum += one.bytes;
        p = one.next;
    }
    Taken {
        next: p,
        bytes: sum,
    }
}

// A class with its kind byte at `at`: what is taken out of its methods, and its attributes, whose count stays.
#[cycle(taken)]
fn taken_class(tree: &[u8], at: usize, depth: u32) -> Taken
    requires { (are_bytes tree.now ≡ true) × StmtReads depth tree.now at × (get_or tree.now at 0 ≡ 10) }
    ensures { Takes result at (stmt_at depth tree.now at).end (taken_stmt (stmt_at depth tree.now at).value) }
{
    let p = name_end(tree, at + 1);
    let count = u16_at(tree, p);
    let methods = taken_methods(tree, p + 2, depth - 1, count);
    let next = skip_stmt(tree, at, depth);
    Taken {
        next,
        bytes: methods.bytes + (next - methods.next - 2),
    }
}

// How many bytes the rest of an accepted tree has.
pub fn rest_size(tree: &[u8]) -> usize
    requires { TreeAt tree.now }
    ensures { result ≡ length (tree_bytes (rest (block_at 32 tree.now 5).value)) }
{
    let all = taken_block(tree, HEAD, DEPTH);
    tree.len() - all.bytes
}
