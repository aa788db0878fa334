// Where the parts of an accepted tree end: only kinds, counts and lengths are read.
// The tree, a place and a depth stay parameters: each call names a place and a depth anew, and what is asked (ExprReads, TwoAt, ..) speaks of these, so a struct of the three is no plainer.
ghost use Rattle.std.specs.Prelude.{◌≡◌, ◌+◌, ◌*◌, ◌<◌, ℕ};
ghost use Rattle.tree_view.specs.Places.{name_end, There, TextAt, text_node_at, ParamsAt, params_at};
ghost use Rattle.tree_view.specs.ExprAt.{expr_at, exprs_at, ExprReads, ExprsRead, TwoAt, second_at, CallAt, ListAt, list_at, DictAt, pairs_at, AttributeAt, LambdaAt};
ghost use Rattle.tree_view.specs.StmtAt.{stmt_at, block_at, branches_at, attributes_at, body_at, elifs_at, def_block_at, class_methods_at};
ghost use Rattle.tree_view.specs.StmtAt.{StmtReads, BlockReads, BranchesRead, AttributesRead, BranchAt, IfAt, ForAt, DefAt, ClassAt};
ghost use Rattle.slots.specs.Steps.{Leads};

use numerals::kinds::{ExprKind, StmtKind};
use tree_view::names::name_end;
use tree_view::numbers::u16_at;

// Where so many parts from `at` on end, each of which `each` passes over.
fn skip_each<F: Fn(usize) -> usize>(at: usize, count: u32, each: F) -> usize
    requires { (n p : ℕ) → n < count → Leads (λ a b. F.post each a b) n at p → F.pre each p }
    ensures { Leads (λ a b. F.post each a b) count at result }
{
    let mut p = at;
    for _ in 0..count {
        p = each(p);
    }
    p
}

// Where the text at `at` ends: a count, and so many bytes.
fn text_end(tree: &[u8], at: usize) -> usize
    requires { TextAt tree.now at }
    ensures { result ≡ (text_node_at tree.now at).end }
{
    at + 2 + u16_at(tree, at) as usize
}

// Where the parameters at `at` end.
pub fn skip_params(tree: &[u8], at: usize) -> usize
    requires { ParamsAt tree.now at }
    ensures { result ≡ (params_at tree.now at).end }
{
    let count = u16_at(tree, at);
    skip_each(at + 2, count, |p| name_end(tree, p))
}

// Where the expression at `at` ends.
#[cycle(skip_exprs)]
pub fn skip_expr(tree: &[u8], at: usize, depth: u32) -> usize
    requires { ExprReads depth tree.now at }
    ensures { result ≡ (expr_at depth tree.now at).end }
{
    let a = at + 1;
    match ExprKind::of(tree[at]) {
        ExprKind::NoneLiteral | ExprKind::False | ExprKind::True => a,
        ExprKind::Int | ExprKind::Float => a + 8,
        ExprKind::Text => text_end(tree, a),
        ExprKind::Variable => name_end(tree, a),
        ExprKind::Unary => skip_expr(tree, a + 1, depth - 1),
        ExprKind::Binary => skip_two(tree, a + 1, depth - 1),
        ExprKind::Call => skip_call(tree, a, depth - 1),
        ExprKind::Attribute => skip_attribute(tree, a, depth - 1),
        ExprKind::List | ExprKind::Tuple | ExprKind::Set | ExprKind::TreeSet => skip_list(
            tree,
            a,
            depth - 1,
        ),
        ExprKind::Dict => skip_dict(tree, a, depth - 1),
        ExprKind::Index => skip_two(tree, a, depth - 1),
        ExprKind::Lambda => skip_lambda(tree, a, depth - 1),
    }
}

// Where the expression at `at` ends. Constants, numbers and variables need no call of skip_expr, which does not stand inline: names and assignments are
// passed over a fifth to a third faster so.
#[cycle(skip_exprs)]
pub(crate) fn skip_value(tree: &[u8], at: usize, depth: u32) -> usize
    requires { ExprReads depth tree.now at }
    ensures { result ≡ (expr_at depth tree.now at).end }
{
    match ExprKind::of(tree[at]) {
        ExprKind::NoneLiteral | ExprKind::False | ExprKind::True => at + 1,
        ExprKind::Int | ExprKind::Float => at + 9,
        ExprKind::Variable => name_end(tree, at + 1),
        _ => skip_expr(tree, at, depth),
    }
}

// Where the second of two expressions ends.
#[cycle(skip_exprs)]
fn skip_two(tree: &[u8], at: usize, depth: u32) -> usize
    requires { TwoAt depth tree.now at }
    ensures { result ≡ (second_at depth tree.now at).end }
{
    let p = skip_value(tree, at, depth);
    skip_value(tree, p, depth)
}

// Where the arguments after a callee end.
#[cycle(skip_exprs)]
fn skip_call(tree: &[u8], at: usize, depth: u32) -> usize
    requires { CallAt depth tree.now at }
    ensures { result ≡ (list_at depth tree.now (expr_at depth tree.now at).end).end }
{
    let p = skip_value(tree, at, depth);
    skip_list(tree, p, depth)
}

// Where the name after an object ends.
#[cycle(skip_exprs)]
fn skip_attribute(tree: &[u8], at: usize, depth: u32) -> usize
    requires { AttributeAt depth tree.now at }
    ensures { result ≡ name_end tree.now (expr_at depth tree.now at).end }
{
    let p = skip_value(tree, at, depth);
    name_end(tree, p)
}

// Where a count of expressions ends.
#[cycle(skip_exprs)]
fn skip_list(tree: &[u8], at: usize, depth: u32) -> usize
    requires { ListAt depth tree.now at }
    ensures { result ≡ (list_at depth tree.now at).end }
{
    let count = u16_at(tree, at);
    skip_many(tree, at + 2, depth, count)
}

// Where a count of keys and values ends.
#[cycle(skip_exprs)]
fn skip_dict(tree: &[u8], at: usize, depth: u32) -> usize
    requires { DictAt depth tree.now at }
    ensures { result ≡ (pairs_at depth tree.now at).end }
{
    let count = u16_at(tree, at);
    skip_many(tree, at + 2, depth, 2 * count)
}

// Where so many expressions end.
#[cycle(skip_exprs)]
fn skip_many(tree: &[u8], at: usize, depth: u32, count: u32) -> usize
    requires { ExprsRead depth count tree.now at }
    ensures { result ≡ (exprs_at depth count tree.now at).end }
{
    let each = |p: usize| -> usize
        requires { ExprReads depth tree.now p }
        ensures { result ≡ (expr_at depth tree.entry.now p).end }
    { skip_value(tree, p, depth) };
    skip_each(at, count, each)
}

// Where the body after parameters ends.
#[cycle(skip_exprs)]
fn skip_lambda(tree: &[u8], at: usize, depth: u32) -> usize
    requires { LambdaAt depth tree.now at }
    ensures { result ≡ (expr_at depth tree.now (params_at tree.now at).end).end }
{
    let p = skip_params(tree, at);
    skip_expr(tree, p, depth)
}

// Where the statement at `at` ends.
#[cycle(skip_stmts)]
pub fn skip_stmt(tree: &[u8], at: usize, depth: u32) -> usize
    requires { StmtReads depth tree.now at }
    ensures { result ≡ (stmt_at depth tree.now at).end }
{
    let a = at + 1;
    match StmtKind::of(tree[at]) {
        StmtKind::Break | StmtKind::Continue | StmtKind::Pass => a,
        StmtKind::Expr | StmtKind::Return => skip_expr(tree, a, depth - 1),
        StmtKind::Assign => skip_two(tree, a, depth - 1),
        StmtKind::If => skip_if(tree, a, depth - 1),
        StmtKind::While => skip_branch(tree, a, depth - 1),
        StmtKind::For => skip_for(tree, a, depth - 1),
        StmtKind::Def => skip_def(tree, a, depth - 1),
        StmtKind::Class => skip_class(tree, a, depth - 1),
    }
}

// Where the block at `at` ends.
#[cycle(skip_stmts)]
fn skip_block(tree: &[u8], at: usize, depth: u32) -> usize
    requires { BlockReads depth tree.now at }
    ensures { result ≡ (block_at depth tree.now at).end }
{
    let count = u16_at(tree, at);
    let each = |p: usize| -> usize
        requires { StmtReads depth tree.now p }
        ensures { result ≡ (stmt_at depth tree.entry.now p).end }
    { skip_stmt(tree, p, depth) };
    skip_each(at + 2, count, each)
}

// Where the block after a condition ends.
#[cycle(skip_stmts)]
fn skip_branch(tree: &[u8], at: usize, depth: u32) -> usize
    requires { BranchAt depth tree.now at }
    ensures { result ≡ (body_at depth tree.now at).end }
{
    let p = skip_expr(tree, at, depth);
    skip_block(tree, p, depth)
}

// Where a first branch, elifs and an else block or none end.
#[cycle(skip_stmts)]
fn skip_if(tree: &[u8], at: usize, depth: u32) -> usize
    requires { IfAt depth tree.now at }
    ensures { result ≡ (elifs_at depth tree.now at).end }
{
    let first = skip_branch(tree, at, depth);
    let count = u16_at(tree, first);
    let each = |p: usize| -> usize
        requires { BranchAt depth tree.now p }
        ensures { result ≡ (body_at depth tree.entry.now p).end }
    { skip_branch(tree, p, depth) };
    let elifs = skip_each(first + 2, count, each);
    skip_else(tree, elifs, depth)
}

// The byte 0; or 1, and an else block.
#[cycle(skip_stmts)]
fn skip_else(tree: &[u8], at: usize, depth: u32) -> usize
    requires { BranchesRead depth 0 tree.now at }
    ensures { result ≡ (branches_at depth 0 tree.now at).end }
{
    if tree[at] == 0 {
        return at + 1;
    }
    skip_block(tree, at + 1, depth)
}

// Where the block of a loop over an expression ends.
#[cycle(skip_stmts)]
fn skip_for(tree: &[u8], at: usize, depth: u32) -> usize
    requires { ForAt depth tree.now at }
    ensures { result ≡ (body_at depth tree.now (name_end tree.now at)).end }
{
    let p = name_end(tree, at);
    skip_branch(tree, p, depth)
}

// Where the block of a def or method ends.
#[cycle(skip_stmts)]
fn skip_def(tree: &[u8], at: usize, depth: u32) -> usize
    requires { DefAt depth tree.now at }
    ensures { result ≡ (def_block_at depth tree.now at).end }
{
    let params = name_end(tree, at);
    let p = skip_params(tree, params);
    skip_block(tree, p, depth)
}

// Where a count of attributes ends: a name and an expression each.
fn skip_attributes(tree: &[u8], at: usize, depth: u32) -> usize
    requires { AttributesRead depth tree.now at }
    ensures { result ≡ (attributes_at depth tree.now at).end }
{
    let count = u16_at(tree, at);
    let each = |p: usize| -> usize
        requires { There tree.now p × ExprReads depth tree.now (name_end tree.now p) }
        ensures { result ≡ (expr_at depth tree.entry.now (name_end tree.entry.now p)).end }
    { skip_expr(tree, name_end(tree, p), depth) };
    skip_each(at + 2, count, each)
}

// Where a class's methods and attributes end.
#[cycle(skip_stmts)]
fn skip_class(tree: &[u8], at: usize, depth: u32) -> usize
    requires { ClassAt depth tree.now at }
    ensures { result ≡ (attributes_at depth tree.now (class_methods_at depth tree.now at).end).end }
{
    let p = name_end(tree, at);
    let count = u16_at(tree, p);
    let each = |p: usize| -> usize
        requires { DefAt depth tree.now p }
        ensures { result ≡ (def_block_at depth tree.entry.now p).end }
    { skip_def(tree, p, depth) };
    let methods = skip_each(p + 2, count, each);
    skip_attributes(tree, methods, depth)
}
