// Statements, by a checker: questions 5 to 13.
ghost use Rattle.tree_view.specs.Judge.{judge_expr, judge_assign, judge_attribute_list, judge_attributes, judge_attribute_value, judge_stmt, judge_block};
ghost use Rattle.tree_view.specs.Judge.{judge_branch, judge_branches, judge_if, judge_for, judge_def, judge_method, judge_methods, judge_class};
ghost use Rattle.parts.specs.Judged.{Judged};

use exprs::check_expr;
use numerals::kinds::{ExprKind, StmtKind};
use parts::asked::BlockQuestion;
use parts::checker::Checker;
use questions::Question;
use tree_view::roles::Role;

// Where a statement stands: how many levels are left, and whether a loop of the same function is around.
#[derive(Clone, Copy)]
pub(crate) struct Context {
    pub(crate) depth: u32,
    pub(crate) looped: bool,
}

// An assignment's target. A variable needs no call of check_expr: with one, a tree of assignments takes half as long again to check.
fn check_target(c: &mut Checker<'_>, depth: u32) -> Result<(), Question>
    ensures { Judged result c.old c.new (judge_expr Role.Target depth) }
{
    if depth != 0 {
        if c.skip_byte(ExprKind::Variable as u8) {
            return c.name();
        }
    }
    check_expr(c, depth, Role::Target)
}

// An assigned value, of a target or a class attribute. None, False and True, of one byte each, need no call of check_expr.
fn check_assigned(c: &mut Checker<'_>, depth: u32) -> Result<(), Question>
    ensures { Judged result c.old c.new (judge_expr Role.Value depth) }
{
    if depth != 0 {
        if c.skip_below(ExprKind::Int as u8, 1) == 1 {
            return Ok(());
        }
    }
    check_expr(c, depth, Role::Value)
}

// A target and a value.
fn check_assign(c: &mut Checker<'_>, depth: u32) -> Result<(), Question>
    ensures { Judged result c.old c.new (judge_assign depth) }
{
    check_target(c, depth)?;
    check_assigned(c, depth)
}

// A class attribute: a name and a value.
fn check_value(c: &mut Checker<'_>, depth: u32) -> Result<(), Question>
    ensures { Judged result c.old c.new (judge_attribute_value depth) }
{
    c.name()?;
    check_assigned(c, depth)
}

// n class attributes. `check_methods` has this shape: one walk for both would take a closure, and each closure its own clauses, in more lines.
fn check_values(c: &mut Checker<'_>, depth: u32, n: u32) -> Result<(), Question>
    ensures { Judged result c.old c.new (λ t p w. judge_attributes depth t n p w) }
{
    for _ in 0..n {
        check_value(c, depth)?;
    }
    Ok(())
}

// A count of class attributes, and these.
pub(crate) fn check_attributes(c: &mut Checker<'_>, depth: u32) -> Result<(), Question>
    ensures { Judged result c.old c.new (judge_attribute_list depth) }
{
    let n = c.number()?;
    check_values(c, depth, n)
}

// A statement. Inlined, since with a call for each statement a tree of `pass` takes twice as long to check.
#[inline(always)]
#[cycle(check)]
pub(crate) fn check_stmt(c: &mut Checker<'_>, context: Context) -> Result<(), Question>
    ensures { Judged result c.old c.new (judge_stmt context.looped context.depth) }
{
    let byte = c.byte()?;
    let Context { depth, looped } = context;
    if depth == 0 {
        return Err(Question::Depth);
    }
    let Ok(kind) = StmtKind::try_from(byte) else {
        return Err(Question::TreeLayout);
    };
    match kind {
        StmtKind::Break | StmtKind::Continue => {
            c.note(BlockQuestion::Loops, looped);
            Ok(())
        }
        StmtKind::Pass => Ok(()),
        StmtKind::Expr | StmtKind::Return => check_expr(c, depth - 1, Role::Value),
        StmtKind::Assign => check_assign(c, depth - 1),
        StmtKind::If => check_if(
            c,
            Context {
                depth: depth - 1,
                looped,
            },
        ),
        StmtKind::While => check_branch(
            c,
            Context {
                depth: depth - 1,
                looped: true,
            },
        ),
        StmtKind::For => check_for(c, depth - 1),
        StmtKind::Def => check_def(c, depth - 1),
        StmtKind::Class => check_class(c, depth - 1),
    }
}

// A block.
#[cycle(check)]
pub(crate) fn check_block(c: &mut Checker<'_>, context: Context) -> Result<(), Question>
    ensures { Judged result c.old c.new (judge_block context.looped context.depth) }
{
    let n = c.number()?;
    for _ in 0..n {
        check_stmt(c, context)?;
    }
    Ok(())
}

// A condition and a block.
#[cycle(check)]
fn check_branch(c: &mut Checker<'_>, context: Context) -> Result<(), Question>
    ensures { Judged result c.old c.new (judge_branch context.looped context.depth) }
{
    check_expr(c, context.depth, Role::Value)?;
    check_block(c, context)
}

// A first branch, a count of elifs, these, and an else block or none.
#[cycle(check)]
fn check_if(c: &mut Checker<'_>, context: Context) -> Result<(), Question>
    ensures { Judged result c.old c.new (judge_if context.looped context.depth) }
{
    check_branch(c, context)?;
    let n = c.number()?;
    check_elifs(c, context, n)
}

// n elifs, and an else block or none.
#[cycle(check)]
fn check_elifs(c: &mut Checker<'_>, context: Context, n: u32) -> Result<(), Question>
    ensures { Judged result c.old c.new (λ t p w. judge_branches context.looped context.depth t n p w) }
{
    for _ in 0..n {
        check_branch(c, context)?;
    }
    check_else(c, context)
}

// The byte 0; or 1, and an else block.
#[cycle(check)]
fn check_else(c: &mut Checker<'_>, context: Context) -> Result<(), Question>
    ensures { Judged result c.old c.new (λ t p w. judge_branches context.looped context.depth t 0 p w) }
{
    match c.byte()? {
        0 => Ok(()),
        1 => check_block(c, context),
        _ => Err(Question::TreeLayout),
    }
}

// A variable's name, an expression and a block. Two calls one after the other, as in `check_method`: nothing is left to share.
#[cycle(check)]
fn check_for(c: &mut Checker<'_>, depth: u32) -> Result<(), Question>
    ensures { Judged result c.old c.new (judge_for depth) }
{
    c.name()?;
    check_branch(
        c,
        Context {
            depth,
            looped: true,
        },
    )
}

// A name, parameters and a block.
#[cycle(check)]
fn check_def(c: &mut Checker<'_>, depth: u32) -> Result<(), Question>
    ensures { Judged result c.old c.new (judge_def depth) }
{
    c.name()?;
    c.params()?;
    check_block(
        c,
        Context {
            depth,
            looped: false,
        },
    )
}

// A method.
#[cycle(check)]
fn check_method(c: &mut Checker<'_>, depth: u32) -> Result<(), Question>
    ensures { Judged result c.old c.new (judge_method depth) }
{
    c.head()?;
    check_block(
        c,
        Context {
            depth,
            looped: false,
        },
    )
}

// n methods.
#[cycle(check)]
fn check_methods(c: &mut Checker<'_>, depth: u32, n: u32) -> Result<(), Question>
    ensures { Judged result c.old c.new (λ t p w. judge_methods depth t n p w) }
{
    for _ in 0..n {
        check_method(c, depth)?;
    }
    Ok(())
}

// A name, a count of methods, these, and the attributes.
#[cycle(check)]
fn check_class(c: &mut Checker<'_>, depth: u32) -> Result<(), Question>
    ensures { Judged result c.old c.new (judge_class depth) }
{
    c.name()?;
    let n = c.number()?;
    check_methods(c, depth, n)?;
    check_attributes(c, depth)
}
