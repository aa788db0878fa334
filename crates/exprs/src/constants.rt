// Constants in a list of expressions: None, False and True, one byte each.
ghost use Rattle.exprs.specs.Constants.{Skipped};

use numerals::kinds::ExprKind;
use parts::checker::Checker;
use tree_view::roles::Role;

// Passes over the constants that come next of n expressions, where they may stand there; how many these are.
pub(crate) fn skip_constants(c: &mut Checker<'_>, depth: u32, role: Role, n: usize) -> usize
    ensures { Skipped role depth n result c.old c.new }
{
    match role {
        Role::Value if 0 < depth => c.skip_below(ExprKind::Int as u8, n),
        _ => 0,
    }
}
