// Literals: the emitter takes the literal that the tree's reader made.
ghost use Rattle.std.specs.Prelude.{◌≡◌, ◌≤◌, length};
ghost use Rattle.definitions.specs.Lower.{literal};
ghost use Rattle.definitions.specs.Tree.{lit};
ghost use Rattle.tree_view.specs.ExprAt.{expr_at};
ghost use Rattle.exprs.specs.Literals.{literal_of, LiteralAt, PlainLiteral, TextPlace};
ghost use Rattle.lower_names.specs.Naming.{Texts};
ghost use Rattle.lower_leaves.specs.Literals.{QuotesTo};

use crate::constants::constant_op;
use exprs::literals::{Literal, literal_bits};
use lower_emit::emitter::{Code, Entries, Used};
use lower_names::emit_string;
use numerals::ops::{CONST_F64, CONST_I64, SMALL_INT};

// The literal x whose kind byte is at `at`. An integer of 16 bits stands in its word; of any other and of a float the word keeps the place in the tree,
// where the module's writer makes the literal again.
pub fn emit_literal(
    tree: &[u8],
    strings: &mut Used<512>,
    entries: &mut Entries<'_>,
    code: &mut Code<'_>,
    at: usize,
    x: Literal,
) -> Option<usize>
    requires { Texts tree.now strings.old entries.old × (length tree.now ≤ 32768) × LiteralAt tree.now at
        × (lit (literal_of tree.now x) ≡ (expr_at 1 tree.now at).value) × PlainLiteral x × TextPlace tree.now at x }
    ensures { QuotesTo result (literal (literal_of tree.now x)) (expr_at 1 tree.now at).end tree.now strings.old strings.new entries.old entries.new code.old code.new }
{
    let place = at as u32 + 1;
    match x {
        Literal::None | Literal::Bool(_) => code.put_op(constant_op(x), 0, 0).map(|_| at + 1),
        Literal::Int(_) => match u16::try_from(literal_bits(x)) {
            Ok(small) => code.put_op(SMALL_INT, small as u32, 0).map(|_| at + 9),
            Err(_) => code.put_op(CONST_I64, place, 0).map(|_| at + 9),
        },
        Literal::Float(_) | Literal::Nan(_) => code.put_op(CONST_F64, place, 0).map(|_| at + 9),
        Literal::Text { start, len } => {
            emit_string(tree, strings, entries, code, start - 2)?;
            Some(start + len)
        }
    }
}
