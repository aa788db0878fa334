// The literals of a tree.
ghost use Rattle.std.specs.Prelude.{◌≡◌, List, ℕ, ◌+◌, ◌≤◌, ◌<◌, length, MatchOption};
ghost use Rattle.definitions.specs.Tree.{int_l, float_l, lit};
ghost use Rattle.numerals.specs.Kinds.{expr_byte};
ghost use Rattle.tree_view.specs.Places.{eight_at};
ghost use Rattle.tree_view.specs.ExprAt.{expr_at};
ghost use Rattle.exprs.specs.Literals.{literal_of, kind_byte, PlainLiteral, TextPlace, bits_of, LiteralAt, LiteralStands};

use numerals::kinds::ExprKind;
use tree_view::numbers::u16_at;

// The bit of a float's sign, and the bits of infinity: a NaN's are above these, but for the sign.
const SIGN: u64 = 0x8000_0000_0000_0000;

const INFINITY: u64 = 0x7ff0_0000_0000_0000;

// A literal of the tree. The string is its place in the tree's bytes; a NaN is its bits, for no f64 keeps them all.
#[derive(Clone, Copy)]
pub enum Literal {
    None,
    Bool(bool),
    Int(i64),
    Float(f64),
    Nan(u64),
    Text { start: usize, len: usize },
}

// The big-endian number of eight bytes at `at`.
fn eight_at(tree: &[u8], at: usize) -> u64
    requires { at + 8 ≤ length tree.now }
    ensures { result ≡ eight_at tree.now at }
{
    let mut bytes = [0; 8];
    bytes.copy_from_slice(&tree[at..at + 8]);
    u64::from_be_bytes(bytes)
}

// The integer whose two's complement is `bits`.
pub fn int_literal(bits: u64) -> Literal
    ensures { (t : List ℕ) → LiteralStands t result (int_l bits) }
{
    Literal::Int(bits.cast_signed())
}

// The float of these bits.
pub fn float_literal(bits: u64) -> Literal
    ensures { (t : List ℕ) → LiteralStands t result (float_l bits) }
{
    if INFINITY < bits % SIGN {
        Literal::Nan(bits)
    } else {
        Literal::Float(f64::from_bits(bits))
    }
}

// The literal of a kind that is one byte, so None, False or True; none of another kind.
#[tactic(auto, unfolding(numerals::specs::Kinds::expr_byte, crate::specs::Literals::kind_byte))]
pub fn constant_of(kind: ExprKind) -> Option<Literal>
    ensures { MatchOption result (2 < expr_byte kind) (λ x. (expr_byte kind < 3) × (kind_byte x ≡ expr_byte kind)) }
{
    match kind {
        ExprKind::NoneLiteral => Some(Literal::None),
        ExprKind::False => Some(Literal::Bool(false)),
        ExprKind::True => Some(Literal::Bool(true)),
        _ => None,
    }
}

// The literal whose kind byte is at `at`.
pub fn literal_at(tree: &[u8], at: usize) -> Literal
    requires { LiteralAt tree.now at }
    ensures { (lit (literal_of tree.now result) ≡ (expr_at 1 tree.now at).value) × PlainLiteral result × TextPlace tree.now at result }
{
    let kind = ExprKind::of(tree[at]);
    if let Some(x) = constant_of(kind) {
        return x;
    }
    match kind {
        ExprKind::Int => int_literal(eight_at(tree, at + 1)),
        ExprKind::Float => float_literal(eight_at(tree, at + 1)),
        _ => Literal::Text {
            start: at + 3,
            len: u16_at(tree, at + 1) as usize,
        },
    }
}

// The bits of an integer or a float; 0 for the others.
pub fn literal_bits(literal: Literal) -> u64
    requires { PlainLiteral literal }
    ensures { result ≡ bits_of literal }
{
    match literal {
        Literal::None | Literal::Bool(_) | Literal::Text { .. } => 0,
        Literal::Int(z) => z.cast_unsigned(),
        Literal::Float(x) => f64::to_bits(x),
        Literal::Nan(bits) => bits,
    }
}
