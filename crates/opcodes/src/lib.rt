// The opcodes of operators and displays, by their bytes in the tree.
// Operators and kinds come as bytes: an enum would ask more of callers, who have them from a tree. An operator's byte is told here alone, by its name in
// numerals: an enum of operators would be made for one match, so it is no plainer.
#![tactic(auto)]

ghost use Rattle.std.specs.Prelude.{◌≡◌, ◌<◌, ◌≤◌};
ghost use Rattle.definitions.specs.Instruction.{operator_code, build_code};
ghost use Rattle.lower_emit.specs.Ops.{Plain};
ghost use Rattle.opcodes.specs.Codes.{unary_opcode, display_by_kind, held_of};

use numerals::kinds::ExprKind;
use numerals::operators;
use numerals::ops::{
    ARITHMETIC, BUILD_DICT, BUILD_LIST, BUILD_SET, BUILD_TREE_SET, BUILD_TUPLE, COMPARISON, DIV,
    NEG, NOT, POS, TRUE_DIV,
};

// Not, Neg, Pos.
pub fn unary_code(operator: u8) -> u32
    requires { operator < 3 }
    ensures { (result ≡ unary_opcode operator) × Plain result 0 0 }
{
    match operator {
        operators::NOT => NOT,
        operators::NEGATE => NEG,
        _ => POS,
    }
}

// Add to Ge, by sums; `/` is TrueDiv, `//` is Div.
pub fn binary_code(operator: u8) -> u32
    requires { operator < 12 }
    ensures { (result ≡ operator_code operator) × Plain result 0 0 }
{
    match operator {
        operators::DIVIDE => TRUE_DIV,
        operators::FLOOR_DIVIDE => DIV,
        _ if operator < operators::FIRST_COMPARISON => ARITHMETIC + operator as u32,
        _ => COMPARISON + operator as u32,
    }
}

// BuildList to BuildTreeSet.
pub fn build_code(kind: u8) -> u32
    requires { (11 ≤ kind) × (kind ≤ 15) }
    ensures { (result ≡ build_code (display_by_kind kind)) × (30 < result) × (result < 48) }
{
    match ExprKind::of(kind) {
        ExprKind::List => BUILD_LIST,
        ExprKind::Dict => BUILD_DICT,
        ExprKind::Tuple => BUILD_TUPLE,
        ExprKind::Set => BUILD_SET,
        _ => BUILD_TREE_SET,
    }
}

// How many expressions a display with the count n holds.
pub fn held(kind: u8, n: u32) -> u32
    requires { n < 65536 }
    ensures { result ≡ held_of kind n }
{
    if kind == ExprKind::Dict as u8 {
        2 * n
    } else {
        n
    }
}
