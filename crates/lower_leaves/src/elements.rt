// Elements of tuple targets: where they end, and an element of the value on the stack.
ghost use Rattle.std.specs.Prelude.{◌≡◌, ◌<◌};
ghost use Rattle.definitions.specs.Instruction.{ConstI64, LoadIndex};
ghost use Rattle.definitions.specs.Tables.{one, ◌⨟◌};
ghost use Rattle.definitions.specs.Lower.{copy};
ghost use Rattle.lower_forms.specs.Elements.{ElementsRead, elements_end};
ghost use Rattle.lower_emit.specs.Emitting.{Writes};

use lower_emit::emitter::Code;
use numerals::ops::{DUP, LOAD_INDEX, SMALL_INT};
use slots::skip::skip_expr;

// Where n expressions from `at` on end.
pub fn skip_exprs(tree: &[u8], at: usize, depth: u32, n: u32) -> usize
    requires { ElementsRead depth tree.now n at }
    ensures { result ≡ elements_end depth tree.now n at }
{
    let mut p = at;
    for _ in 0..n {
        p = skip_expr(tree, p, depth);
    }
    p
}

// The number i, and the element there of the value below it.
fn put_index(code: &mut Code<'_>, i: u32) -> Option<()>
    requires { i < 65536 }
    ensures { Writes result (one (ConstI64 i) ⨟ one LoadIndex) code.old code.new }
{
    code.put_op(SMALL_INT, i, 0)?;
    code.put_op(LOAD_INDEX, 0, 0)
}

// The element i of the value on the stack, which is copied but for the last element taken.
pub fn put_element(code: &mut Code<'_>, i: u32) -> Option<()>
    requires { i < 65536 }
    ensures { Writes result (copy i ⨟ one (ConstI64 i) ⨟ one LoadIndex) code.old code.new }
{
    if i == 0 {
        return put_index(code, i);
    }
    code.put_op(DUP, 0, 0)?;
    put_index(code, i)
}
