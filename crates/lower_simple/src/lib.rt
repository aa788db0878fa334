// Parts of statements that hold no block: a value and the instruction that takes it, the iterator of a for loop, simple statements, the end of a function.
// A position and the levels left there stay two numbers: each call gives both anew, so a struct of them would be made for each call; and what a clause asks
// of the tree (Lowerable, StmtLowerable) is said of the place that a call names, so it belongs to no value that lives on.
#![tactic(auto)]

ghost use Rattle.std.specs.Prelude.{◌≡◌, List, ℕ, ◌+◌, ◌-◌, ◌<◌, get_or};
ghost use Rattle.definitions.specs.Bytes.{same};
ghost use Rattle.definitions.specs.Instruction.{instr};
ghost use Rattle.definitions.specs.Tables.{one, emits, ◌⨟◌};
ghost use Rattle.definitions.specs.Wellformed.{init};
ghost use Rattle.definitions.specs.Slots.{Keeping};
ghost use Rattle.definitions.specs.Lower.{make_iter};
ghost use Rattle.tree_view.specs.ExprAt.{expr_at};
ghost use Rattle.tree_view.specs.StmtAt.{stmt_at};
ghost use Rattle.state.specs.Words.{word, instr_of, name_at};
ghost use Rattle.state.specs.State.{slot_names};
ghost use Rattle.lower_forms.specs.Lowerable.{SoleIn, Lowerable, expr_code};
ghost use Rattle.lower_forms.specs.Lowering.{StmtLowerable, stmt_code, end_of};
ghost use Rattle.lower_emit.specs.Emitting.{EmitsTo, Writes};

use byte_tests::same_bytes;
use lower_emit::emitter::{Code, Emitter};
use lower_expr::emit_expr;
use lower_loops::make_iterator;
use lower_targets::emit_assign;
use names::spell::name_part;
use numerals::kinds::StmtKind;
use numerals::ops::{BREAK, CONTINUE, LOAD_LOCAL, POP, RETURN};
use state::Scope;

// An expression, and the instruction that takes its value: JumpIfFalse is the jump past what follows, which is not known yet.
pub fn emit_value(
    s: Scope<'_>,
    e: &mut Emitter<'_>,
    at: usize,
    depth: u32,
    op: u32,
) -> Option<usize>
    requires { SoleIn s.tree.now e.old × Lowerable depth s.tree.now at × (op < 256) × ((t : List ℕ) → instr_of t (word op 0 0) ≡ instr op 0 0) }
    ensures { let t = s.entry.tree.now in let names = slot_names t s.entry.slots.now in
        EmitsTo result (expr_code depth t names at ⨟ one (instr op 0 0)) (expr_at depth t at).end t e.old e.new }
{
    let next = emit_expr(s, e, at, depth)?;
    e.code.put_op(op, 0, 0)?;
    Some(next)
}

// What a for loop goes through, and its iterator.
pub fn emit_iterable(s: Scope<'_>, e: &mut Emitter<'_>, at: usize, depth: u32) -> Option<usize>
    requires { SoleIn s.tree.now e.old × Lowerable depth s.tree.now at }
    ensures { let t = s.entry.tree.now in let names = slot_names t s.entry.slots.now in
        EmitsTo result (expr_code depth t names at ⨟ make_iter) (expr_at depth t at).end t e.old e.new }
{
    let next = emit_expr(s, e, at, depth)?;
    make_iterator(s.tree, e)?;
    Some(next)
}

// A statement that holds no block: Break, Continue, Pass, Expr, Return or Assign. It has no loops, wherever these keep their iterators.
pub fn emit_simple(s: Scope<'_>, e: &mut Emitter<'_>, at: usize, depth: u32) -> Option<usize>
    requires { SoleIn s.tree.now e.old × StmtLowerable depth s.tree.now at × (get_or s.tree.now at 0 < 6) }
    ensures { let t = s.entry.tree.now in let names = slot_names t s.entry.slots.now in
        (keep : Keeping) → EmitsTo result (stmt_code depth t names keep at) (stmt_at depth t at).end t e.old e.new }
{
    let a = at + 1;
    let below = depth - 1;
    match StmtKind::of(s.tree[at]) {
        StmtKind::Break => {
            e.code.put_op(BREAK, 0, 0)?;
            Some(a)
        }
        StmtKind::Continue => {
            e.code.put_op(CONTINUE, 0, 0)?;
            Some(a)
        }
        StmtKind::Pass => Some(a),
        StmtKind::Expr => emit_value(s, e, a, below, POP),
        StmtKind::Return => emit_value(s, e, a, below, RETURN),
        _ => emit_assign(s, e, a, below),
    }
}

// The end of a function; that of `__init__` returns its object.
pub fn put_end(code: &mut Code<'_>, init: bool) -> Option<()>
    ensures { Writes result (emits (end_of init)) code.old code.new }
{
    if init {
        code.put_op(LOAD_LOCAL, 0, 0)?;
    }
    code.put_op(RETURN, 0, 0)
}

// Whether the name at `at` is `__init__`.
pub fn is_init(tree: &[u8], at: usize) -> bool
    ensures { result ≡ same (name_at tree.now at) init }
{
    same_bytes(name_part(tree, at), b"__init__")
}
