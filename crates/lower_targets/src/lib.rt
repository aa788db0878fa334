// Assignments by the form of the target, in the path of the emission: none where the module is over the limits.
// A position and the levels left there stay two numbers: each call gives both anew, so a struct of them would be made for each call; and what a clause asks
// of the tree (ExprReads, AssignLowerable) is said of the place that a call names, so it belongs to no value that lives on.
#![tactic(auto)]

ghost use Rattle.std.specs.Prelude.{◌≡◌, ◌+◌, ◌-◌, ◌<◌, ◌≤◌, MatchOption};
ghost use Rattle.definitions.specs.Instruction.{StoreAttr, StoreIndex};
ghost use Rattle.definitions.specs.Tables.{one, ◌⨟◌, intern};
ghost use Rattle.definitions.specs.Lower.{store, emit_target, unpack};
ghost use Rattle.numerals.specs.Kinds.{expr_byte};
ghost use Rattle.tree_view.specs.Places.{count_at, name_end};
ghost use Rattle.tree_view.specs.ExprAt.{expr_at, second_at, ExprReads};
ghost use Rattle.state.specs.Words.{name_at};
ghost use Rattle.state.specs.State.{slot_names};
ghost use Rattle.lower_forms.specs.Lowerable.{SoleIn, expr_code};
ghost use Rattle.lower_forms.specs.Elements.{ElementsRead, elements_at};
ghost use Rattle.lower_forms.specs.Assigned.{AssignLowerable, assign_code, VariableAssigned, AttributeAssigned, IndexAssigned, TupleAssigned};
ghost use Rattle.lower_emit.specs.Emitting.{LowersIn, EmitsTo};

use lower_emit::emitter::Emitter;
use lower_expr::emit_expr;
use lower_leaves::elements::{put_element, skip_exprs};
use lower_names::{emit_store, emit_symbol};
use numerals::kinds::ExprKind;
use numerals::ops::{FALSE, NONE, STORE_ATTR, STORE_INDEX, TRUE};
use slots::skip::skip_expr;
use state::Scope;
use tree_view::names::name_end;
use tree_view::numbers::u16_at;

// The value on the stack is stored in the target at `at`, an element of a tuple target. What question 10 refuses stores nothing.
#[cycle(emit)]
fn emit_assign_target(s: Scope<'_>, e: &mut Emitter<'_>, at: usize, depth: u32) -> Option<()>
    requires { SoleIn s.tree.now e.old × ExprReads depth s.tree.now at }
    ensures { let t = s.entry.tree.now in let names = slot_names t s.entry.slots.now in
        LowersIn result (emit_target names (expr_at depth t at).value) t e.old e.new }
{
    match ExprKind::of(s.tree[at]) {
        ExprKind::Variable => emit_store(s, e, at + 1),
        ExprKind::Tuple => emit_elements(s, e, at + 3, depth - 1, u16_at(s.tree, at + 1), 0),
        _ => Some(()),
    }
}

// n elements, from place i of the value on, go to the targets from `at` on: the later half first.
#[cycle(emit)]
fn emit_elements(
    s: Scope<'_>,
    e: &mut Emitter<'_>,
    at: usize,
    depth: u32,
    n: u32,
    i: u32,
) -> Option<()>
    requires { SoleIn s.tree.now e.old × ElementsRead depth s.tree.now n at × (i + n ≤ 65536) }
    ensures { let t = s.entry.tree.now in let names = slot_names t s.entry.slots.now in
        LowersIn result (unpack names (elements_at depth t n at) i) t e.old e.new }
{
    if n == 0 {
        return Some(());
    }
    if n == 1 {
        put_element(&mut e.code, i)?;
        return emit_assign_target(s, e, at, depth);
    }
    let half = n / 2;
    let middle = skip_exprs(s.tree, at, depth, half);
    emit_elements(s, e, middle, depth, n - half, i + half)?;
    emit_elements(s, e, at, depth, half, i)
}

// The opcode of None, False or True; none of another kind.
#[tactic(auto, unfolding(numerals::specs::Kinds::expr_byte))]
fn constant_op(kind: ExprKind) -> Option<u32>
    ensures { MatchOption result (2 < expr_byte kind) (λ op. (expr_byte kind < 3) × (op ≡ 5 - expr_byte kind)) }
{
    match kind {
        ExprKind::NoneLiteral => Some(NONE),
        ExprKind::False => Some(FALSE),
        ExprKind::True => Some(TRUE),
        _ => None,
    }
}

// To the variable whose name is at `at`; None, False or True by a word alone.
fn assign_variable(s: Scope<'_>, e: &mut Emitter<'_>, at: usize, depth: u32) -> Option<usize>
    requires { SoleIn s.tree.now e.old × VariableAssigned depth s.tree.now at }
    ensures { let t = s.entry.tree.now in let names = slot_names t s.entry.slots.now in
        EmitsTo result (expr_code depth t names (name_end t at) ⨟ store names (name_at t at)) (expr_at depth t (name_end t at)).end t e.old e.new }
{
    let start = name_end(s.tree, at);
    if let Some(op) = constant_op(ExprKind::of(s.tree[start])) {
        e.code.put_op(op, 0, 0)?;
        emit_store(s, e, at)?;
        return Some(start + 1);
    }
    let next = emit_expr(s, e, start, depth)?;
    emit_store(s, e, at)?;
    Some(next)
}

// To the attribute whose object is at `at`, a level deeper.
fn assign_attribute(s: Scope<'_>, e: &mut Emitter<'_>, at: usize, depth: u32) -> Option<usize>
    requires { SoleIn s.tree.now e.old × AttributeAssigned depth s.tree.now at }
    ensures { let t = s.entry.tree.now in let names = slot_names t s.entry.slots.now in
        EmitsTo result (expr_code (depth - 1) t names at ⨟ expr_code depth t names (name_end t (expr_at (depth - 1) t at).end) ⨟ intern (name_at t (expr_at (depth - 1) t at).end) (λ k. one (StoreAttr k)))
        (expr_at depth t (name_end t (expr_at (depth - 1) t at).end)).end t e.old e.new }
{
    let name = emit_expr(s, e, at, depth - 1)?;
    let start = name_end(s.tree, name);
    let next = emit_expr(s, e, start, depth)?;
    emit_symbol(s.tree, e, name, STORE_ATTR, 0)?;
    Some(next)
}

// To the index whose object is at `at`, a level deeper.
fn assign_index(s: Scope<'_>, e: &mut Emitter<'_>, at: usize, depth: u32) -> Option<usize>
    requires { SoleIn s.tree.now e.old × IndexAssigned depth s.tree.now at }
    ensures { let t = s.entry.tree.now in let names = slot_names t s.entry.slots.now in
        EmitsTo result (expr_code (depth - 1) t names at ⨟ expr_code (depth - 1) t names (expr_at (depth - 1) t at).end ⨟ expr_code depth t names (second_at (depth - 1) t at).end ⨟ one StoreIndex)
        (expr_at depth t (second_at (depth - 1) t at).end).end t e.old e.new }
{
    let middle = emit_expr(s, e, at, depth - 1)?;
    let start = emit_expr(s, e, middle, depth - 1)?;
    let next = emit_expr(s, e, start, depth)?;
    e.code.put_op(STORE_INDEX, 0, 0)?;
    Some(next)
}

// To the tuple at `at`.
fn assign_tuple(s: Scope<'_>, e: &mut Emitter<'_>, at: usize, depth: u32) -> Option<usize>
    requires { SoleIn s.tree.now e.old × TupleAssigned depth s.tree.now at }
    ensures { let t = s.entry.tree.now in let names = slot_names t s.entry.slots.now in
        EmitsTo result (expr_code depth t names (expr_at depth t at).end ⨟ unpack names (elements_at (depth - 1) t (count_at t (at + 1)) (at + 3)) 0)
        (second_at depth t at).end t e.old e.new }
{
    let n = u16_at(s.tree, at + 1);
    let start = skip_expr(s.tree, at, depth);
    let next = emit_expr(s, e, start, depth)?;
    emit_elements(s, e, at + 3, depth - 1, n, 0)?;
    Some(next)
}

// The target at `at` and the value after it. What question 10 refuses emits nothing.
pub fn emit_assign(s: Scope<'_>, e: &mut Emitter<'_>, at: usize, depth: u32) -> Option<usize>
    requires { SoleIn s.tree.now e.old × AssignLowerable depth s.tree.now at }
    ensures { let t = s.entry.tree.now in let names = slot_names t s.entry.slots.now in
        EmitsTo result (assign_code depth t names at) (second_at depth t at).end t e.old e.new }
{
    match ExprKind::of(s.tree[at]) {
        ExprKind::Variable => assign_variable(s, e, at + 1, depth),
        ExprKind::Attribute => assign_attribute(s, e, at + 1, depth),
        ExprKind::Tuple => assign_tuple(s, e, at, depth),
        ExprKind::Index => assign_index(s, e, at + 1, depth),
        _ => Some(skip_expr(s.tree, skip_expr(s.tree, at, depth), depth)),
    }
}
