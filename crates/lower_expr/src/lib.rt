// The lowering of an expression in one path: every answer is the next position in the tree, none where the module is over the limits.
// A position and the levels left there stay two numbers: each call gives both anew, so a struct of them would be made for each call; and what a clause asks
// of the tree (Lowerable and the like) is said of the place that a call names, so it belongs to no value that lives on.
#![tactic(auto)]

pub mod measuring; // measuring.rt: what measures a part

ghost use Rattle.std.specs.Prelude.{List, ◌≡◌, ◌+◌, ◌-◌, ◌≤◌, eqb, get_or, drop};
ghost use Rattle.definitions.specs.Bytes.{Name};
ghost use Rattle.definitions.specs.Instruction.{instr, Build, LoadAttr};
ghost use Rattle.definitions.specs.Tables.{one, ◌⨟◌, intern};
ghost use Rattle.definitions.specs.Lower.{emit_expr, shortcut};
ghost use Rattle.definitions.specs.Tree.{call, var};
ghost use Rattle.tree_view.specs.Places.{count_at, name_end, params_at};
ghost use Rattle.tree_view.specs.ExprAt.{expr_at, exprs_at, second_at, list_at, binary_of};
ghost use Rattle.exprs.specs.Literals.{LiteralAt};
ghost use Rattle.state.specs.Words.{name_at};
ghost use Rattle.state.specs.State.{SymbolIndex, slot_names, slots_from};
ghost use Rattle.lower_emit.specs.Ops.{Plain};
ghost use Rattle.lower_forms.specs.Lowerable.{expr_code, exprs_code, method_code, call_instr, lambda_code, closure_code, function_code, Short, CapturesHeld};
ghost use Rattle.lower_forms.specs.Lowerable.{SoleIn, Lowerable, LowerableMany, UnaryLowerable, TwoLowerable, BinaryLowerable, ArgsLowerable, CallLowerable, NamedLowerable};
ghost use Rattle.lower_forms.specs.Lowerable.{AttributeLowerable, MethodLowerable, DisplayLowerable, LambdaLowerable, ClosureLowerable};
ghost use Rattle.opcodes.specs.Codes.{unary_opcode, display_by_kind, held_of};
ghost use Rattle.lower_emit.specs.Emitting.{EmitsTo};
ghost use Rattle.lower_names.specs.Naming.{Resolves, callee_of};

use exprs::literals::literal_at;
use lower_emit::emitter::{Emitter, Entries, Names};
use lower_leaves::closures::{end_closure, end_lambda, start_lambda};
use lower_leaves::constants::put_constants;
use lower_leaves::literals::emit_literal;
use lower_names::{Callee, emit_load, emit_symbol, load_callee, put_call, resolve};
use measuring::expr_size;
use numerals::kinds::ExprKind;
use numerals::operators;
use numerals::ops::{CALL_METHOD, JUMP, LOAD_ATTR, LOAD_INDEX, LOGICAL, SHORT};
use numerals::places::SLOTS_FROM;
use numerals::sizes::SLOTS_ROOM;
use opcodes::{binary_code, build_code, held, unary_code};
use slots::captures::lambda_slots;
use slots::skip::skip_params;
use state::Scope;
use tree_view::names::name_end;
use tree_view::numbers::u16_at;

// The literal at `at`.
fn emit_literal_at(tree: &[u8], e: &mut Emitter<'_>, at: usize) -> Option<usize>
    requires { SoleIn tree.now e.old × LiteralAt tree.now at }
    ensures { (names : List Name) → EmitsTo result (expr_code 1 tree.now names at) (expr_at 1 tree.now at).end tree.now e.old e.new }
{
    let x = literal_at(tree, at);
    let tables = &mut e.tables;
    emit_literal(
        tree,
        &mut tables.strings,
        &mut tables.entries,
        &mut e.code,
        at,
        x,
    )
}

// The expression at `at`, with `depth` levels left.
#[cycle(emit)]
pub fn emit_expr(s: Scope<'_>, e: &mut Emitter<'_>, at: usize, depth: u32) -> Option<usize>
    requires { SoleIn s.tree.now e.old × Lowerable depth s.tree.now at }
    ensures { let t = s.entry.tree.now in let names = slot_names t s.entry.slots.now in
        EmitsTo result (expr_code depth t names at) (expr_at depth t at).end t e.old e.new }
{
    let byte = s.tree[at];
    let a = at + 1;
    let below = depth - 1;
    match ExprKind::of(byte) {
        ExprKind::NoneLiteral
        | ExprKind::False
        | ExprKind::True
        | ExprKind::Int
        | ExprKind::Float
        | ExprKind::Text => emit_literal_at(s.tree, e, at),
        ExprKind::Variable => {
            emit_load(s, e, a)?;
            Some(name_end(s.tree, a))
        }
        ExprKind::Unary => emit_unary(s, e, a, below),
        ExprKind::Binary => emit_binary(s, e, a, below),
        ExprKind::Call => emit_call(s, e, a, below),
        ExprKind::Attribute => emit_attribute(s, e, a, below),
        ExprKind::List | ExprKind::Dict | ExprKind::Tuple | ExprKind::Set | ExprKind::TreeSet =>
            emit_display(s, e, a, below, byte),
        ExprKind::Index => emit_two(s, e, a, below, LOAD_INDEX),
        ExprKind::Lambda => emit_lambda(s, e, a, below),
    }
}

// So many expressions, one after the other; runs of None, False and True by words alone, so no range goes over the places.
#[cycle(emit)]
fn emit_exprs(s: Scope<'_>, e: &mut Emitter<'_>, at: usize, depth: u32, n: u32) -> Option<usize>
    requires { SoleIn s.tree.now e.old × LowerableMany depth n s.tree.now at }
    ensures { let t = s.entry.tree.now in let names = slot_names t s.entry.slots.now in
        EmitsTo result (exprs_code depth n t names at) (exprs_at depth n t at).end t e.old e.new }
{
    let mut left = n;
    let mut p = at;
    while 0 < left {
        let c = put_constants(s.tree, &mut e.code, p, left);
        p += c as usize;
        left -= c;
        if left == 0 {
            return Some(p);
        }
        p = emit_expr(s, e, p, depth)?;
        left -= 1;
    }
    Some(p)
}

// An operator byte and its operand.
#[cycle(emit)]
fn emit_unary(s: Scope<'_>, e: &mut Emitter<'_>, at: usize, depth: u32) -> Option<usize>
    requires { SoleIn s.tree.now e.old × UnaryLowerable depth s.tree.now at }
    ensures { let t = s.entry.tree.now in let names = slot_names t s.entry.slots.now in
        EmitsTo result (expr_code depth t names (at + 1) ⨟ one (instr (unary_opcode (get_or t at 0)) 0 0)) (expr_at depth t (at + 1)).end t e.old e.new }
{
    let op = unary_code(s.tree[at]);
    let next = emit_expr(s, e, at + 1, depth)?;
    e.code.put_op(op, 0, 0)?;
    Some(next)
}

// Two expressions and the instruction after them.
#[cycle(emit)]
fn emit_two(s: Scope<'_>, e: &mut Emitter<'_>, at: usize, depth: u32, op: u32) -> Option<usize>
    requires { SoleIn s.tree.now e.old × TwoLowerable depth s.tree.now at × Plain op 0 0 }
    ensures { let t = s.entry.tree.now in let names = slot_names t s.entry.slots.now in
        EmitsTo result (expr_code depth t names at ⨟ expr_code depth t names (expr_at depth t at).end ⨟ one (instr op 0 0)) (second_at depth t at).end t e.old e.new }
{
    let middle = emit_expr(s, e, at, depth)?;
    let next = emit_expr(s, e, middle, depth)?;
    e.code.put_op(op, 0, 0)?;
    Some(next)
}

// An operator byte and its two operands. The last two operators, `and` and `or`, jump: an enum of operators would be made for this test alone.
#[cycle(emit)]
fn emit_binary(s: Scope<'_>, e: &mut Emitter<'_>, at: usize, depth: u32) -> Option<usize>
    requires { SoleIn s.tree.now e.old × BinaryLowerable depth s.tree.now at }
    ensures { let t = s.entry.tree.now in let names = slot_names t s.entry.slots.now in
        EmitsTo result (emit_expr names (binary_of (get_or t at 0) (expr_at depth t (at + 1)).value (second_at depth t (at + 1)).value))
        (second_at depth t (at + 1)).end t e.old e.new }
{
    let operator = s.tree[at];
    if operator < operators::AND {
        return emit_two(s, e, at + 1, depth, binary_code(operator));
    }
    emit_logical(s, e, at + 1, depth, LOGICAL + operator as u32)
}

// `and` (JumpIfFalse) or `or` (JumpIfTrue).
#[cycle(emit)]
fn emit_logical(s: Scope<'_>, e: &mut Emitter<'_>, at: usize, depth: u32, op: u32) -> Option<usize>
    requires { SoleIn s.tree.now e.old × TwoLowerable depth s.tree.now at × (29 ≤ op) × (op ≤ 30) }
    ensures { let t = s.entry.tree.now in let names = slot_names t s.entry.slots.now in
        EmitsTo result (expr_code depth t names at ⨟ shortcut (eqb op 30) (expr_code depth t names (expr_at depth t at).end)) (second_at depth t at).end t e.old e.new }
{
    let middle = emit_expr(s, e, at, depth)?;
    emit_shortcut(s, e, middle, depth, op)
}

// The right side of `and` or `or`: the short way goes over it to the constant.
#[cycle(emit)]
fn emit_shortcut(s: Scope<'_>, e: &mut Emitter<'_>, at: usize, depth: u32, op: u32) -> Option<usize>
    requires { SoleIn s.tree.now e.old × Lowerable depth s.tree.now at × (29 ≤ op) × (op ≤ 30) }
    ensures { let t = s.entry.tree.now in let names = slot_names t s.entry.slots.now in
        EmitsTo result (shortcut (eqb op 30) (expr_code depth t names at)) (expr_at depth t at).end t e.old e.new }
{
    let size = expr_size(s, e, at, depth);
    e.code.put_over(op, size)?;
    let next = emit_expr(s, e, at, depth)?;
    e.code.put_op(JUMP, 1, 0)?;
    e.code.put_op(SHORT - op, 0, 0)?;
    Some(next)
}

// A call: its callee and its arguments.
#[cycle(emit)]
fn emit_call(s: Scope<'_>, e: &mut Emitter<'_>, at: usize, depth: u32) -> Option<usize>
    requires { SoleIn s.tree.now e.old × CallLowerable depth s.tree.now at }
    ensures { let t = s.entry.tree.now in let names = slot_names t s.entry.slots.now in
        EmitsTo result (emit_expr names (call (expr_at depth t at).value (list_at depth t (expr_at depth t at).end).value))
        (list_at depth t (expr_at depth t at).end).end t e.old e.new }
{
    match ExprKind::of(s.tree[at]) {
        ExprKind::Variable => emit_named(s, e, at + 1, depth),
        ExprKind::Attribute => emit_method(s, e, at + 1, depth),
        _ => {
            let next = emit_expr(s, e, at, depth)?;
            emit_args(s, e, next, depth, Callee::Value)
        }
    }
}

// What a call of the name at `at` calls, where the slices are an emitter's: emit_named, in a cycle, can't lend them as shared ones itself.
fn callee_at(
    tree: &[u8],
    names: &Names<'_>,
    entries: &Entries<'_>,
    functions: u32,
    classes: u32,
    at: usize,
) -> Callee
    requires { SymbolIndex tree.now names.now.made.now entries.now.words.now names.now.symbols.count × (names.now.symbols.count ≤ 1024) × (functions ≤ 256) × (classes ≤ 64) }
    ensures { Resolves result (name_at tree.now at) tree.now names.now.made.now entries.now.words.now names.now.symbols.count functions classes }
{
    let symbols = names.symbols.count;
    resolve(
        tree,
        names.made,
        entries.words,
        symbols,
        functions,
        classes,
        at,
    )
}

// A call by name.
#[cycle(emit)]
fn emit_named(s: Scope<'_>, e: &mut Emitter<'_>, at: usize, depth: u32) -> Option<usize>
    requires { SoleIn s.tree.now e.old × NamedLowerable depth s.tree.now at }
    ensures { let t = s.entry.tree.now in let names = slot_names t s.entry.slots.now in
        EmitsTo result (emit_expr names (call (var (name_at t at)) (list_at depth t (name_end t at)).value)) (list_at depth t (name_end t at)).end t e.old e.new }
{
    let tables = &e.tables;
    let callee = callee_at(
        s.tree,
        &tables.names,
        &tables.entries,
        tables.functions.count,
        tables.classes.count,
        at,
    );
    load_callee(s, e, at, callee)?;
    emit_args(s, e, name_end(s.tree, at), depth, callee)
}

// A call of an attribute; the method's symbol comes after the arguments.
#[cycle(emit)]
fn emit_method(s: Scope<'_>, e: &mut Emitter<'_>, at: usize, depth: u32) -> Option<usize>
    requires { SoleIn s.tree.now e.old × MethodLowerable depth s.tree.now at }
    ensures { let t = s.entry.tree.now in let names = slot_names t s.entry.slots.now in
        EmitsTo result (method_code depth t names at) (list_at depth t (name_end t (expr_at (depth - 1) t at).end)).end t e.old e.new }
{
    let name = emit_expr(s, e, at, depth - 1)?;
    let start = name_end(s.tree, name);
    let n = u16_at(s.tree, start);
    let next = emit_exprs(s, e, start + 2, depth, n)?;
    emit_symbol(s.tree, e, name, CALL_METHOD, n)?;
    Some(next)
}

// The arguments and the instruction that calls.
#[cycle(emit)]
fn emit_args(
    s: Scope<'_>,
    e: &mut Emitter<'_>,
    at: usize,
    depth: u32,
    callee: Callee,
) -> Option<usize>
    requires { SoleIn s.tree.now e.old × ArgsLowerable depth s.tree.now at × Short (callee_of callee) }
    ensures { let t = s.entry.tree.now in let names = slot_names t s.entry.slots.now in
        EmitsTo result (exprs_code depth (count_at t at) t names (at + 2) ⨟ one (call_instr (callee_of callee) (count_at t at))) (list_at depth t at).end t e.old e.new }
{
    let n = u16_at(s.tree, at);
    let next = emit_exprs(s, e, at + 2, depth, n)?;
    put_call(&mut e.code, callee, n)?;
    Some(next)
}

// An object and the name of its attribute.
#[cycle(emit)]
fn emit_attribute(s: Scope<'_>, e: &mut Emitter<'_>, at: usize, depth: u32) -> Option<usize>
    requires { SoleIn s.tree.now e.old × AttributeLowerable depth s.tree.now at }
    ensures { let t = s.entry.tree.now in let names = slot_names t s.entry.slots.now in
        EmitsTo result (expr_code depth t names at ⨟ intern (name_at t (expr_at depth t at).end) (λ k. one (LoadAttr k)))
        (name_end t (expr_at depth t at).end) t e.old e.new }
{
    let name = emit_expr(s, e, at, depth)?;
    emit_symbol(s.tree, e, name, LOAD_ATTR, 0)?;
    Some(name_end(s.tree, name))
}

// A list, dict, tuple, set or tree set.
#[cycle(emit)]
fn emit_display(s: Scope<'_>, e: &mut Emitter<'_>, at: usize, depth: u32, kind: u8) -> Option<usize>
    requires { SoleIn s.tree.now e.old × DisplayLowerable kind depth s.tree.now at }
    ensures { let t = s.entry.tree.now in let names = slot_names t s.entry.slots.now in
        EmitsTo result (exprs_code depth (held_of kind (count_at t at)) t names (at + 2) ⨟ one (Build (display_by_kind kind) (count_at t at)))
        (exprs_at depth (held_of kind (count_at t at)) t (at + 2)).end t e.old e.new }
{
    let n = u16_at(s.tree, at);
    let next = emit_exprs(s, e, at + 2, depth, held(kind, n))?;
    e.code.put_op(build_code(kind), n, 0)?;
    Some(next)
}

// A lambda: its parameters and its body. Its slots are the parameters, then the captures.
#[cycle(emit)]
fn emit_lambda(s: Scope<'_>, e: &mut Emitter<'_>, at: usize, depth: u32) -> Option<usize>
    requires { SoleIn s.tree.now e.old × LambdaLowerable depth s.tree.now at }
    ensures { let t = s.entry.tree.now in let names = slot_names t s.entry.slots.now in
        EmitsTo result (lambda_code depth t names at) (expr_at depth t (params_at t at).end).end t e.old e.new }
{
    let mut places = [0u32; SLOTS_ROOM];
    let arity = u16_at(s.tree, at);
    let body = skip_params(s.tree, at);
    let n = lambda_slots(s.tree, at, body, depth, s.slots, &mut places)?;
    let inner = Scope {
        tree: s.tree,
        slots: &places[..SLOTS_FROM + n as usize],
    };
    emit_closure(s, inner, e, body, depth, arity)
}

// The function of a lambda with the slots `inner`, and its closure.
#[cycle(emit)]
fn emit_closure(
    s: Scope<'_>,
    inner: Scope<'_>,
    e: &mut Emitter<'_>,
    at: usize,
    depth: u32,
    arity: u32,
) -> Option<usize>
    requires { SoleIn s.tree.now e.old × (inner.tree.now ≡ s.tree.now) × ClosureLowerable depth s.tree.now arity (drop slots_from inner.slots.now) at
        × CapturesHeld s.tree.now (slot_names s.tree.now s.slots.now) arity (drop slots_from inner.slots.now) }
    ensures { let t = s.entry.tree.now in let names = slot_names t s.entry.slots.now in
        EmitsTo result (closure_code depth t names arity (drop slots_from inner.entry.slots.now) at) (expr_at depth t at).end t e.old e.new }
{
    let f = e.tables.functions.count;
    let next = emit_function(inner, e, at, depth, arity)?;
    end_closure(
        s,
        &mut e.code,
        &inner.slots[SLOTS_FROM + arity as usize..],
        f,
    )?;
    Some(next)
}

// The function of a lambda.
#[cycle(emit)]
fn emit_function(
    s: Scope<'_>,
    e: &mut Emitter<'_>,
    at: usize,
    depth: u32,
    arity: u32,
) -> Option<usize>
    requires { SoleIn s.tree.now e.old × ClosureLowerable depth s.tree.now arity (drop slots_from s.slots.now) at }
    ensures { let t = s.entry.tree.now in
        EmitsTo result (function_code depth t e.old.tables.functions.count arity (drop slots_from s.entry.slots.now) at) (expr_at depth t at).end t e.old e.new }
{
    let base = e.code.base;
    let locals = (s.slots.len() - SLOTS_FROM) as u32;
    let f = start_lambda(s.tree, e, arity, locals)?;
    let next = emit_expr(s, e, at, depth)?;
    end_lambda(&mut e.code, &mut e.tables.entries, f, base)?;
    Some(next)
}
