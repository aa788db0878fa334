// The lowering of statements and blocks in one path: a statement holds blocks and a block holds statements.
// `it` tells where loops keep their iterators: it is the slot of the next loop's, or IN_GLOBALS.
// A position and the levels left there stay two numbers: each call gives both anew, so a struct of them would be made for each call; and what a clause asks
// of the tree (StmtLowerable and the like) is said of the place that a call names, so it belongs to no value that lives on.
#![tactic(auto)]

ghost use Rattle.std.specs.Prelude.{[], ◌+◌, ◌-◌, ◌<◌, ◌≤◌, length};
ghost use Rattle.definitions.specs.Slots.{loops_stmt, loops_block, loops_branches};
ghost use Rattle.definitions.specs.Tables.{emits, ◌⨟◌};
ghost use Rattle.definitions.specs.Tree.{if, when, for};
ghost use Rattle.definitions.specs.Lower.{loop, ask_iter, take_iter, emit_stmt};
ghost use Rattle.tree_view.specs.Places.{There, name_end};
ghost use Rattle.tree_view.specs.ExprAt.{expr_at};
ghost use Rattle.tree_view.specs.StmtAt.{stmt_at, block_at, stmts_at, branches_at, body_at, elifs_at, def_block_at, class_methods_at};
ghost use Rattle.tree_view.specs.StmtAt as StmtAt;
ghost use Rattle.state.specs.Words.{name_at};
ghost use Rattle.state.specs.State.{emit_at, slot_names};
ghost use Rattle.state.specs.Steps.{branch, chain_at, emit_methods_at, methods_of};
ghost use Rattle.state.specs.Kept.{keeping_of, Spare, Passes};
ghost use Rattle.lower_forms.specs.Lowerable.{SoleIn, expr_code};
ghost use Rattle.lower_forms.specs.Lowering.{StmtLowerable, BlockLowerable, StmtsLowerable, BranchLowerable, BranchesLowerable, IfLowerable, ForLowerable};
ghost use Rattle.lower_forms.specs.Lowering.{FunctionLowerable, MethodsLowerable, ClassLowerable, stmt_code, block_code, stmts_code, function_code, end_of, class_code};
ghost use Rattle.lower_emit.specs.Emitting.{state_in, NextIs, EmitsTo, Reaches};
ghost use Rattle.lower_loops.specs.Iterators.{keeper_of, Loads};
ghost use Rattle.lower_blocks.specs.Blocks.{CompilesIn, ListsIn};

use lower_classes::{begin_class, finish_class, start_named};
use lower_emit::emitter::Emitter;
use lower_loops::{ask_iterator, store_iterator, take_iterator};
use lower_simple::{emit_iterable, emit_simple, emit_value, is_init, put_end};
use methods::insert_method;
use numerals::kinds::StmtKind;
use numerals::ops::{JUMP, JUMP_IF_FALSE};
use numerals::places::{METHODS_ROOM, SLOTS_FROM};
use numerals::sizes::SLOTS_ROOM;
use slots::collect::collect_locals;
use slots::skip::{skip_params, skip_stmt};
use state::Scope;
use tree_view::names::name_end;
use tree_view::numbers::u16_at;

// The statement at `at`, with `depth` levels left.
#[cycle(emit)]
fn emit_stmt(
    s: Scope<'_>,
    e: &mut Emitter<'_>,
    at: usize,
    depth: u32,
    it: &mut u32,
) -> Option<usize>
    requires { SoleIn s.tree.now e.old × StmtLowerable depth s.tree.now at × Spare it.old (loops_stmt (stmt_at depth s.tree.now at).value) }
    ensures { let t = s.entry.tree.now in let names = slot_names t s.entry.slots.now in
        EmitsTo result (stmt_code depth t names (keeping_of it.old) at) (stmt_at depth t at).end t e.old e.new
        × Passes result it.old it.new (loops_stmt (stmt_at depth t at).value) }
{
    match StmtKind::of(s.tree[at]) {
        StmtKind::If => emit_if(s, e, at + 1, depth - 1, it),
        StmtKind::While => emit_while(s, e, at + 1, depth - 1, it),
        StmtKind::For => emit_for(s, e, at + 1, depth - 1, it),
        StmtKind::Def => compile_function(s.tree, e, at + 1, depth - 1, false),
        StmtKind::Class => {
            emit_class(s.tree, e, at + 1, depth - 1)?;
            Some(skip_stmt(s.tree, at, depth))
        }
        StmtKind::Break
        | StmtKind::Continue
        | StmtKind::Pass
        | StmtKind::Expr
        | StmtKind::Return
        | StmtKind::Assign => emit_simple(s, e, at, depth),
    }
}

// So many statements.
#[cycle(emit)]
pub fn emit_stmts(
    s: Scope<'_>,
    e: &mut Emitter<'_>,
    at: usize,
    depth: u32,
    count: u32,
    it: &mut u32,
) -> Option<usize>
    requires { SoleIn s.tree.now e.old × StmtsLowerable depth count s.tree.now at × Spare it.old (loops_block (stmts_at depth count s.tree.now at).value) }
    ensures { let t = s.entry.tree.now in let names = slot_names t s.entry.slots.now in
        EmitsTo result (stmts_code depth count t names (keeping_of it.old) at) (stmts_at depth count t at).end t e.old e.new
        × Passes result it.old it.new (loops_block (stmts_at depth count t at).value) }
{
    let mut p = at;
    for _ in 0..count {
        p = emit_stmt(s, e, p, depth, it)?;
    }
    Some(p)
}

// The block at `at`.
#[cycle(emit)]
fn emit_block(
    s: Scope<'_>,
    e: &mut Emitter<'_>,
    at: usize,
    depth: u32,
    it: &mut u32,
) -> Option<usize>
    requires { SoleIn s.tree.now e.old × BlockLowerable depth s.tree.now at × Spare it.old (loops_block (block_at depth s.tree.now at).value) }
    ensures { let t = s.entry.tree.now in let names = slot_names t s.entry.slots.now in
        EmitsTo result (block_code depth t names (keeping_of it.old) at) (block_at depth t at).end t e.old e.new
        × Passes result it.old it.new (loops_block (block_at depth t at).value) }
{
    let count = u16_at(s.tree, at);
    emit_stmts(s, e, at + 2, depth, count, it)
}

// A condition and a block of an if; the jump to the next end is not known yet.
#[cycle(emit)]
fn emit_branch(
    s: Scope<'_>,
    e: &mut Emitter<'_>,
    at: usize,
    depth: u32,
    it: &mut u32,
) -> Option<usize>
    requires { SoleIn s.tree.now e.old × BranchLowerable depth s.tree.now at × Spare it.old (loops_block (body_at depth s.tree.now at).value) }
    ensures { let t = s.entry.tree.now in let names = slot_names t s.entry.slots.now in
        EmitsTo result (branch names (keeping_of it.old) (expr_at depth t at).value (body_at depth t at).value) (body_at depth t at).end t e.old e.new
        × Passes result it.old it.new (loops_block (body_at depth t at).value) }
{
    let block = emit_value(s, e, at, depth, JUMP_IF_FALSE)?;
    let from = e.code.open;
    let next = emit_block(s, e, block, depth, it)?;
    e.code.end_branch(from)?;
    Some(next)
}

// A first branch, a count of elifs, these, and an else block or none.
#[cycle(emit)]
fn emit_if(s: Scope<'_>, e: &mut Emitter<'_>, at: usize, depth: u32, it: &mut u32) -> Option<usize>
    requires { SoleIn s.tree.now e.old × IfLowerable depth s.tree.now at × Spare it.old (loops_block (body_at depth s.tree.now at).value + loops_branches (elifs_at depth s.tree.now at).value) }
    ensures { let t = s.entry.tree.now in let names = slot_names t s.entry.slots.now in
        EmitsTo result (emit_stmt names (keeping_of it.old) (if (when (expr_at depth t at).value (body_at depth t at).value (elifs_at depth t at).value)))
        (elifs_at depth t at).end t e.old e.new
        × Passes result it.old it.new (loops_block (body_at depth t at).value + loops_branches (elifs_at depth t at).value) }
{
    let p = emit_branch(s, e, at, depth, it)?;
    let n = u16_at(s.tree, p);
    emit_elifs(s, e, p + 2, depth, n, it)
}

// So many elifs, and an else block or none, after a branch: each end jump is set when the next one is there.
#[cycle(emit)]
fn emit_elifs(
    s: Scope<'_>,
    e: &mut Emitter<'_>,
    at: usize,
    depth: u32,
    n: u32,
    it: &mut u32,
) -> Option<usize>
    requires { SoleIn s.tree.now e.old × BranchesLowerable depth n s.tree.now at × (0 < e.old.code.open) × Spare it.old (loops_branches (branches_at depth n s.tree.now at).value) }
    ensures { let t = s.entry.tree.now in let names = slot_names t s.entry.slots.now in
        NextIs result (branches_at depth n t at).end
        × Reaches result t e.old e.new (chain_at e.old.code.base names (keeping_of it.old) (branches_at depth n t at).value (e.old.code.open - 1) (state_in t e.old))
        × Passes result it.old it.new (loops_branches (branches_at depth n t at).value) }
{
    let mut p = at;
    for _ in 0..n {
        let from = e.code.open;
        p = emit_branch(s, e, p, depth, it)?;
        let over = e.code.open - 1 - from;
        e.code.set_jump(from as usize - 1, JUMP, over);
    }
    emit_else(s, e, p, depth, it)
}

// The byte 0; or 1, and an else block: the last end jump is set.
#[cycle(emit)]
fn emit_else(
    s: Scope<'_>,
    e: &mut Emitter<'_>,
    at: usize,
    depth: u32,
    it: &mut u32,
) -> Option<usize>
    requires { SoleIn s.tree.now e.old × BranchesLowerable depth 0 s.tree.now at × (0 < e.old.code.open) × Spare it.old (loops_branches (branches_at depth 0 s.tree.now at).value) }
    ensures { let t = s.entry.tree.now in let names = slot_names t s.entry.slots.now in
        NextIs result (branches_at depth 0 t at).end
        × Reaches result t e.old e.new (chain_at e.old.code.base names (keeping_of it.old) (branches_at depth 0 t at).value (e.old.code.open - 1) (state_in t e.old))
        × Passes result it.old it.new (loops_branches (branches_at depth 0 t at).value) }
{
    let from = e.code.open;
    if s.tree[at] == 0 {
        e.code.set_jump(from as usize - 1, JUMP, 0);
        return Some(at + 1);
    }
    let next = emit_block(s, e, at + 1, depth, it)?;
    let over = e.code.open - from;
    e.code.set_jump(from as usize - 1, JUMP, over);
    Some(next)
}

// A condition and a block, as long as it holds.
#[cycle(emit)]
fn emit_while(
    s: Scope<'_>,
    e: &mut Emitter<'_>,
    at: usize,
    depth: u32,
    it: &mut u32,
) -> Option<usize>
    requires { SoleIn s.tree.now e.old × BranchLowerable depth s.tree.now at × Spare it.old (loops_block (body_at depth s.tree.now at).value) }
    ensures { let t = s.entry.tree.now in let names = slot_names t s.entry.slots.now in
        EmitsTo result (loop (expr_code depth t names at) (block_code depth t names (keeping_of it.old) (expr_at depth t at).end))
        (body_at depth t at).end t e.old e.new
        × Passes result it.old it.new (loops_block (body_at depth t at).value) }
{
    let start = e.code.open;
    let block = emit_value(s, e, at, depth, JUMP_IF_FALSE)?;
    let inside = e.code.open;
    let next = emit_block(s, e, block, depth, it)?;
    e.code.end_loop(start, inside)?;
    Some(next)
}

// A loop variable, what it goes through, and a block.
#[cycle(emit)]
fn emit_for(s: Scope<'_>, e: &mut Emitter<'_>, at: usize, depth: u32, it: &mut u32) -> Option<usize>
    requires { SoleIn s.tree.now e.old × ForLowerable depth s.tree.now at × Spare it.old (1 + loops_block (body_at depth s.tree.now (name_end s.tree.now at)).value) }
    ensures { let t = s.entry.tree.now in let names = slot_names t s.entry.slots.now in
        EmitsTo result (emit_stmt names (keeping_of it.old) (for (name_at t at) (expr_at depth t (name_end t at)).value (body_at depth t (name_end t at)).value))
        (body_at depth t (name_end t at)).end t e.old e.new
        × Passes result it.old it.new (1 + loops_block (body_at depth t (name_end t at)).value) }
{
    let start = name_end(s.tree, at);
    let block = emit_iterable(s, e, start, depth)?;
    let load = store_iterator(s.tree, e, it)?;
    emit_rounds(s, e, at, depth, block, load, it)
}

// The rounds of a for loop: its variable is at `at`, its block at `block`, and the word `load` loads its iterator.
#[cycle(emit)]
fn emit_rounds(
    s: Scope<'_>,
    e: &mut Emitter<'_>,
    at: usize,
    depth: u32,
    block: usize,
    load: u32,
    it: &mut u32,
) -> Option<usize>
    requires { SoleIn s.tree.now e.old × There s.tree.now at × BlockLowerable depth s.tree.now block × Loads load (keeper_of load) × Spare it.old (loops_block (block_at depth s.tree.now block).value) }
    ensures { let t = s.entry.tree.now in let names = slot_names t s.entry.slots.now in
        EmitsTo result (loop (ask_iter (keeper_of load)) (take_iter names (name_at t at) (keeper_of load) ⨟ block_code depth t names (keeping_of it.old) block))
        (block_at depth t block).end t e.old e.new
        × Passes result it.old it.new (loops_block (block_at depth t block).value) }
{
    let start = e.code.open;
    ask_iterator(s.tree, e, load)?;
    let inside = e.code.open;
    take_iterator(s, e, at, load)?;
    let next = emit_block(s, e, block, depth, it)?;
    e.code.end_loop(start, inside)?;
    Some(next)
}

// The block of a function, and its end; its loops keep their iterators in slots from `first` on.
#[cycle(emit)]
fn emit_body(
    s: Scope<'_>,
    e: &mut Emitter<'_>,
    at: usize,
    depth: u32,
    init: bool,
    first: u32,
) -> Option<usize>
    requires { SoleIn s.tree.now e.old × BlockLowerable depth s.tree.now at × Spare first (loops_block (block_at depth s.tree.now at).value) }
    ensures { let t = s.entry.tree.now in let names = slot_names t s.entry.slots.now in
        EmitsTo result (block_code depth t names (keeping_of first) at ⨟ emits (end_of init)) (block_at depth t at).end t e.old e.new }
{
    let mut it = first;
    let next = emit_block(s, e, at, depth, &mut it)?;
    put_end(&mut e.code, init)?;
    Some(next)
}

// The function whose name is at `at`, with its parameters and its block.
#[cycle(emit)]
fn compile_function(
    tree: &[u8],
    e: &mut Emitter<'_>,
    at: usize,
    depth: u32,
    init: bool,
) -> Option<usize>
    requires { SoleIn tree.now e.old × FunctionLowerable depth tree.now at }
    ensures { CompilesIn result (def_block_at depth tree.now at).end (emit_at e.old.code.base (function_code depth tree.now at init) (state_in tree.now e.old))
        tree.now e.old e.new }
{
    let mut slots = [0u32; SLOTS_ROOM];
    let params = name_end(tree, at);
    let arity = u16_at(tree, params);
    let block = skip_params(tree, params);
    let frame = collect_locals(tree, params, block, depth, &mut slots)?;
    let base = e.code.base;
    let f = start_named(tree, e, at, arity, frame.locals)?;
    let s = Scope {
        tree,
        slots: &slots[..SLOTS_FROM + frame.named as usize],
    };
    let next = emit_body(s, e, block, depth, init, frame.named)?;
    e.end_function(f, base);
    Some(next)
}

// n methods of a class, each a function; the list is of those so far, by rising names, in fixed memory (no heap) with their count beside it. None where
// there is no room.
#[cycle(emit)]
fn emit_methods(
    tree: &[u8],
    e: &mut Emitter<'_>,
    at: usize,
    depth: u32,
    n: u32,
    list: &mut [u32],
) -> Option<u32>
    requires { SoleIn tree.now e.old × MethodsLowerable depth n tree.now at × (256 ≤ length list.old) }
    ensures { ListsIn result (emit_methods_at (StmtAt.methods_at depth n tree.now at).value [] (state_in tree.now e.old))
        (methods_of (StmtAt.methods_at depth n tree.now at).value [] (state_in tree.now e.old)) tree.now list.new e.old e.new }
{
    let mut p = at;
    let mut count = 0u32;
    for _ in 0..n {
        let number = e.tables.functions.count;
        let next = compile_function(tree, e, p, depth, is_init(tree, p))?;
        count = insert_method(tree, list, count, p as u32 * 256 + number);
        p = next;
    }
    Some(count)
}

// The class whose name is at `at`: its number, its methods, its object. Its attributes are not lowered.
#[cycle(emit)]
fn emit_class(tree: &[u8], e: &mut Emitter<'_>, at: usize, depth: u32) -> Option<()>
    requires { SoleIn tree.now e.old × ClassLowerable depth tree.now at }
    ensures { Reaches result tree.now e.old e.new (emit_at e.old.code.base (class_code (name_at tree.now at) (class_methods_at depth tree.now at).value) (state_in tree.now e.old)) }
{
    let mut list = [0u32; METHODS_ROOM];
    let tables = &mut e.tables;
    let i = begin_class(&mut tables.classes, &mut tables.entries, at)?;
    let start = name_end(tree, at);
    let n = u16_at(tree, start);
    let count = emit_methods(tree, e, start + 2, depth, n, &mut list)?;
    finish_class(tree, e, at, i, &list[..count as usize])
}
