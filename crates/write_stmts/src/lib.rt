// Statements and blocks written in one pass, each jump final: before a part over which a jump goes is written, it is measured. A statement holds blocks and
// a block holds statements; a break and a continue know where their loop starts and ends.
// `it` tells where loops keep their iterators: it is the slot of the next loop's, or IN_GLOBALS.
#![tactic(auto)]

pub mod loops; // loops.rt: the innermost loop, and jumps to its start and its end
pub mod sizes; // sizes.rt: how many instructions a part will have

ghost use Rattle.std.specs.Prelude.{[], ◌+◌, ◌-◌, ◌≤◌, length};
ghost use Rattle.definitions.specs.Slots.{loops_stmt, loops_block, loops_branches};
ghost use Rattle.definitions.specs.Tables.{emits, ◌⨟◌};
ghost use Rattle.definitions.specs.Tree.{when};
ghost use Rattle.definitions.specs.Measured.{write_branches};
ghost use Rattle.tree_view.specs.Places.{There, name_end};
ghost use Rattle.tree_view.specs.ExprAt.{expr_at};
ghost use Rattle.tree_view.specs.StmtAt.{stmt_at, block_at, branches_at, body_at, elifs_at, def_block_at, class_methods_at};
ghost use Rattle.tree_view.specs.StmtAt as StmtAt;
ghost use Rattle.state.specs.Words.{name_at};
ghost use Rattle.state.specs.State.{emit_at, slot_names};
ghost use Rattle.state.specs.Steps.{emit_methods_at, methods_of};
ghost use Rattle.state.specs.Kept.{keeping_of, Spare, Passes};
ghost use Rattle.lower_forms.specs.Lowerable.{SoleIn};
ghost use Rattle.lower_forms.specs.Lowering.{StmtLowerable, BlockLowerable, BranchLowerable, BranchesLowerable, IfLowerable, ForLowerable};
ghost use Rattle.lower_forms.specs.Lowering.{FunctionLowerable, MethodsLowerable, ClassLowerable, block_code, function_code, end_of, class_code};
ghost use Rattle.lower_emit.specs.Emitting.{state_in, EmitsTo, Reaches};
ghost use Rattle.lower_loops.specs.Iterators.{keeper_of, Loads};
ghost use Rattle.lower_blocks.specs.Blocks.{CompilesIn, ListsIn};
ghost use Rattle.write_blocks.specs.Written.{loop_of, Started, BodyLowerable, KeepsWritten, stmt_written, block_written, branch_written, rest_written, while_written, for_written, rounds_written};

use crate::loops::{JUMP_BACK, NO_LOOP, place, put_ahead, put_back};
use crate::sizes::{block_size, branch_size};
use lower_classes::{begin_class, finish_class, start_named};
use lower_emit::emitter::Emitter;
use lower_expr::emit_expr;
use lower_loops::{ask_more, store_iterator, take_iterator};
use lower_simple::{emit_iterable, emit_simple, is_init, put_end};
use methods::insert_method;
use numerals::kinds::StmtKind;
use numerals::ops::{JUMP, JUMP_IF_FALSE};
use numerals::places::{METHODS_ROOM, SLOTS_FROM};
use numerals::sizes::SLOTS_ROOM;
use slots::collect::collect_locals;
use slots::skip::{skip_params, skip_stmt};
use state::Scope;
use tree_view::names::name_end;
use tree_view::numbers::u16_at;
use write_blocks::Loop;

// The statement at `at`, with `depth` levels left.
#[cycle(write)]
fn write_stmt(
    s: Scope<'_>,
    e: &mut Emitter<'_>,
    at: usize,
    depth: u32,
    around: Loop,
    it: &mut u32,
) -> Option<usize>
    requires { SoleIn s.tree.now e.old × StmtLowerable depth s.tree.now at × Spare it.old (loops_stmt (stmt_at depth s.tree.now at).value) × Started around e.old }
    ensures written { let t = s.entry.tree.now in let names = slot_names t s.entry.slots.now in
        EmitsTo result (stmt_written depth t names (keeping_of it.old) around at) (stmt_at depth t at).end t e.old e.new
        × Passes result it.old it.new (loops_stmt (stmt_at depth t at).value) }
    ensures before { KeepsWritten result s.entry.tree.now e.old e.new }
{
    let a = at + 1;
    let below = depth - 1;
    match StmtKind::of(s.tree[at]) {
        StmtKind::If => write_if(s, e, a, below, around, it),
        StmtKind::While => write_while(s, e, a, below, it),
        StmtKind::For => write_for(s, e, a, below, it),
        StmtKind::Def => write_function(s.tree, e, a, below, false),
        StmtKind::Class => {
            write_class(s.tree, e, a, below)?;
            Some(skip_stmt(s.tree, at, depth))
        }
        StmtKind::Break => {
            put_ahead(&mut e.code, around.end)?;
            Some(a)
        }
        StmtKind::Continue => {
            put_back(&mut e.code, around.start)?;
            Some(a)
        }
        StmtKind::Pass | StmtKind::Expr | StmtKind::Return | StmtKind::Assign => {
            emit_simple(s, e, at, depth)
        }
    }
}

// The block at `at`: a count of statements, and these.
#[cycle(write)]
fn write_block(
    s: Scope<'_>,
    e: &mut Emitter<'_>,
    at: usize,
    depth: u32,
    around: Loop,
    it: &mut u32,
) -> Option<usize>
    requires { SoleIn s.tree.now e.old × BlockLowerable depth s.tree.now at × Spare it.old (loops_block (block_at depth s.tree.now at).value) × Started around e.old }
    ensures written { let t = s.entry.tree.now in let names = slot_names t s.entry.slots.now in
        EmitsTo result (block_written depth t names (keeping_of it.old) around at) (block_at depth t at).end t e.old e.new
        × Passes result it.old it.new (loops_block (block_at depth t at).value) }
    ensures before { KeepsWritten result s.entry.tree.now e.old e.new }
{
    let count = u16_at(s.tree, at);
    let mut p = at + 2;
    for _ in 0..count {
        p = write_stmt(s, e, p, depth, around, it)?;
    }
    Some(p)
}

// A condition, the question that passes the block and the jump after it, and the block.
#[cycle(write)]
fn write_branch(
    s: Scope<'_>,
    e: &mut Emitter<'_>,
    at: usize,
    depth: u32,
    around: Loop,
    it: &mut u32,
) -> Option<usize>
    requires { SoleIn s.tree.now e.old × BranchLowerable depth s.tree.now at × Spare it.old (loops_block (body_at depth s.tree.now at).value) × Started around e.old }
    ensures { let t = s.entry.tree.now in let names = slot_names t s.entry.slots.now in
        EmitsTo result (branch_written names (keeping_of it.old) around (expr_at depth t at).value (body_at depth t at).value) (body_at depth t at).end t e.old e.new
        × Passes result it.old it.new (loops_block (body_at depth t at).value) }
{
    let block = emit_expr(s, e, at, depth)?;
    let n = block_size(s, e, block, depth)?;
    e.code.put_op(JUMP_IF_FALSE, n + 1, 0)?;
    write_block(s, e, block, depth, around, it)
}

// A first branch, a count of elifs, these, and an else block or none.
#[cycle(write)]
fn write_if(
    s: Scope<'_>,
    e: &mut Emitter<'_>,
    at: usize,
    depth: u32,
    around: Loop,
    it: &mut u32,
) -> Option<usize>
    requires { SoleIn s.tree.now e.old × IfLowerable depth s.tree.now at × Spare it.old (loops_block (body_at depth s.tree.now at).value + loops_branches (elifs_at depth s.tree.now at).value) × Started around e.old }
    ensures { let t = s.entry.tree.now in let names = slot_names t s.entry.slots.now in
        EmitsTo result (write_branches names (keeping_of it.old) (loop_of around) (when (expr_at depth t at).value (body_at depth t at).value (elifs_at depth t at).value))
        (elifs_at depth t at).end t e.old e.new
        × Passes result it.old it.new (loops_block (body_at depth t at).value + loops_branches (elifs_at depth t at).value) }
{
    let p = write_branch(s, e, at, depth, around, it)?;
    let count = u16_at(s.tree, p);
    write_elifs(s, e, p + 2, depth, count, around, it)
}

// After a branch: its end jump, which goes to the end jump of the next elif, and that elif; so for each elif, and then the else block or none.
#[cycle(write)]
fn write_elifs(
    s: Scope<'_>,
    e: &mut Emitter<'_>,
    at: usize,
    depth: u32,
    count: u32,
    around: Loop,
    it: &mut u32,
) -> Option<usize>
    requires { SoleIn s.tree.now e.old × BranchesLowerable depth count s.tree.now at × Spare it.old (loops_branches (branches_at depth count s.tree.now at).value) × Started around e.old }
    ensures { let t = s.entry.tree.now in let names = slot_names t s.entry.slots.now in
        EmitsTo result (rest_written names (keeping_of it.old) around (branches_at depth count t at).value) (branches_at depth count t at).end t e.old e.new
        × Passes result it.old it.new (loops_branches (branches_at depth count t at).value) }
{
    let mut p = at;
    for _ in 0..count {
        let n = branch_size(s, e, p, depth)?;
        e.code.put_op(JUMP, n - 1, 0)?;
        p = write_branch(s, e, p, depth, around, it)?;
    }
    write_else(s, e, p, depth, around, it)
}

// After the last branch: the byte 0, and the end jump goes nowhere; or 1, and it goes past the else block.
#[cycle(write)]
fn write_else(
    s: Scope<'_>,
    e: &mut Emitter<'_>,
    at: usize,
    depth: u32,
    around: Loop,
    it: &mut u32,
) -> Option<usize>
    requires { SoleIn s.tree.now e.old × BranchesLowerable depth 0 s.tree.now at × Spare it.old (loops_branches (branches_at depth 0 s.tree.now at).value) × Started around e.old }
    ensures { let t = s.entry.tree.now in let names = slot_names t s.entry.slots.now in
        EmitsTo result (rest_written names (keeping_of it.old) around (branches_at depth 0 t at).value) (branches_at depth 0 t at).end t e.old e.new
        × Passes result it.old it.new (loops_branches (branches_at depth 0 t at).value) }
{
    if s.tree[at] == 0 {
        e.code.put_op(JUMP, 0, 0)?;
        return Some(at + 1);
    }
    let n = block_size(s, e, at + 1, depth)?;
    e.code.put_op(JUMP, n, 0)?;
    write_block(s, e, at + 1, depth, around, it)
}

// A condition and a block, as long as it holds: a break goes past the jump back, a continue to the condition.
#[cycle(write)]
fn write_while(
    s: Scope<'_>,
    e: &mut Emitter<'_>,
    at: usize,
    depth: u32,
    it: &mut u32,
) -> Option<usize>
    requires { SoleIn s.tree.now e.old × BranchLowerable depth s.tree.now at × Spare it.old (loops_block (body_at depth s.tree.now at).value) }
    ensures { let t = s.entry.tree.now in let names = slot_names t s.entry.slots.now in
        EmitsTo result (while_written names (keeping_of it.old) (expr_at depth t at).value (body_at depth t at).value) (body_at depth t at).end t e.old e.new
        × Passes result it.old it.new (loops_block (body_at depth t at).value) }
{
    let start = place(&e.code);
    let block = emit_expr(s, e, at, depth)?;
    let n = block_size(s, e, block, depth)?;
    e.code.put_op(JUMP_IF_FALSE, n + 1, 0)?;
    let end = place(&e.code) + n + JUMP_BACK;
    let next = write_block(s, e, block, depth, Loop { start, end }, it)?;
    put_back(&mut e.code, start)?;
    Some(next)
}

// A loop variable, what it goes through, and a block.
#[cycle(write)]
fn write_for(
    s: Scope<'_>,
    e: &mut Emitter<'_>,
    at: usize,
    depth: u32,
    it: &mut u32,
) -> Option<usize>
    requires { SoleIn s.tree.now e.old × ForLowerable depth s.tree.now at × Spare it.old (1 + loops_block (body_at depth s.tree.now (name_end s.tree.now at)).value) }
    ensures { let t = s.entry.tree.now in let names = slot_names t s.entry.slots.now in
        EmitsTo result (for_written names (keeping_of it.old) (name_at t at) (expr_at depth t (name_end t at)).value (body_at depth t (name_end t at)).value)
        (body_at depth t (name_end t at)).end t e.old e.new
        × Passes result it.old it.new (1 + loops_block (body_at depth t (name_end t at)).value) }
{
    let start = name_end(s.tree, at);
    let block = emit_iterable(s, e, start, depth)?;
    let load = store_iterator(s.tree, e, it)?;
    write_rounds(s, e, at, depth, block, load, it)
}

// The rounds of a for loop: its variable is at `at`, its block at `block`, and the word `load` loads its iterator. Each asks for more, takes the next value
// and goes through the block: a break goes past the jump back, a continue to the question.
#[cycle(write)]
fn write_rounds(
    s: Scope<'_>,
    e: &mut Emitter<'_>,
    at: usize,
    depth: u32,
    block: usize,
    load: u32,
    it: &mut u32,
) -> Option<usize>
    requires { SoleIn s.tree.now e.old × There s.tree.now at × BlockLowerable depth s.tree.now block × Loads load (keeper_of load) × Spare it.old (loops_block (block_at depth s.tree.now block).value) }
    ensures { let t = s.entry.tree.now in let names = slot_names t s.entry.slots.now in
        EmitsTo result (rounds_written names (keeping_of it.old) (name_at t at) (keeper_of load) (block_at depth t block).value) (block_at depth t block).end t e.old e.new
        × Passes result it.old it.new (loops_block (block_at depth t block).value) }
{
    let start = place(&e.code);
    ask_more(s.tree, e, load)?;
    let size = block_size(s, e, block, depth)?;
    let n = TAKE + size;
    e.code.put_op(JUMP_IF_FALSE, n + 1, 0)?;
    let end = place(&e.code) + n + JUMP_BACK;
    take_iterator(s, e, at, load)?;
    let next = write_block(s, e, block, depth, Loop { start, end }, it)?;
    put_back(&mut e.code, start)?;
    Some(next)
}

// The instructions that take the next value.
const TAKE: u32 = 3;

// The block of a function, and its end; its loops keep their iterators in slots from `first` on.
#[cycle(write)]
pub fn write_body(
    s: Scope<'_>,
    e: &mut Emitter<'_>,
    at: usize,
    depth: u32,
    init: bool,
    first: u32,
) -> Option<usize>
    requires { SoleIn s.tree.now e.old × BodyLowerable depth s.tree.now at × Spare first (loops_block (block_at depth s.tree.now at).value) }
    ensures { let t = s.entry.tree.now in let names = slot_names t s.entry.slots.now in
        EmitsTo result (block_code depth t names (keeping_of first) at ⨟ emits (end_of init)) (block_at depth t at).end t e.old e.new }
{
    let mut it = first;
    let next = write_block(s, e, at, depth, NO_LOOP, &mut it)?;
    put_end(&mut e.code, init)?;
    Some(next)
}

// The function whose name is at `at`, with its parameters and its block.
#[cycle(write)]
fn write_function(
    tree: &[u8],
    e: &mut Emitter<'_>,
    at: usize,
    depth: u32,
    init: bool,
) -> Option<usize>
    requires { SoleIn tree.now e.old × FunctionLowerable depth tree.now at }
    ensures { CompilesIn result (def_block_at depth tree.now at).end (emit_at e.old.code.base (function_code depth tree.now at init) (state_in tree.now e.old))
        tree.now e.old e.new }
{
    let mut slots = [0u32; SLOTS_ROOM];
    let params = name_end(tree, at);
    let arity = u16_at(tree, params);
    let block = skip_params(tree, params);
    let frame = collect_locals(tree, params, block, depth, &mut slots)?;
    let base = e.code.base;
    let f = start_named(tree, e, at, arity, frame.locals)?;
    let s = Scope {
        tree,
        slots: &slots[..SLOTS_FROM + frame.named as usize],
    };
    let next = write_body(s, e, block, depth, init, frame.named)?;
    e.end_function(f, base);
    Some(next)
}

// n methods of a class, each a function; the list is of those so far, by rising names, in fixed memory (no heap) with their count beside it. None where
// there is no room.
#[cycle(write)]
fn write_methods(
    tree: &[u8],
    e: &mut Emitter<'_>,
    at: usize,
    depth: u32,
    n: u32,
    list: &mut [u32],
) -> Option<u32>
    requires { SoleIn tree.now e.old × MethodsLowerable depth n tree.now at × (256 ≤ length list.old) }
    ensures { ListsIn result (emit_methods_at (StmtAt.methods_at depth n tree.now at).value [] (state_in tree.now e.old))
        (methods_of (StmtAt.methods_at depth n tree.now at).value [] (state_in tree.now e.old)) tree.now list.new e.old e.new }
{
    let mut p = at;
    let mut count = 0u32;
    for _ in 0..n {
        let number = e.tables.functions.count;
        let next = write_function(tree, e, p, depth, is_init(tree, p))?;
        count = insert_method(tree, list, count, p as u32 * 256 + number);
        p = next;
    }
    Some(count)
}

// The class whose name is at `at`: its number, its methods, its object. Its attributes are not lowered.
#[cycle(write)]
fn write_class(tree: &[u8], e: &mut Emitter<'_>, at: usize, depth: u32) -> Option<()>
    requires { SoleIn tree.now e.old × ClassLowerable depth tree.now at }
    ensures { Reaches result tree.now e.old e.new (emit_at e.old.code.base (class_code (name_at tree.now at) (class_methods_at depth tree.now at).value) (state_in tree.now e.old)) }
{
    let mut list = [0u32; METHODS_ROOM];
    let tables = &mut e.tables;
    let i = begin_class(&mut tables.classes, &mut tables.entries, at)?;
    let start = name_end(tree, at);
    let n = u16_at(tree, start);
    let count = write_methods(tree, e, start + 2, depth, n, &mut list)?;
    finish_class(tree, e, at, i, &list[..count as usize])
}
