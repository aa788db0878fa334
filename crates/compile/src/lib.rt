// The tables of an accepted tree, or of a stretch of its top statements: function 0, `__main__`, is these statements, with no slots; its loops keep their
// iterators in globals.
// That the tree is accepted (TreeAt) stays a clause: a struct with that fact would be made for one call and opened at once.
#![tactic(auto)]

ghost use Rattle.definitions.specs.Lower as Lower;
ghost use Rattle.tree_view.specs.StmtAt.{block_at, stmts_at, TreeAt};
ghost use Rattle.lower_emit.specs.Emitting.{SoundIn, EmitsTo, BeginsIn};
ghost use Rattle.compile.specs.Compiled.{Fresh, tree_block, main_code, main_begun, StretchIn, stretch_block, CompilesTree};

use lower_emit::emitter::Emitter;
use lower_names::intern_made;
use lower_stmt::emit_stmts;
use names::Made;
use numerals::ops::RETURN;
use numerals::places::{IN_GLOBALS, SLOTS_FROM};
use numerals::sizes::{DEPTH, HEAD, TOP};
use state::Scope;
use tree_view::numbers::u16_at;
use write_stmts::write_body;

// How jumps get their numbers: they are set once the part that they pass is done, or written as they stay, by its measure.
#[derive(Clone, Copy)]
pub enum Jumps {
    Set,
    Measured,
}

// A stretch of a tree's top statements: where it begins, and how many they are.
#[derive(Clone, Copy)]
pub struct Stretch {
    pub at: usize,
    pub count: u32,
}

// `__main__` begins: its number, 0; or none where there is no room.
fn begin_main(tree: &[u8], e: &mut Emitter<'_>) -> Option<u32>
    requires { Fresh e.old }
    ensures { BeginsIn result 0 tree.now e.old e.new main_begun }
{
    let tables = &mut e.tables;
    let symbol = intern_made(tree, &mut tables.names, &mut tables.entries, Made::Main)?;
    e.begin_function(symbol, 0, 0)
}

// The statements, and a return; jumps are set.
fn emit_main(tree: &[u8], stretch: Stretch, e: &mut Emitter<'_>) -> Option<usize>
    requires { SoundIn tree.now e.old × StretchIn tree.now stretch }
    ensures { EmitsTo result (main_code (stretch_block tree.now stretch)) (stmts_at 32 stretch.count tree.now stretch.at).end tree.now e.old e.new }
{
    let none = [0u32; SLOTS_FROM];
    let s = Scope { tree, slots: &none };
    let mut it = IN_GLOBALS;
    let next = emit_stmts(s, e, stretch.at, DEPTH, stretch.count, &mut it)?;
    e.code.put_op(RETURN, 0, 0)?;
    Some(next)
}

// The tables of a stretch; none where they are over the limits.
pub fn compile_stretch(tree: &[u8], stretch: Stretch, e: &mut Emitter<'_>) -> Option<()>
    requires { Fresh e.old × StretchIn tree.now stretch }
    ensures { CompilesTree result tree.now e.old e.new (Lower.compile (stretch_block tree.now stretch)).tables }
{
    let f = begin_main(tree, e)?;
    emit_main(tree, stretch, e)?;
    e.end_function(f, 0);
    Some(())
}

// The tree's block, and a return, by measured lengths.
fn write_main(tree: &[u8], e: &mut Emitter<'_>) -> Option<usize>
    requires { SoundIn tree.now e.old × TreeAt tree.now }
    ensures { EmitsTo result (main_code (tree_block tree.now)) (block_at 32 tree.now 5).end tree.now e.old e.new }
{
    let none = [0u32; SLOTS_FROM];
    let s = Scope { tree, slots: &none };
    write_body(s, e, HEAD, DEPTH, false, IN_GLOBALS)
}

// The tables of the tree by measured lengths; none where they are over the limits.
fn compile_measured(tree: &[u8], e: &mut Emitter<'_>) -> Option<()>
    requires { Fresh e.old × TreeAt tree.now }
    ensures { CompilesTree result tree.now e.old e.new (Lower.compile (tree_block tree.now)).tables }
{
    let f = begin_main(tree, e)?;
    write_main(tree, e)?;
    e.end_function(f, 0);
    Some(())
}

// The tables of the tree; none where they are over the limits.
pub fn compile(tree: &[u8], e: &mut Emitter<'_>, jumps: Jumps) -> Option<()>
    requires { Fresh e.old × TreeAt tree.now }
    ensures { CompilesTree result tree.now e.old e.new (Lower.compile (tree_block tree.now)).tables }
{
    match jumps {
        Jumps::Set => {
            let whole = Stretch {
                at: TOP,
                count: u16_at(tree, HEAD),
            };
            compile_stretch(tree, whole, e)
        }
        Jumps::Measured => compile_measured(tree, e),
    }
}
