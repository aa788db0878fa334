// The lowering of a tree up to question 15: its code and tables in the areas, and no module.
#![tactic(auto)]

ghost use Rattle.std.specs.Prelude.{◌≡◌, ◌≤◌, [], length};
ghost use Rattle.state.specs.State.{Limited};
ghost use Rattle.tree_view.specs.StmtAt.{TreeAt};
ghost use Rattle.definitions.specs.Fits.{fits_block};
ghost use Rattle.compile.specs.Compiled.{Fresh, tree_block};
ghost use Rattle.settle.specs.Settles.{full_by, Settles, Accepts};

use compile::{Jumps, compile};
use fits::statements::check_slots;
use lower_emit::emitter::Emitter;
use numerals::sizes::MADE_ROOM;
use questions::Question;
use state::Limits;
use tree::check_tree;

// The question by which a tree is refused whose lowering is full. One that is lowered has at most 255 slots a function, so 14 is asked only here.
fn full_by(tree: &[u8]) -> Question
    requires { TreeAt tree.now }
    ensures { result ≡ full_by (fits_block [] (tree_block tree.now)) }
{
    if check_slots(tree) {
        return Question::Limits;
    }
    Question::Slots
}

// Questions 2 to 15; the emitter keeps what was worked out.
pub fn settle(tree: &[u8], e: &mut Emitter<'_>, jumps: Jumps) -> Result<(), Question>
    requires { Fresh e.old }
    ensures { Settles result tree.now e.old e.new }
{
    check_tree(tree)?;
    match compile(tree, e, jumps) {
        Some(()) => Ok(()),
        None => Err(full_by(tree)),
    }
}

// Questions 2 to 15 within these limits, for those who want the answer alone; the areas keep what was worked out.
pub fn accept(
    tree: &[u8],
    code: &mut [u32],
    tables: &mut [u32],
    limits: Limits,
) -> Result<(), Question>
    requires { (16384 ≤ length code.old) × (16384 ≤ length tables.old) × Limited limits }
    ensures { Accepts result tree.now limits }
{
    let mut made = [0u8; MADE_ROOM];
    let mut e = Emitter::new(code, &mut made, tables, limits);
    settle(tree, &mut e, Jumps::Set)
}
