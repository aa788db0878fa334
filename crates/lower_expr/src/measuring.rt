// What measures a part where it is about to be written.
ghost use Rattle.std.specs.Prelude.{◌≡◌, []};
ghost use Rattle.definitions.specs.Measured.{so_far, measure_expr};
ghost use Rattle.tree_view.specs.ExprAt.{expr_at, ExprReads};
ghost use Rattle.state.specs.State.{slot_names};
ghost use Rattle.lower_emit.specs.Emitting.{state_in};
ghost use Rattle.lower_forms.specs.Lowerable.{SoleIn};
ghost use Rattle.measure.specs.Known.{known, known_with};

use lower_emit::emitter::Emitter;
use measure::measurer::Measurer;
use state::Scope;

// It knows the functions and classes that the tables hold; no other names are noted.
pub fn measurer<'a>(s: Scope<'a>, e: &'a Emitter<'_>) -> Measurer<'a>
    requires { SoleIn s.tree.now e.now }
    ensures scope { result.scope ≡ s.entry }
    ensures known { known result ≡ so_far (state_in s.entry.tree.now e.now).tables }
    ensures alone { known_with result [] [] ≡ so_far (state_in s.entry.tree.now e.now).tables }
{
    let tables = &e.tables;
    Measurer {
        scope: s,
        made: tables.names.made,
        entries: tables.entries.words,
        symbols: tables.names.symbols.count,
        functions: tables.functions.count,
        classes: tables.classes.count,
        new_functions: &[],
        new_classes: &[],
    }
}

// How many instructions the expression at `at` will have.
pub(crate) fn expr_size(s: Scope<'_>, e: &Emitter<'_>, at: usize, depth: u32) -> u32
    requires { SoleIn s.tree.now e.now × ExprReads depth s.tree.now at }
    ensures { let t = s.entry.tree.now in result ≡ measure_expr (slot_names t s.entry.slots.now) (so_far (state_in t e.now).tables) (expr_at depth t at).value }
{
    measurer(s, e).expr(at, depth).size
}
