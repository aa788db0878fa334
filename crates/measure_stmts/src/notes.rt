// Names noted, and what is known with them.
ghost use Rattle.std.specs.Prelude.{◌≡◌, ◌<◌};
ghost use Rattle.definitions.specs.Measured.{add_function, add_class};
ghost use Rattle.state.specs.Words.{name_at};
ghost use Rattle.measure.specs.Known.{known};
ghost use Rattle.measure_stmts.specs.Walked.{seen, Notes};

use crate::begun::{Begun, ROOM};
use measure::measurer::Measurer;

// Nothing has begun yet.
pub fn none_begun() -> Begun
    ensures { (result.function_count ≡ 0) × (result.class_count ≡ 0) }
{
    Begun {
        functions: [0; ROOM],
        classes: [0; ROOM],
        function_count: 0,
        class_count: 0,
    }
}

// What measures an expression here: it knows the names noted, too.
pub fn knowing<'a>(m: Measurer<'a>, begun: &'a Begun) -> Measurer<'a>
    ensures scope { result.scope ≡ m.entry.scope }
    ensures known { known result ≡ seen m.entry begun.now }
{
    Measurer {
        scope: m.scope,
        made: m.made,
        entries: m.entries,
        symbols: m.symbols,
        functions: m.functions,
        classes: m.classes,
        new_functions: &begun.functions[..begun.function_count],
        new_classes: &begun.classes[..begun.class_count],
    }
}

// The function whose name is at `at` begins; none where there is no room to note it.
pub(crate) fn note_function(begun: &mut Begun, at: usize) -> Option<()>
    requires { at < 32768 }
    ensures { Notes result (λ t s. add_function (name_at t at) s) begun.old begun.new }
{
    let n = begun.function_count;
    if ROOM <= n + begun.class_count {
        return None;
    }
    begun.functions[n] = at as u32;
    begun.function_count = n + 1;
    Some(())
}

// The class whose name is at `at` begins; none where there is no room to note it.
pub(crate) fn note_class(begun: &mut Begun, at: usize) -> Option<()>
    requires { at < 32768 }
    ensures { Notes result (λ t s. add_class (name_at t at) s) begun.old begun.new }
{
    let n = begun.class_count;
    if ROOM <= begun.function_count + n {
        return None;
    }
    begun.classes[n] = at as u32;
    begun.class_count = n + 1;
    Some(())
}
