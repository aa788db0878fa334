// The two sets of limits of question 15: the office's, and those of the console at the casing-in machine.
#![tactic(auto)]

ghost use Rattle.std.specs.Prelude.{◌≡◌};
ghost use Rattle.definitions.specs.Module.{limits_by};
ghost use Rattle.state.specs.State.{limits_of};
ghost use Rattle.limits.specs.Sets.{limits_for};

// Which set the caller wants.
#[derive(Clone, Copy)]
pub enum Limits {
    Office,
    Console,
}

// The set that a number names: 0 the office's, every other number the console's. It is no From, as only C's callers name a set by a number.
#[tactic(auto, unfolding(crate::specs::Sets::set_number, definitions::specs::Module::limits_by))]
pub fn limits_by(number: u32) -> Limits
    ensures { limits_for result ≡ limits_by number }
{
    match number {
        0 => Limits::Office,
        _ => Limits::Console,
    }
}

// How many functions, symbols, strings, classes and instructions a module may have.
#[tactic(auto, unfolding(crate::specs::Sets::set_number, definitions::specs::Module::limits_by, definitions::specs::Module::office, definitions::specs::Module::console, state::specs::State::limits_of))]
pub fn limit_numbers(limits: Limits) -> state::Limits
    ensures { limits_of result ≡ limits_for limits }
{
    match limits {
        Limits::Office => state::Limits {
            functions: 256,
            symbols: 1024,
            strings: 512,
            classes: 64,
            instructions: 8192,
        },
        Limits::Console => state::Limits {
            functions: 64,
            symbols: 256,
            strings: 512,
            classes: 64,
            instructions: 2048,
        },
    }
}
