// The questions that are asked of a block's parts.
ghost use Rattle.std.specs.Prelude.{◌≡◌};
ghost use Rattle.parts.specs.Asked.{question_place, number_asked};
ghost use Rattle.questions.specs.Numbers.{number};

use questions::Question;

// A question of a block, by its place in the order in which they are asked.
#[derive(Clone, Copy)]
pub enum BlockQuestion {
    Names = 0,
    IteratorNames = 1,
    Strings = 2,
    Loops = 3,
    Targets = 4,
    EmptyTargets = 5,
    Parameters = 6,
    Init = 7,
    ListLengths = 8,
}

// How many questions are asked of a block.
pub const QUESTIONS: u32 = 9;

impl BlockQuestion {
    // Its place in the order in which the questions are asked.
    #[tactic(auto, unfolding(crate::specs::Asked::question_place))]
    pub(crate) fn place(self) -> u32
        ensures { result ≡ question_place self }
    {
        self as u32
    }

    // The same among all questions.
    #[tactic(auto, unfolding(crate::specs::Asked::number_asked, questions::specs::Numbers::number))]
    pub(crate) fn question(self) -> Question
        ensures { number result ≡ number_asked self }
    {
        match self {
            BlockQuestion::Names => Question::Names,
            BlockQuestion::IteratorNames => Question::IteratorNames,
            BlockQuestion::Strings => Question::Strings,
            BlockQuestion::Loops => Question::Loops,
            BlockQuestion::Targets => Question::Targets,
            BlockQuestion::EmptyTargets => Question::EmptyTargets,
            BlockQuestion::Parameters => Question::Parameters,
            BlockQuestion::Init => Question::Init,
            BlockQuestion::ListLengths => Question::ListLengths,
        }
    }
}
