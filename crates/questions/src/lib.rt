// The questions by which a call refuses, by name; their numbers are those of README's table.
#![tactic(auto)]

ghost use Rattle.std.specs.Prelude.{◌≡◌, Some};
ghost use Rattle.std.specs.Fmt.{decimal};
ghost use Rattle.questions.specs.Numbers.{number};

use std::fmt;

// The question that was answered no.
#[derive(Clone, Copy, Debug, PartialEq, Eq)]
pub enum Question {
    WorkAreas = 1,
    TreeSize = 2,
    TreeCount = 3,
    TreeVersion = 4,
    TreeLayout = 5,
    Depth = 6,
    Names = 7,
    Strings = 8,
    Loops = 9,
    Targets = 10,
    Parameters = 11,
    Init = 12,
    ListLengths = 13,
    Slots = 14,
    Limits = 15,
    ModuleRoom = 16,
    ModuleSize = 17,
    ModuleVersion = 18,
    ModuleLayout = 19,
    Numbers = 20,
    Jumps = 21,
    Function = 22,
    Answers = 23,
    EventRoom = 24,
    ListingRoom = 31,
    SheetRoom = 32,
    IteratorNames = 33,
    Place = 34,
    AnswerRoom = 35,
    EmptyTargets = 36,
    Heights = 37,
    CutRoom = 38,
}

impl Question {
    // Its number.
    #[tactic(auto, unfolding(crate::specs::Numbers::number))]
    pub fn number(self) -> u32
        ensures { result ≡ number self }
    {
        self as u32
    }
}

// By its number.
impl fmt::Display for Question {
    ghost output = { λ q. Some (decimal (number q)) };

    fn fmt<W: fmt::Write>(&self, f: &mut fmt::Formatter<W>) -> fmt::Result {
        write!(f, "{}", self.number())
    }
}
