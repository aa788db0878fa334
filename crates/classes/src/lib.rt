// Classes of a module and the types of their objects.
#![tactic(auto)]

ghost use Rattle.std.specs.Prelude.{◌≡◌};
ghost use Rattle.definitions.specs.Tables.{type_number};

// A class of the module. The type number of its object follows from its number, so a module does not store it.
#[derive(Clone, Copy)]
pub struct Class {
    pub number: u32,
}

impl Class {
    pub const FIRST: u32 = 100;

    #[tactic(auto, unfolding(definitions::specs::Tables::type_number))]
    pub fn type_number(class: u16) -> u32
        ensures { result ≡ type_number class }
    {
        Self::FIRST + u32::from(class)
    }
}
