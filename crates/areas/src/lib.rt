// The work areas, which are lent and given back with every word 0.
#![tactic(auto)]

ghost use Rattle.std.specs.Prelude.{◌≡◌};
ghost use Rattle.definitions.specs.Calls.{zeros};

// Every word 0.
#[tactic(auto, unfolding(definitions::specs::Calls::zeros))]
pub fn clear(area: &mut [u32])
    ensures { area.new ≡ zeros area.old }
{
    area.fill(0);
}
