ghost use Rattle.std.specs.Prelude.{◌<◌};
ghost use Rattle.draid_machine.specs.Step.{Step};
ghost use Rattle.draid_machine.specs.State.{Layout, State};
ghost use Rattle.draid_machine.specs.declared.event.Event.{Event};
ghost use Rattle.draid_replay.specs.Within.{IsSmallEvent, IsWithin};

use draid_names::NUMBERS;

/// Law: a legal event whose numbers are in their ranges leaves a state whose numbers are, if those of the
/// state before were.
#[tactic(auto, using(crate::proofs::Ranges::kept))]
pub fn numbers_stay_small()
    ensures { (layout : Layout) (state new : State) (event : Event) → layout.stripes < NUMBERS
        → IsWithin state → IsSmallEvent event → Step layout state event new → IsWithin new }
{}
