ghost use Rattle.std.specs.Prelude.{◌≡◌, IsSomeAnd, IfErr, OnErr, OnOk, option_map, true};
ghost use Rattle.draid_machine.specs.declared.event.Event.TheVariants.{Ready};
ghost use Rattle.draid_pass.specs.declared.pass.Pass.{Pass};
ghost use Rattle.draid_segments.specs.Segments.{Pieces};
ghost use Rattle.draid_shard.specs.Calls.{ActsOn, SameKit, SameReserve};
ghost use Rattle.draid_shard.specs.Changes.{KeepsBlocks};
ghost use Rattle.draid_shard.specs.Fits.{Valid};
ghost use Rattle.draid_shard.specs.States.{Does};
ghost use Rattle.draid_passing.specs.Passing.{IsMaxOf, IsPlanned, MustWait, WaitsFor};

use crate::fault::NotYet;
use draid_area::Area;
use draid_machine::Event;
use draid_pass::Pass;
use draid_rack::Rack;
use draid_shard::Shard;

/// Lets a planned rebuild run, once no write is open and the committed group has each birth, and reaches the group before
/// the last one that the rebuild makes good.
pub fn ready<R: Rack, A: Area>(shard: &mut Shard<R, A>) -> Result<(), NotYet>
    requires valid { Valid R.Rack shard.old }
    requires planned { IsSomeAnd shard.old.pass IsPlanned }
    ensures valid { Valid R.Rack shard.new }
    ensures kit { SameKit shard.old shard.new }
    ensures event { OnOk result (Does shard.old shard.new Ready) }
    ensures acts { OnOk result ((pieces : Pieces) → ActsOn R.Rack shard.old shard.new Ready pieces) }
    ensures runs { OnOk result (shard.new.pass ≡ option_map (λ (p : Pass). record p { running = true }) shard.old.pass) }
    ensures slots { shard.new.slots ≡ shard.old.slots }
    ensures keeps { KeepsBlocks shard.old shard.new }
    ensures reserve { SameReserve shard.old shard.new }
    ensures refused { IfErr result (WaitsFor shard.old) }
    ensures illegal { OnErr result (MustWait shard.old) }
    ensures same { OnErr result (shard.new ≡ shard.old) }
{
    let tickets = shard.tickets();
    let birth = shard.greatest_birth();
    let max = max_of(&shard.pass);
    let committed = shard.committed;
    if tickets > 0 || committed < birth || committed + 1 < max {
        return Err(NotYet {
            tickets,
            birth,
            committed,
        });
    }
    run(&mut shard.pass);
    shard.history.add(Event::Ready, 1);
    Ok(())
}

/// The last group that a pass makes good.
fn max_of(pass: &Option<Pass>) -> u64
    ensures { IsMaxOf pass.now result }
{
    match pass {
        Some(pass) => pass.max,
        None => 0,
    }
}

/// A planned pass runs.
fn run(pass: &mut Option<Pass>)
    ensures { pass.new ≡ option_map (λ (p : Pass). record p { running = true }) pass.old }
{
    if let Some(mut found) = pass.take() {
        found.running = true;
        *pass = Some(found);
    }
}
