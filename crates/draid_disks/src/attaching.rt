ghost use Rattle.std.specs.Prelude.{◌≡◌, ◌≤◌, ◌<◌, ◌^◌, ◌↔◌, IfErr, IsTrue, OnErr, OnOk};
ghost use Rattle.draid_entries.specs.History.{reserved_of};
ghost use Rattle.draid_machine.specs.State as machine;
ghost use Rattle.draid_machine.specs.Step.{IsLast};
ghost use Rattle.draid_machine.specs.declared.event.Event.TheVariants.{Attach};
ghost use Rattle.draid_names.specs.declared.arm.ArmKind.TheVariants.{Spare};
ghost use Rattle.draid_segments.specs.Segments.{Pieces};
ghost use Rattle.draid_shard.specs.Calls.{ActsOn, SameKit};
ghost use Rattle.draid_shard.specs.Changes.{KeepsBlocks};
ghost use Rattle.draid_shard.specs.Fits.{Valid};
ghost use Rattle.draid_shard.specs.States.{Does, IsIn};
ghost use Rattle.draid_machine.specs.Names.{named};
ghost use Rattle.draid_disks.specs.Disks.{HasArmRoom, HasAttached, IsComingRefused, IsNewLeaf, TakesRoomOfOne, Uses, arm_called};
ghost use Rattle.draid_disks.specs.Replanning.{MayReplan, attach_events};

use crate::renewing::renew;
use crate::replanning::replan;
use draid_area::Area;
use draid_machine::{ArmName, Event};
use draid_names::{Arm, ArmKind, LAST_NUMBER, PassKind, SlotFault};
use draid_rack::Rack;
use draid_shard::{Shard, drop_loan};

/// An arm by what it is. Spares have numbers of 32 bits; what a greater one gives is of no account.
fn called(kind: ArmKind, number: u64) -> ArmName
    ensures { (kind ≡ Spare → number < 2 ^ 32) → result ≡ named kind number }
{
    match kind {
        ArmKind::Leaf => ArmName::Leaf { leaf: number },
        ArmKind::Spare => ArmName::Spare {
            spare: u32::try_from(number).unwrap_or(0),
        },
    }
}

/// The last group that an arm which comes now missed: the open one, or the greatest birth where that is greater.
pub(crate) fn last_missed<R: Rack, A: Area>(shard: &Shard<R, A>) -> u64
    requires valid { Valid R.Rack shard.now }
    ensures range { result < 2 ^ 48 }
    ensures last { (w : machine.State) → IsIn shard.now w → IsLast w result }
{
    let birth = shard.greatest_birth();
    if birth < shard.open_group {
        shard.open_group
    } else {
        birth
    }
}

/// Whether a rebuild, where there is one, can be planned again.
pub fn can_replan<R: Rack, A: Area>(shard: &Shard<R, A>) -> bool
    ensures { IsTrue result ↔ MayReplan shard.now.pass shard.now.last_pass shard.now.open_group }
{
    shard.rebuild().is_none() || (shard.last_pass < LAST_NUMBER && shard.open_group < LAST_NUMBER)
}

/// How many reserved events an attachment uses.
pub fn attach_events<R: Rack, A: Area>(shard: &Shard<R, A>) -> u32
    ensures { result ≡ attach_events shard.now.pass }
{
    match &shard.pass {
        Some(pass) if matches!(pass.kind, PassKind::Rebuild) && pass.running => 2,
        _ => 1,
    }
}

/// Gives a slot one more arm, which is no arm yet. A rebuild is planned again then, and a scrub loses the targets that
/// came to lie elsewhere. Events and room in memory are reserved for it.
pub fn attach<R: Rack, A: Area>(
    shard: &mut Shard<R, A>,
    slot: u32,
    kind: ArmKind,
    number: u64,
) -> Result<(), SlotFault>
    requires valid { Valid R.Rack shard.old }
    requires reserved { attach_events shard.old.pass ≤ reserved_of shard.old.history }
    requires room { HasArmRoom shard.old }
    requires leaf { IsNewLeaf R.Rack shard.old kind number }
    ensures valid { Valid R.Rack shard.new }
    ensures kit { SameKit shard.old shard.new }
    ensures event { OnOk result (Does shard.old shard.new (Attach slot (named kind number))) }
    ensures acts { OnOk result ((pieces : Pieces) → ActsOn R.Rack shard.old shard.new (Attach slot (named kind number)) pieces) }
    ensures arms { OnOk result (HasAttached shard.old.slots shard.new.slots slot (arm_called kind number)) }
    ensures reserve { OnOk result (Uses shard.old.history shard.new.history (attach_events shard.old.pass)) }
    ensures left { OnOk result (TakesRoomOfOne shard.old shard.new) }
    ensures keeps { KeepsBlocks shard.old shard.new }
    ensures refused { IfErr result (IsComingRefused shard.old slot (arm_called kind number)) }
    ensures same { OnErr result (shard.new ≡ shard.old) }
{
    let arm = Arm {
        kind,
        number,
        offline: false,
        fresh: false,
    };
    shard.slots.may_attach(slot, arm)?;
    if !can_replan(shard) {
        return Err(SlotFault::Last);
    }
    let passed = u64::from(attach_events(shard)) - 1;
    let upto = last_missed(shard);
    let moved = shard.slots.attach(slot, arm, upto)?;
    renew(&mut shard.slots, &moved, shard.geometry.spec.spares, upto);
    replan(
        &mut shard.slots,
        &mut shard.pass,
        &mut shard.last_pass,
        shard.open_group,
        &moved,
    );
    drop_loan(&mut shard.kept, &mut shard.history);
    let arm = called(kind, number);
    shard
        .history
        .add_reserved(Event::Attach { slot, arm }, passed);
    Ok(())
}
