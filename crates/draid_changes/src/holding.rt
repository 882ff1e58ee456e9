//! What a change of a leaf does to one metaslab in a hold.
ghost use Rattle.std.specs.Prelude.{◌↔◌, IsTrue};
ghost use Rattle.draid_slots.specs.Table.{IsTable};
ghost use Rattle.draid_disks.specs.Disks.{IsLeafArm};
ghost use Rattle.draid_changes.specs.Walks.{MaySwitch, Switches};

use draid_area::Area;
use draid_entries::ReserveFault;
use draid_names::ArmKind;
use draid_pool::GROUPS;
use draid_rack::Rack;
use draid_shard::Shard;
use draid_turn::Act;

/// Whether a leaf is an arm of a slot.
fn is_arm<R: Rack, A: Area>(shard: &Shard<R, A>, leaf: u64) -> bool
    ensures arm { IsTrue result ↔ IsLeafArm shard.now.slots leaf }
    ensures sound { IsTable shard.now.slots }
{
    let children = shard.slots.children();
    match shard.slots.find(ArmKind::Leaf, leaf) {
        Some(at) => at.slot < children,
        None => false,
    }
}

/// Takes a leaf that is an arm offline or online in a metaslab.
fn switch_in<R: Rack, A: Area>(shard: &mut Shard<R, A>, leaf: u64, offline: bool)
    requires { MaySwitch R.Rack leaf shard.old }
    ensures { Switches R.Rack leaf offline shard.old shard.new }
{
    if offline {
        draid_disks::offline(shard, leaf);
    } else {
        draid_disks::online(shard, leaf);
    }
}

/// A look at whether a leaf is an arm of a metaslab.
#[derive(Drop)]
pub(crate) struct LeafOp {
    pub leaf: u64,
    pub out: bool,
}

impl<R: Rack, A: Area> Act<Shard<R, A>> for LeafOp {
    ghost use Rattle.std.specs.Prelude.{None};
    ghost use Rattle.draid_shard.specs.Fits.{Valid};
    ghost use Rattle.draid_changes.specs.Switching.{SeesLeaf};

    ghost needs = { λ _ s. Valid R.Rack s };

    ghost relates = { λ o s o' s'. SeesLeaf o.leaf o'.out s s' };

    ghost concerns = { λ _. None };

    fn concerned(&self) -> Option<u64> {
        None
    }

    fn act(&mut self, shard: &mut Shard<R, A>) {
        self.out = is_arm(shard, self.leaf);
    }
}

/// The reserving of an event in a metaslab for a change of its arms.
#[derive(Drop)]
pub(crate) struct ReserveOp {
    pub out: Option<Result<(), ReserveFault>>,
}

impl<R: Rack, A: Area> Act<Shard<R, A>> for ReserveOp {
    ghost use Rattle.std.specs.Prelude.{Some, MatchOption};
    ghost use Rattle.draid_shard.specs.Fits.{Valid};
    ghost use Rattle.draid_pool.specs.Drifts.{groups_number};
    ghost use Rattle.draid_changes.specs.Switching.{ReservesOne};

    ghost needs = { λ _ s. Valid R.Rack s };

    ghost relates = { λ o s o' s'. MatchOption o'.out ⊥ (λ result. ReservesOne R.Rack s result s') };

    ghost concerns = { λ _. Some groups_number };

    fn concerned(&self) -> Option<u64> {
        Some(GROUPS)
    }

    fn act(&mut self, shard: &mut Shard<R, A>) {
        self.out = Some(draid_disks::reserve(shard, 1));
    }
}

/// The switching of a leaf that is an arm of a metaslab: it goes offline there, or comes back.
#[derive(Drop)]
pub(crate) struct SwitchOp {
    pub leaf: u64,
    pub offline: bool,
}

impl<R: Rack, A: Area> Act<Shard<R, A>> for SwitchOp {
    ghost use Rattle.std.specs.Prelude.{Some};
    ghost use Rattle.draid_pool.specs.Drifts.{groups_number};
    ghost use Rattle.draid_changes.specs.Walks.{MaySwitch, Switches};

    ghost needs = { λ o s. MaySwitch R.Rack o.leaf s };

    ghost relates = { λ o s o' s'. Switches R.Rack o.leaf o.offline s s' };

    ghost concerns = { λ _. Some groups_number };

    fn concerned(&self) -> Option<u64> {
        Some(GROUPS)
    }

    fn act(&mut self, shard: &mut Shard<R, A>) {
        switch_in(shard, self.leaf, self.offline);
    }
}
