ghost use Rattle.std.specs.Prelude.{◌≡◌, true, false};
ghost use Rattle.draid_machine.specs.State.{State};
ghost use Rattle.draid_machine.specs.Step.{DamageStep, SwitchStep};
ghost use Rattle.draid_world.specs.World.{site_layout, state_of};

use draid_machine::ArmName;
use draid_world::arms::{set_offline, slot_with};
use draid_world::{Site, World};

/// Takes a leaf that is there offline, or online.
pub fn switch(world: &mut World, leaf: u64, offline: bool) -> bool
    ensures legal { result ≡ true → SwitchStep (state_of world.old) leaf offline (state_of world.new) }
    ensures illegal { result ≡ false → (new : State) → SwitchStep (state_of world.old) leaf offline new → ⊥ }
{
    let name = ArmName::Leaf { leaf };
    if slot_with(&world.tables.order, name).is_none() || !world.tables.is_known(name) {
        return false;
    }
    set_offline(&mut world.tables.arms, name, offline);
    true
}

/// Whether a sector may be damaged: its leaf is an arm, or was one and its detachment isn't committed.
pub fn may_damage(site: &Site, world: &World, leaf: u64, sector: u64) -> bool
    ensures legal { result ≡ true → DamageStep (site_layout site.now) (state_of world.now) leaf sector (state_of world.now) }
    ensures illegal { result ≡ false → (new : State) → DamageStep (site_layout site.now) (state_of world.now) leaf sector new → ⊥ }
{
    let sectors = site.geometry.metaslab_sectors();
    sector < sectors && world.tables.is_known(ArmName::Leaf { leaf })
}
