ghost use Rattle.std.specs.Prelude.{◌≡◌, ◌<◌, ℕ, Some};
ghost use Rattle.draid_names.specs.declared.arm.Arm.{Arm};
ghost use Rattle.draid_names.specs.declared.arm.ArmAt.{ArmAt};
ghost use Rattle.draid_names.specs.declared.refusal.SlotFault.{SlotFault};
ghost use Rattle.draid_slots.specs.Faults.{IsDetachRefused, MayAttach, MayDetach};
ghost use Rattle.draid_slots.specs.Table.{SlotTable, arm_at};
ghost use Rattle.draid_shard.specs.Alike.{ShareArms};
ghost use Rattle.draid_shard.specs.declared.shard.Shard.{Shard};
ghost use Rattle.draid_disks.specs.Disks.{HasAttached, HasDetached, IsComingRefused};
ghost use Rattle.draid_disks.specs.Replanning.{MayReplan};

use draid_area::Area;
use draid_rack::Rack;

/// Law: an arm that may come, where a rebuild can be planned again, isn't refused, and neither is one that may go.
pub fn refusals_have_causes<R: Rack, A: Area>()
    ensures attach { (shard : Shard R A) (slot : ℕ) (arm : Arm) (fault : SlotFault) → MayAttach shard.slots slot arm → MayReplan shard.pass shard.last_pass shard.open_group
        → IsComingRefused shard slot arm fault → ⊥ }
    ensures detach { (slots : SlotTable) (at : ArmAt) (fault : SlotFault) → MayDetach slots at → IsDetachRefused slots at fault → ⊥ }
{}

/// Law: metaslabs that have the same arms have the same behind an attachment in both, and behind a detachment in both.
pub fn changes_keep_arms_shared()
    ensures attach { (a b c d : SlotTable) (slot : ℕ) (arm : Arm) → c.geometry ≡ a.geometry → d.geometry ≡ b.geometry → ShareArms a b
        → HasAttached a c slot arm → HasAttached b d slot arm → ShareArms c d }
    ensures detach { (a b c d : SlotTable) (at : ArmAt) (group : ℕ) (x y : Arm) → c.geometry ≡ a.geometry → d.geometry ≡ b.geometry → at.slot < a.geometry.spec.children
        → arm_at a at ≡ Some x → arm_at b at ≡ Some y → ShareArms a b → HasDetached a c at group → HasDetached b d at group → ShareArms c d }
{}
