//! The arms from which the columns of a stripe were taken, by their names.
ghost use Rattle.std.specs.Prelude.{◌≡◌, ◌<◌, ℕ, Some, true};
ghost use Rattle.draid_slots.specs.States.{name_of};
ghost use Rattle.draid_slots.specs.Table.{IsThere, is_spare_kind};
ghost use Rattle.draid_mend.specs.Loans.{source_in};
ghost use Rattle.draid_mend.specs.declared.reading.Taken.TheVariants.{From};

use crate::reading::Taken;
use draid_machine::ArmName;
use draid_names::{Arm, ArmKind};
use draid_shard::Source;
use draid_slots::Slots;

/// Names the arm of a slot from which a column was taken.
pub(crate) fn source_of(slots: &Slots, slot: u32, taken: Taken) -> Option<Source>
    requires slot { slot < slots.now.geometry.spec.children }
    requires there { (arm leaf : ℕ) → taken ≡ From arm leaf → IsThere slots.now (record { slot = slot; arm = arm }) }
    ensures { result ≡ source_in slots.now slot (Some taken) }
{
    match taken {
        Taken::Nowhere | Taken::Failed { .. } => None,
        Taken::From { arm, leaf } => {
            let spares = slots.geometry().spec.spares;
            let found = slots.arms(slot)[arm as usize];
            let arm = name_of(found, spares);
            Some(Source { arm, leaf })
        }
    }
}

/// What an arm is. A spare's number is below that of the spares.
fn name_of(arm: Arm, spares: u32) -> ArmName
    requires low { is_spare_kind arm.kind ≡ true → arm.number < spares }
    ensures { result ≡ name_of arm }
{
    match arm.kind {
        ArmKind::Leaf => ArmName::Leaf { leaf: arm.number },
        ArmKind::Spare => ArmName::Spare {
            spare: arm.number as u32,
        },
    }
}
