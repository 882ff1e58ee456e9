ghost use Rattle.std.specs.Prelude.{◌≡◌, ◌<◌, ◌^◌, ℕ, IfOk};
ghost use Rattle.draid_ranges.specs.Numbers.{has};
ghost use Rattle.draid_ranges.specs.Runs.{AreApart};
ghost use Rattle.draid_slots.specs.Table.{IsTable};
ghost use Rattle.draid_stable.specs.Sealing.{CopiesSlot, CopiesSlots};

use draid_dtl::Log;
use draid_names::{Arm, ArmAt, NoMemory};
use draid_slots::Slots;
use std::alloc::Global;

/// An arm with another log of the same groups, in which there is room for one more.
fn roomy(alloc: Global, arm: Arm, log: &Log) -> Result<(Arm, Log), NoMemory>
    ensures arm { IfOk result (λ copy. copy.0 ≡ arm) }
    ensures same { IfOk result (λ copy. (group : ℕ) → has copy.1 group ≡ has log.now group) }
    ensures small { IfOk result (λ copy. copy.0.number < 2 ^ 64) }
    ensures apart { IfOk result (λ copy. AreApart copy.1.runs) }
    ensures room { IfOk result (λ copy. 0 < copy.1.room) }
{
    let mut copy = Log::of(Vec::from_slice(alloc, log.runs())?);
    copy.reserve(1)?;
    Ok((arm, copy))
}

/// The arms of a slot in order, with their logs.
fn copied_slot(alloc: Global, slots: &Slots, slot: u32) -> Result<Vec<(Arm, Log)>, NoMemory>
    requires { slot < slots.now.geometry.spec.children }
    ensures { IfOk result (λ list. CopiesSlot slots.now slot list.items) }
{
    let mut list = Vec::new(alloc);
    for arm in 0..slots.arms(slot).len() as u32 {
        let log = slots.log(ArmAt { slot, arm });
        list.push(roomy(alloc, slots.arms(slot)[arm as usize], log)?)?;
    }
    Ok(list)
}

/// Each slot's arms in order, with their logs, in each of which there is room for one more group.
pub fn copied_slots(alloc: Global, slots: &Slots) -> Result<Vec<Vec<(Arm, Log)>>, NoMemory>
    ensures copies { IfOk result (λ lists. CopiesSlots slots.now lists.items) }
    ensures sound { IfOk result (λ lists. IsTable slots.now) }
{
    let mut lists = Vec::new(alloc);
    for slot in 0..slots.children() {
        lists.push(copied_slot(alloc, slots, slot)?)?;
    }
    Ok(lists)
}
