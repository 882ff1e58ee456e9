ghost use Rattle.std.specs.Prelude.{◌≡◌, ◌≤◌, ◌+◌, ◌∷◌, [], ℕ, List, Option, Ok, Some, OnOk, OnErr, length, slice_index_or};
ghost use Rattle.draid_area.specs.Area.{Counts, OnTold};
ghost use Rattle.draid_area.specs.Moments.{ElapsesTold};
ghost use Rattle.draid_record.specs.declared.uber.UberBody.{UberBody};
ghost use Rattle.draid_record.specs.Uber.{IsUber};
ghost use Rattle.draid_uber.specs.Slots.{StandsTold, body_in, group_of, next_slot};
ghost use Rattle.draid_uber.specs.Steps.{IsFilled, IsShut, PutsTold};

use crate::slots::{OPEN, SLOT, base};
use draid_area::Area;
use draid_names::DeviceFault;
use draid_record::{UberBody, write_uber};

/// Writes bytes and flushes them.
fn put<A: Area>(area: &mut A, at: u64, bytes: &[u8]) -> Result<(), DeviceFault>
    requires place { at ≤ A.size area.old }
    ensures puts { PutsTold at bytes.now result (A.told area.old) (A.told area.new) }
    ensures moments { ElapsesTold (A.told area.old) (A.told area.new) }
    ensures grown { A.size area.old ≤ A.size area.new }
    ensures cause { Counts result (A.faults area.old) (A.faults area.new) }
{
    area.write(at, bytes)?;
    area.flush()
}

/// Flushes the area, and shuts the gate of the next slot where it is open. A gate that is shut isn't written, since a byte
/// written there could come out of a crash as an open gate.
pub(crate) fn shut<A: Area>(area: &mut A, slot: u32) -> Result<(), DeviceFault>
    requires slot { slot ≤ 1 }
    requires long { 1024 ≤ A.size area.old }
    ensures refused { (kept : Option UberBody) (pending : List UberBody) → next_slot kept ≡ slot → StandsTold kept pending (A.told area.old)
        → OnErr result (StandsTold kept pending (A.told area.new)) }
    ensures shut { (kept : Option UberBody) (pending : List UberBody) → next_slot kept ≡ slot → StandsTold kept pending (A.told area.old)
        → OnOk result (OnTold (A.told area.new) (IsShut kept slot)) }
    ensures moments { ElapsesTold (A.told area.old) (A.told area.new) }
    ensures grown { A.size area.old ≤ A.size area.new }
    ensures cause { Counts result (A.faults area.old) (A.faults area.new) }
{
    area.flush()?;
    let mut gate = [0];
    area.read(base(slot), &mut gate)?;
    if gate[0] == OPEN {
        return put(area, base(slot), &[0]);
    }
    Ok(())
}

/// Writes the body behind the gate, which is shut.
pub(crate) fn fill<A: Area>(area: &mut A, slot: u32, bytes: &[u8; SLOT]) -> Result<(), DeviceFault>
    requires slot { slot ≤ 1 }
    requires long { 1024 ≤ A.size area.old }
    ensures refused { (kept : Option UberBody) → next_slot kept ≡ slot → OnTold (A.told area.old) (IsShut kept slot)
        → OnErr result (StandsTold kept [] (A.told area.new)) }
    ensures filled { (kept : Option UberBody) → next_slot kept ≡ slot → OnTold (A.told area.old) (IsShut kept slot)
        → OnOk result (OnTold (A.told area.new) (IsFilled kept slot bytes.now)) }
    ensures moments { ElapsesTold (A.told area.old) (A.told area.new) }
    ensures grown { A.size area.old ≤ A.size area.new }
    ensures cause { Counts result (A.faults area.old) (A.faults area.new) }
{
    put(area, base(slot) + 1, &bytes[1..])
}

/// Opens the gate before a body.
pub(crate) fn open<A: Area>(area: &mut A, slot: u32) -> Result<(), DeviceFault>
    requires slot { slot ≤ 1 }
    requires long { 1024 ≤ A.size area.old }
    ensures refused { (kept : Option UberBody) (body : UberBody) (bytes : List ℕ) → next_slot kept ≡ slot → length bytes ≡ 51
        → slice_index_or bytes 0 0 ≡ 90 → body_in slot bytes ≡ Ok body → body.group ≡ 1 + group_of kept
        → OnTold (A.told area.old) (IsFilled kept slot bytes) → OnErr result (StandsTold kept (body ∷ []) (A.told area.new)) }
    ensures opened { (kept : Option UberBody) (body : UberBody) (bytes : List ℕ) → next_slot kept ≡ slot → length bytes ≡ 51
        → slice_index_or bytes 0 0 ≡ 90 → body_in slot bytes ≡ Ok body → body.group ≡ 1 + group_of kept
        → OnTold (A.told area.old) (IsFilled kept slot bytes) → OnOk result (StandsTold (Some body) [] (A.told area.new)) }
    ensures moments { ElapsesTold (A.told area.old) (A.told area.new) }
    ensures grown { A.size area.old ≤ A.size area.new }
    ensures cause { Counts result (A.faults area.old) (A.faults area.new) }
{
    put(area, base(slot), &[OPEN])
}

/// Shuts the slot of a group, the next one.
pub(crate) fn clear<A: Area>(area: &mut A, group: u64) -> Result<(), DeviceFault>
    requires long { 1024 ≤ A.size area.old }
    ensures refused { (kept : Option UberBody) (pending : List UberBody) → group ≡ 1 + group_of kept
        → StandsTold kept pending (A.told area.old) → OnErr result (StandsTold kept pending (A.told area.new)) }
    ensures shut { (kept : Option UberBody) (pending : List UberBody) → group ≡ 1 + group_of kept
        → StandsTold kept pending (A.told area.old) → OnOk result (StandsTold kept [] (A.told area.new)) }
    ensures moments { ElapsesTold (A.told area.old) (A.told area.new) }
    ensures grown { A.size area.old ≤ A.size area.new }
    ensures cause { Counts result (A.faults area.old) (A.faults area.new) }
{
    shut(area, (group % 2) as u32)
}

/// Writes a body into the slot of its group, the next one.
pub(crate) fn write<A: Area>(area: &mut A, body: &UberBody) -> Result<(), DeviceFault>
    requires body { IsUber body.now }
    requires long { 1024 ≤ A.size area.old }
    ensures refused { (kept : Option UberBody) (pending : List UberBody) → body.now.group ≡ 1 + group_of kept
        → StandsTold kept pending (A.told area.old) → OnErr result (StandsTold kept (body.now ∷ pending) (A.told area.new)) }
    ensures written { (kept : Option UberBody) (pending : List UberBody) → body.now.group ≡ 1 + group_of kept
        → StandsTold kept pending (A.told area.old) → OnOk result (StandsTold (Some body.now) [] (A.told area.new)) }
    ensures moments { ElapsesTold (A.told area.old) (A.told area.new) }
    ensures grown { A.size area.old ≤ A.size area.new }
    ensures cause { Counts result (A.faults area.old) (A.faults area.new) }
{
    let slot = (body.group % 2) as u32;
    let bytes = write_uber(body);
    shut(area, slot)?;
    fill(area, slot, &bytes)?;
    open(area, slot)
}
