ghost use Rattle.std.specs.Prelude.{◌≡◌, ◌≤◌, ◌+◌, ◌^◌, All, IfOk, IsErrOf, OnOk, option_map};
ghost use Rattle.draid_area.specs.Area.{OnTold, flushes, writes};
ghost use Rattle.draid_names.specs.Faults.{Rose};
ghost use Rattle.draid_names.specs.declared.fault.DeviceFault.{DeviceFault};
ghost use Rattle.draid_names.specs.declared.pointer.Pointer.{Pointer};
ghost use Rattle.draid_machine.specs.After.{image_of};
ghost use Rattle.draid_machine.specs.State as machine;
ghost use Rattle.draid_record.specs.Record.{told_record};
ghost use Rattle.draid_stable.specs.Images.{image_by};
ghost use Rattle.draid_stable.specs.Sealing.{AreTables, IsMade, IsReady};
ghost use Rattle.draid_stable.specs.Stable.{Stands};
ghost use Rattle.draid_shard.specs.Fits.{Valid};
ghost use Rattle.draid_pool.specs.Sealing.{area_by, head_of};

use draid_area::{Area, DeviceFault};
use draid_names::NoMemory;
use draid_rack::Rack;
use draid_record::{Record, write_record};
use draid_shard::Shard;
use draid_stable::{Head, record_of_tables};
use std::alloc::Global;

/// The record of a group, of the blocks, arms and pass as they are now.
pub fn record_of<R: Rack, A: Area>(shard: &Shard<R, A>, group: u64) -> Result<Record, NoMemory>
    requires valid { Valid R.Rack shard.now }
    ensures image { IfOk result (λ made. (q : machine.Core) → AreTables shard.now.entries shard.now.slots shard.now.pass shard.now.last_pass q
        → image_by (told_record made) ≡ image_of group shard.now.asked q) }
    ensures ready { IfOk result IsReady }
    ensures made { IfOk result (IsMade (head_of shard.now group) shard.now.entries shard.now.slots shard.now.pass shard.now.last_pass) }
{
    let head = Head {
        version: shard.asked,
        metaslab: shard.number,
        group,
    };
    record_of_tables(
        shard.alloc,
        head,
        &shard.entries,
        &shard.slots,
        &shard.pass,
        shard.last_pass,
    )
}

/// Writes the record of a group to its area, of the two, and flushes that.
pub fn write_to<A: Area>(
    alloc: Global,
    even: &mut A,
    odd: &mut A,
    group: u64,
    made: &Record,
) -> Result<(), DeviceFault>
    requires { All (λ (b : Pointer). b.first + b.stripes ≤ 2 ^ 49) made.now.blocks.items }
    ensures stands { OnOk result (OnTold (A.told (area_by even.new odd.new group)) (Stands (told_record made.now))) }
    ensures other { area_by even.new odd.new (group + 1) ≡ area_by even.old odd.old (group + 1) }
    ensures even_later { A.faults even.old ≤ A.faults even.new }
    ensures odd_later { A.faults odd.old ≤ A.faults odd.new }
    ensures cause { IsErrOf result DeviceFault.Failed → Rose (A.faults (area_by even.old odd.old group)) (A.faults (area_by even.new odd.new group)) }
{
    let bytes = write_record(alloc, made)?;
    if group % 2 == 0 {
        put_record(even, &bytes)
    } else {
        put_record(odd, &bytes)
    }
}

/// Puts bytes at the front of an area, and flushes it.
fn put_record<A: Area>(area: &mut A, bytes: &[u8]) -> Result<(), DeviceFault>
    ensures told { OnOk result (A.told area.new ≡ option_map (λ x. flushes (writes 0 bytes.now x)) (A.told area.old)) }
    ensures later { A.faults area.old ≤ A.faults area.new }
    ensures cause { IsErrOf result DeviceFault.Failed → Rose (A.faults area.old) (A.faults area.new) }
{
    area.write(0, bytes)?;
    area.flush()
}
