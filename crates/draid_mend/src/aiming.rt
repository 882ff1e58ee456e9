//! The columns of a stripe in whose slots a rebuild has targets.
ghost use Rattle.std.specs.Prelude.{◌≡◌, ◌+◌, ◌%◌, ◌<◌, ◌≤◌, ℕ, IfSome, Some, length};
ghost use Rattle.draid_map.specs.Place.{IsLayout};
ghost use Rattle.draid_shard.specs.Part.{IsPart, IsRun};
ghost use Rattle.draid_shard.specs.States.{part_of};
ghost use Rattle.draid_mend.specs.Aiming.{AreAimed, IsColumnOn, IsFrontOf};
ghost use Rattle.draid_mend.specs.Targets.{AreThere};

use draid_area::Area;
use draid_names::{ArmAt, Pointer};
use draid_perm::Perms;
use draid_rack::Rack;
use draid_shard::Shard;
use draid_spec::Geometry;

/// How many columns a stripe may have.
pub(crate) const MOST_COLUMNS: usize = 64;

/// Where a stripe begins: its slice of the pool, and the position of its first column there.
#[derive(Clone, Copy)]
pub(crate) struct Front {
    pub slice: u64,
    pub position: u32,
}

/// Marks the columns of a stripe in whose slots targets are.
pub(crate) fn aimed_columns<R: Rack, A: Area>(
    shard: &Shard<R, A>,
    pointer: &Pointer,
    targets: &[ArmAt],
) -> [bool; MOST_COLUMNS]
    requires part { IsPart (part_of shard.now) }
    requires run { IsRun shard.now.geometry pointer.now.first pointer.now.stripes }
    requires slots { shard.now.slots.geometry ≡ shard.now.geometry }
    requires there { AreThere shard.now.slots targets.now }
    ensures long { length result ≡ 64 }
    ensures aimed { AreAimed (part_of shard.now) pointer.now.first targets.now (length targets.now) result }
{
    let geometry = shard.slots.geometry();
    let front = front_of(shard, pointer);
    let mut marks = [false; MOST_COLUMNS];
    for i in 0..targets.len() {
        if let Some(column) = column_on(geometry, &shard.perms, front, targets[i].slot) {
            marks[column as usize] = true;
        }
    }
    marks
}

/// Where the stripe of a pointer begins.
fn front_of<R: Rack, A: Area>(shard: &Shard<R, A>, pointer: &Pointer) -> Front
    requires part { IsPart (part_of shard.now) }
    requires run { IsRun shard.now.geometry pointer.now.first pointer.now.stripes }
    ensures { IsFrontOf (part_of shard.now) pointer.now.first result }
{
    let number = u64::from(shard.number);
    let height = u64::from(shard.geometry.props.height);
    let ngroups = u64::from(shard.geometry.ngroups);
    let stripe = number * shard.geometry.metaslab_stripes() + pointer.first;
    let before = (stripe / height % ngroups) as u32 * shard.geometry.g;
    Front {
        slice: stripe / (height * ngroups),
        position: before % shard.geometry.ndisks,
    }
}

/// The column on a slot of a stripe that begins there, if it has one.
fn column_on(geometry: &Geometry, perms: &Perms, front: Front, slot: u32) -> Option<u32>
    requires layout { IsLayout geometry.now perms.now }
    requires front { front.position < geometry.now.ndisks }
    requires slot { slot < geometry.now.spec.children }
    ensures some { IfSome result (IsColumnOn geometry.now perms.now front slot) }
    ensures only { (column : ℕ) → IsColumnOn geometry.now perms.now front slot column → result ≡ Some column }
{
    let position = perms.position(front.slice, slot);
    if position >= geometry.ndisks {
        return None;
    }
    let column = steps_to(position, front.position, geometry.ndisks);
    if column < geometry.g {
        Some(column)
    } else {
        None
    }
}

/// By how many steps round so many disks a position is reached from another.
fn steps_to(position: u32, from: u32, disks: u32) -> u32
    requires position { position < disks }
    requires from { from < disks }
    requires few { disks ≤ 64 }
    ensures below { result < disks }
    ensures reached { (from + result) % disks ≡ position }
{
    if position < from {
        position + disks - from
    } else {
        position - from
    }
}
