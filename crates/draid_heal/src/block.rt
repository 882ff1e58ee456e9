//! A restored block lands.
ghost use Rattle.std.specs.Prelude.{◌≡◌, ◌+◌, ◌*◌, ◌<◌, ◌^◌, length, true, false};
ghost use Rattle.draid_block.specs.Blocks.{column_len};
ghost use Rattle.draid_shard.specs.Calls.{CountsFailed};
ghost use Rattle.draid_rack.specs.Rack.{OnBothTold};
ghost use Rattle.draid_shard.specs.Spots.{FitSpots};
ghost use Rattle.draid_heal.specs.Arms.{FitsRoom, ListsArms};
ghost use Rattle.draid_heal.specs.Settle.{AreFine};
ghost use Rattle.draid_heal.specs.Stands.{LandsRows};

use crate::arms::heal_arms;
use crate::settle::{are_fine, settle_arms};
use draid_block::Encoded;
use draid_rack::Rack;
use draid_shard::{Extent, LandingRoom, Spot};

/// Puts the columns of a restored block right on its arms that answer. Where each of its clean arms does, and no call on one
/// failed, the landing is whole, and the harm of all this ends.
pub(crate) fn land_block<R: Rack>(
    rack: &mut R,
    answered: bool,
    block: &Encoded,
    extent: Extent,
    room: &mut LandingRoom,
) -> bool
    requires spots { FitSpots (R.shape rack.old) extent.count extent.size (block.now.cut.parity + block.now.cut.ndata) room.old.spots.items }
    requires few { extent.count < 2 ^ 32 }
    requires long { column_len block.now.cut (length block.now.bytes) ≡ extent.count * extent.size }
    requires room { FitsRoom extent.count extent.size room.old }
    ensures lands { OnBothTold (R.told rack.old) (R.told rack.new) (LandsRows extent.count extent.size room.old.spots.items room.new.patched.items block.now.columns room.new.failed.items result) }
    ensures lists { ListsArms extent.count extent.size room.old.spots.items room.new.patched.items (length room.old.spots.items) room.new.failed.items }
    ensures yes { result ≡ true → (answered ≡ true) × AreFine room.old.spots.items room.new.failed.items }
    ensures no { result ≡ false → (answered ≡ true) → AreFine room.old.spots.items room.new.failed.items → ⊥ }
    ensures counts { CountsFailed room.new.failed.items (R.faults rack.old) (R.faults rack.new) }
    ensures shape { R.shape rack.new ≡ R.shape rack.old }
{
    heal_arms(rack, block, extent, room);
    let whole = is_whole(answered, &room.spots, &room.failed);
    if whole {
        settle_arms(rack, &room.spots, &room.patched, extent);
    }
    whole
}

/// Whether the landing is whole.
fn is_whole(answered: bool, spots: &[Spot], failed: &[u64]) -> bool
    ensures yes { result ≡ true → (answered ≡ true) × AreFine spots.now failed.now }
    ensures no { result ≡ false → (answered ≡ true) → AreFine spots.now failed.now → ⊥ }
{
    if !answered {
        return false;
    }
    are_fine(spots, failed)
}
