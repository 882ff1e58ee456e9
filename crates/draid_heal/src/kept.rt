//! What is kept of a scrub's loan lands.
ghost use Rattle.std.specs.Prelude.{◌≡◌, ◌+◌, ◌*◌, Some, count_by, filter, length};
ghost use Rattle.std.specs.List.{list_any};
ghost use Rattle.draid_block.specs.Blocks.{column_len, cut_of};
ghost use Rattle.draid_shard.specs.Loans.{IsLandingRoom, IsLentBlock};
ghost use Rattle.draid_shard.specs.Part.{IsRun};
ghost use Rattle.draid_heal.specs.Lands.{LandsOr, LandsRestored, has_rows, is_noted, is_rewritten};
ghost use Rattle.draid_shard.specs.Spots.{IsLaid};

use crate::block::land_block;
use draid_area::Area;
use draid_block::Encoded;
use draid_machine::Patched;
use draid_names::Pointer;
use draid_pass::Pass;
use draid_plans::lose_marked;
use draid_rack::Rack;
use draid_shard::{
    LandingRoom, LentBlock, Shard, extent_of, list_spots, missed_marks, more_errors,
};

/// Lands the block that is kept of a loan. Where it couldn't be restored nothing is written, and one error is counted. The
/// answer is on how many arms a sector landed.
pub(crate) fn land_kept<R: Rack, A: Area>(
    shard: &mut Shard<R, A>,
    pass: &mut Pass,
    lent: &mut LentBlock,
) -> u64
    requires laid { IsLaid R.Rack shard.old }
    requires lent { IsLentBlock shard.old.geometry (Some pass.old) lent.old }
    ensures rest { lent.new ≡ record lent.old { room = lent.new.room } }
    ensures lands { LandsOr R.Rack shard.old shard.new pass.old pass.new lent.old.pointer lent.old.restored lent.new.room.patched.items lent.new.room.failed.items result }
{
    let Some(block) = &lent.restored else {
        pass.errors = more_errors(pass.errors, 1);
        return 0;
    };
    land_restored(shard, pass, &lent.pointer, block, &mut lent.room)
}

/// Lands a block that was restored. The pass loses the targets that miss it.
fn land_restored<R: Rack, A: Area>(
    shard: &mut Shard<R, A>,
    pass: &mut Pass,
    pointer: &Pointer,
    block: &Encoded,
    room: &mut LandingRoom,
) -> u64
    requires laid { IsLaid R.Rack shard.old }
    requires run { IsRun shard.old.geometry pointer.now.first pointer.now.stripes }
    requires cut { block.now.cut ≡ cut_of shard.old.geometry }
    requires long { column_len block.now.cut (length block.now.bytes) ≡ pointer.now.stripes * shard.old.geometry.props.sector }
    requires room { IsLandingRoom shard.old.geometry pointer.now.stripes room.old }
    ensures lands { LandsRestored R.Rack shard.old shard.new pass.old pass.new pointer.now block.now.columns room.new.patched.items room.new.failed.items result }
{
    let answered = list_spots(shard, pointer, &mut room.spots);
    let extent = extent_of(&shard.slots, pointer);
    land_block(&mut shard.rack, answered, block, extent, room);
    let rewritten = count_rewritten(&room.patched);
    keep_noted(&mut room.patched, &mut room.parts);
    let marks = missed_marks(shard, pointer, &room.failed);
    lose_marked(pass, &marks);
    pass.errors = more_errors(pass.errors, room.failed.len() as u64);
    rewritten
}

/// On how many arms a row landed.
fn count_rewritten(parts: &[Patched]) -> u64
    ensures { result ≡ count_by is_rewritten parts.now }
{
    let mut count = 0;
    for part in parts {
        if is_rewritten(part) {
            count += 1;
        }
    }
    count
}

/// Takes out the arms on which no row was written. Where none stays the room of all goes to the other parts.
fn keep_noted(patched: &mut Vec<Patched>, parts: &mut Vec<Patched>)
    ensures { patched.new.items ≡ filter is_noted patched.old.items }
{
    if has_noted(patched) {
        patched.retain(|part| is_noted(part));
        return;
    }
    // (they fit where they were taken from)
    let _fits = parts.append(patched).is_ok();
    patched.clear();
}

/// Whether a row was written on one of them.
fn has_noted(parts: &[Patched]) -> bool
    ensures { result ≡ list_any is_noted parts.now }
{
    parts.iter().any(|part| is_noted(part))
}

/// Whether a row was written on an arm.
fn is_noted(part: &Patched) -> bool
    ensures { result ≡ is_noted part.now }
{
    has_rows(&part.written)
}

/// Whether a row landed on one.
fn is_rewritten(part: &Patched) -> bool
    ensures { result ≡ is_rewritten part.now }
{
    has_rows(&part.landed)
}

/// Whether a list has any.
#[tactic(auto, using(crate::proofs::Rewritten::has_rows_is))]
fn has_rows(rows: &[u32]) -> bool
    ensures { result ≡ has_rows rows.now }
{
    !rows.is_empty()
}
