ghost use Rattle.std.specs.Prelude.{◌≡◌, ◌<◌, ◌⊎◌, ℕ, Some, IfOk, IsErrOf, IsTrue, OnOk, false, length, nat_eq, true};
ghost use Rattle.std.specs.HashMap.{get};
ghost use Rattle.draid_record.specs.declared.fault.RecordFaultKind.{RecordFaultKind};
ghost use Rattle.draid_names.specs.declared.pointer.Pointer.{Pointer};
ghost use Rattle.draid_entries.specs.Maps.{key_of};
ghost use Rattle.draid_shard.specs.Fits.{Valid};
ghost use Rattle.draid_found.specs.Found.{AllLive, AreFound, AreReady, KeepsNewer, Notes, NotesOne, Reaches};
ghost use Rattle.draid_found.specs.Together.{AreApart, AreTogether, IsNotedTwice, IsUnnoted, NotesJust, NotesJustOf, noted_in};

use crate::alike::are_alike;
use crate::fault::FoundFault;
use draid_area::Area;
use draid_names::{NoMemory, Pointer};
use draid_rack::Rack;
use draid_record::{BLOCK_BYTES, RecordFaultKind, SLOT_COUNT_AT};
use draid_shard::Shard;
use std::alloc::Global;
use std::collections::{HashMap, HashSet};

/// Whether a block is newer than that of its object which was noted.
fn is_newer(newest: &HashMap<u64, Pointer>, pointer: &Pointer) -> bool
    ensures newer { IsTrue result → (p : Pointer) → get nat_eq newest.now pointer.now.object ≡ Some p → p.seq < pointer.now.seq }
    ensures older { result ≡ false → Reaches (get nat_eq newest.now) pointer.now.object pointer.now.seq }
{
    match newest.get(&pointer.object) {
        Some(earlier) => earlier.seq < pointer.seq,
        None => true,
    }
}

/// Keeps a block in mind, unless one of its object was noted that is as new.
pub fn keep_newer(newest: &mut HashMap<u64, Pointer>, pointer: Pointer) -> Result<(), NoMemory>
    ensures keeps { OnOk result (KeepsNewer pointer (get nat_eq newest.old) (get nat_eq newest.new)) }
{
    if is_newer(newest, &pointer) {
        newest.insert(pointer.object, pointer)?;
    }
    Ok(())
}

/// What the records of a pool's metaslabs say of its objects.
#[derive(Drop)]
pub struct Found {
    /// The newest block of each object.
    pub newest: HashMap<u64, Pointer>,
    /// The object and the number of each block.
    keys: HashSet<(u64, u64)>,
    /// The greatest number of a write, 0 where there is no block.
    pub seq: u64,
}

impl Found {
    /// Notes a block. The answer is whether no other has its object and number.
    fn note(&mut self, pointer: Pointer) -> Result<bool, NoMemory>
        ensures keys { OnOk result (NotesJust pointer (noted_in self.old.keys) (noted_in self.new.keys)) }
        ensures again { IfOk result (λ new. new ≡ false → noted_in self.old.keys (key_of pointer) ≡ true) }
        ensures fresh { IfOk result (λ new. IsTrue new → noted_in self.old.keys (key_of pointer) ≡ false) }
        ensures noted { IfOk result (λ new. IsTrue new → NotesOne pointer (get nat_eq self.old.newest) (get nat_eq self.new.newest) self.old.seq self.new.seq) }
    {
        if !self.keys.insert((pointer.object, pointer.seq))? {
            return Ok(false);
        }
        self.seq = self.seq.max(pointer.seq);
        keep_newer(&mut self.newest, pointer)?;
        Ok(true)
    }

    /// Notes all blocks of a metaslab.
    fn note_all<R: Rack, A: Area>(&mut self, shard: &Shard<R, A>) -> Result<(), FoundFault>
        requires valid { Valid R.Rack shard.now }
        requires live { AllLive shard.now }
        ensures noted { OnOk result (Notes shard.now (get nat_eq self.old.newest) (get nat_eq self.new.newest) self.old.seq self.new.seq) }
        ensures keys { OnOk result (NotesJustOf shard.now (noted_in self.old.keys) (noted_in self.new.keys)) }
        ensures fresh { OnOk result (IsUnnoted shard.now (noted_in self.old.keys)) }
        // The block for which it is refused is the first that was noted before.
        ensures again { (metaslab place : ℕ) (kind : RecordFaultKind) → IsErrOf result (FoundFault.Record metaslab place kind) → IsNotedTwice shard.now (noted_in self.old.keys) (Some metaslab) place kind }
    {
        let mut from = 0;
        let mut at = shard.blocks_at();
        while let Some(pointer) = shard.next_held(from) {
            match self.note(pointer) {
                Ok(true) => {}
                Ok(false) => {
                    return Err(FoundFault::Record {
                        metaslab: shard.number,
                        at,
                        kind: RecordFaultKind::Twice,
                    });
                }
                Err(NoMemory) => return Err(FoundFault::NoMemory),
            }
            from = pointer.first + 1;
            at = at.saturating_add(BLOCK_BYTES);
        }
        Ok(())
    }
}

/// What the records of all metaslabs say of the objects.
pub fn find_blocks<R: Rack, A: Area>(
    alloc: Global,
    shards: &[Shard<R, A>],
) -> Result<Found, FoundFault>
    requires ready { AreReady R.Rack shards.now }
    ensures found { IfOk result (λ found. AreFound shards.now (get nat_eq found.newest) found.seq) }
    ensures together { OnOk result (AreTogether shards.now (length shards.now)) }
    // A record for which it is refused has the first fault.
    ensures faulty { (metaslab place : ℕ) (kind : RecordFaultKind) → IsErrOf result (FoundFault.Record metaslab place kind) → AreApart shards.now (Some metaslab) place kind }
{
    let mut found = Found {
        newest: HashMap::new(alloc),
        keys: HashSet::new(alloc),
        seq: 0,
    };
    for shard in shards {
        if !are_alike(&shards[0], shard) {
            return Err(FoundFault::Record {
                metaslab: shard.number,
                at: SLOT_COUNT_AT,
                kind: RecordFaultKind::Arms,
            });
        }
        match found.note_all(shard) {
            Ok(()) => {}
            Err(fault) => return Err(fault),
        }
    }
    Ok(found)
}
