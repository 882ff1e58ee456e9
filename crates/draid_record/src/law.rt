ghost use Rattle.std.specs.Prelude.{◌≡◌, ◌<◌, ◌≤◌, ◌++◌, ◌%◌, ℕ, List, Ok, drop, length, slice_index_or};
ghost use Rattle.byteorder.specs.Endian.{big_number};
ghost use Rattle.draid_names.specs.declared.numbers.TheConstants.{NUMBERS};
ghost use Rattle.draid_record.specs.declared.limits.Limits.{Limits};
ghost use Rattle.draid_record.specs.declared.uber.UberBody.{UberBody};
ghost use Rattle.draid_record.specs.Grammar.{Spells};
ghost use Rattle.draid_record.specs.Reading.{read};
ghost use Rattle.draid_record.specs.Ranges.{IsRanged};
ghost use Rattle.draid_record.specs.Record.{AreLimits, RecordTold, Spelled, record_of};
ghost use Rattle.draid_record.specs.Uber.{IsUber, told, uber};
ghost use Rattle.draid_record.specs.Written.{IsRecord, IsWhole};

/// Law: a value in the ranges of a record is spelled by the bytes that are written of it.
#[tactic(auto, using(crate::proofs::Ranged::ranged_spelled))]
pub fn values_in_range_are_spelled()
    ensures { (limits : Limits) (value : RecordTold) → IsRanged limits value → IsRecord limits value }
{}

/// Law: what is written is read again as the same value, whatever stands behind it.
#[tactic(auto, using(crate::proofs::Again::record_again, crate::proofs::Again::uber_again))]
pub fn what_is_written_is_read()
    ensures record { (limits : Limits) (value : RecordTold) (bytes more : List ℕ) → IsWhole bytes value → IsRecord limits value
        → record_of limits (bytes ++ more) ≡ Ok value }
    ensures uber { (slot : ℕ) (body : UberBody) (bytes more : List ℕ) → Spells (uber slot) bytes body
        → told (length (bytes ++ more)) (read (uber slot) (bytes ++ more)) ≡ Ok body }
{}

/// Law: what a slot of the uberblock spells is in its ranges, and its group is one of that slot. Where one is read, the
/// gate is open, and the group stands from byte 7 on.
#[tactic(auto, using(crate::proofs::Again::uber_ranges, crate::proofs::Again::uber_slot, crate::proofs::Front::uber_front))]
pub fn uberblocks_keep_their_ranges()
    ensures ranges { (slot : ℕ) (body : UberBody) (bytes : List ℕ) → Spells (uber slot) bytes body → IsUber body }
    ensures slot { (slot : ℕ) (body : UberBody) (bytes : List ℕ) → Spells (uber slot) bytes body → body.group % 2 ≡ slot }
    ensures front { (slot : ℕ) (bytes : List ℕ) (body : UberBody) → told (length bytes) (read (uber slot) bytes) ≡ Ok body
        → (slice_index_or bytes 0 0 ≡ 90) × (big_number 8 (drop 7 bytes) ≡ body.group) }
{}

/// Law: what is spelled as a record is in the ranges of its fields, and its front has ten bytes.
pub fn what_is_spelled_is_in_range()
    ensures ranges { (limits : Limits) (bytes : List ℕ) (value : RecordTold) → AreLimits limits → limits.group < NUMBERS
        → Spelled limits bytes value → IsRanged limits value }
    ensures front { (limits : Limits) (bytes : List ℕ) (value : RecordTold) → Spelled limits bytes value → 10 ≤ length bytes }
{}
