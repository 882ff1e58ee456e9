//! The columns of a stripe of a metaslab are read for a loan, and the arms named from which they were taken.
ghost use Rattle.std.specs.Prelude.{◌≡◌, ◌+◌, ◌++◌, ◌∷◌, ◌<◌, ◌≤◌, [], ℕ, Option, length, vec_capacity, vec_len};
ghost use Rattle.draid_shard.specs.Calls.{CountsFailed};
ghost use Rattle.draid_shard.specs.Fits.{Valid};
ghost use Rattle.draid_shard.specs.Part.{IsRun};
ghost use Rattle.draid_shard.specs.Rows.{IsStripePlace};
ghost use Rattle.draid_shard.specs.States.{part_of};
ghost use Rattle.draid_mend.specs.Loans.{ReadsNamed};
ghost use Rattle.draid_mend.specs.Reading.{HasRoomFor, failed_with};

use crate::naming::source_of;
use crate::reading::{Taken, read_into};
use draid_area::Area;
use draid_names::Pointer;
use draid_parity::Stripe;
use draid_rack::Rack;
use draid_shard::{Shard, Source, StripePlace};

/// What was read of a stripe: its columns, of each the arm from which it was taken, and the leaves on which calls failed.
#[derive(Drop)]
pub(crate) struct Readings {
    pub columns: Stripe,
    pub chosen: Vec<Option<Source>>,
    pub failed: Vec<u64>,
}

/// Reads all columns of a stripe, each from its source, and names of each the arm from which it was taken, and the leaf.
pub(crate) fn read_stripe<R: Rack, A: Area>(
    shard: &mut Shard<R, A>,
    pointer: &Pointer,
    lent: &mut Readings,
)
    requires valid { Valid R.Rack shard.old }
    requires run { IsRun shard.old.geometry pointer.now.first pointer.now.stripes }
    requires one { pointer.now.stripes ≡ 1 }
    requires empty { (lent.old.chosen.items ≡ []) × (lent.old.failed.items ≡ []) }
    requires room { HasRoomFor shard.old.geometry lent.old }
    ensures rack { shard.new ≡ record shard.old { rack = shard.new.rack } }
    ensures told { R.told shard.new.rack ≡ R.told shard.old.rack }
    ensures shape { R.shape shard.new.rack ≡ R.shape shard.old.rack }
    ensures reads { ReadsNamed (part_of shard.old) shard.old.slots pointer.now shard.old.geometry.g (R.told shard.old.rack) lent.new.columns.columns lent.new.failed.items lent.new.chosen.items }
    ensures counts { CountsFailed lent.new.failed.items (R.faults shard.old.rack) (R.faults shard.new.rack) }
    ensures room { HasRoomFor shard.old.geometry lent.new }
{
    let place = shard.stripe_place(pointer);
    for column in 0..shard.geometry.g {
        read_next(shard, pointer, &place, column, lent);
    }
}

/// Reads the next one, and names its source.
fn read_next<R: Rack, A: Area>(
    shard: &mut Shard<R, A>,
    pointer: &Pointer,
    place: &StripePlace,
    column: u32,
    lent: &mut Readings,
)
    requires valid { Valid R.Rack shard.old }
    requires run { IsRun shard.old.geometry pointer.now.first pointer.now.stripes }
    requires place { IsStripePlace (part_of shard.old) pointer.now.first place.now }
    requires one { pointer.now.stripes ≡ 1 }
    requires less { column < shard.old.geometry.g }
    requires before { ReadsNamed (part_of shard.old) shard.old.slots pointer.now column (R.told shard.old.rack) lent.old.columns.columns lent.old.failed.items lent.old.chosen.items }
    requires room { HasRoomFor shard.old.geometry lent.old }
    ensures rack { shard.new ≡ record shard.old { rack = shard.new.rack } }
    ensures told { R.told shard.new.rack ≡ R.told shard.old.rack }
    ensures shape { R.shape shard.new.rack ≡ R.shape shard.old.rack }
    ensures read { ReadsNamed (part_of shard.old) shard.old.slots pointer.now (column + 1) (R.told shard.old.rack) lent.new.columns.columns lent.new.failed.items lent.new.chosen.items }
    ensures counts { (first : Option ℕ → ℕ) → CountsFailed lent.old.failed.items first (R.faults shard.old.rack) → CountsFailed lent.new.failed.items first (R.faults shard.new.rack) }
    ensures room { HasRoomFor shard.old.geometry lent.new }
{
    let rows = shard.rows_at(place, pointer, column);
    let taken = read_into(
        &mut shard.rack,
        &shard.slots,
        rows,
        &mut lent.columns,
        column,
    );
    let source = source_of(&shard.slots, rows.slot, taken);
    lent.note(taken, source);
}

impl Readings {
    /// Notes what became of the reading of the next column, and its source.
    fn note(&mut self, taken: Taken, source: Option<Source>)
        requires chosen { vec_len self.old.chosen < vec_capacity self.old.chosen }
        requires failed { vec_len self.old.failed < vec_capacity self.old.failed }
        ensures columns { self.new.columns ≡ self.old.columns }
        ensures chosen { self.new.chosen.items ≡ self.old.chosen.items ++ source ∷ [] }
        ensures failed { self.new.failed.items ≡ failed_with taken self.old.failed.items }
        ensures room { (vec_capacity self.new.chosen ≡ vec_capacity self.old.chosen) × (vec_capacity self.new.failed ≡ vec_capacity self.old.failed) }
    {
        self.chosen.push_reserved(source);
        if let Taken::Failed { leaf } = taken {
            self.failed.push_reserved(leaf);
        }
    }
}
