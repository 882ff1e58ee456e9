ghost use Rattle.std.specs.Prelude.{◌≡◌, ◌<◌};
ghost use Rattle.draid_columns.specs.declared.rows.Rows.{Rows};
ghost use Rattle.draid_shard.specs.Part.{IsPart, IsRun};
ghost use Rattle.draid_shard.specs.Rows.{IsRowsOf, IsStripePlace, rows_on};
ghost use Rattle.draid_shard.specs.States.{part_of};
ghost use Rattle.draid_slots.specs.Table.{IsTable};

use crate::shard::Shard;
use draid_area::Area;
use draid_columns::Rows;
use draid_names::Pointer;
use draid_rack::Rack;
use draid_slots::Slots;

/// The rows of a column of a block: the slot that has them, their slice, the sector of the first and their number,
/// counted within the metaslab, the length of a sector, and the group in which the block was born.
#[derive(Clone, Copy)]
pub struct ColumnRows {
    pub slot: u32,
    pub slice: u64,
    pub first: u64,
    pub count: u64,
    pub size: usize,
    pub birth: u64,
}

/// How many rows each column of a block has, and the length of one.
#[derive(Clone, Copy)]
pub struct Extent {
    pub count: u64,
    pub size: usize,
}

impl ColumnRows {
    /// The rows on one leaf.
    pub fn on(self, leaf: u64) -> Rows
        ensures { result ≡ rows_on self leaf }
    {
        Rows {
            leaf,
            first: self.first,
            count: self.count,
            size: self.size,
        }
    }
}

/// What the places of the columns of a block's first stripe have in common.
#[derive(Clone, Copy)]
pub struct StripePlace {
    /// The slice, counted within the pool.
    pool_slice: u64,
    /// The slice, counted within the metaslab.
    slice: u64,
    /// How many columns the groups before its own have in the slice.
    before: u32,
    /// The sector that it has in the slice's first row, counted within the metaslab.
    sector: u64,
}

impl<R: Rack, A: Area> Shard<R, A> {
    /// What the places of the columns of a pointer's block have in common.
    pub fn stripe_place(&self, pointer: &Pointer) -> StripePlace
        requires part { IsPart (part_of self.now) }
        requires run { IsRun self.now.geometry pointer.now.first pointer.now.stripes }
        ensures { IsStripePlace (part_of self.now) pointer.now.first result }
    {
        let number = u64::from(self.number);
        let height = u64::from(self.geometry.props.height);
        let ngroups = u64::from(self.geometry.ngroups);
        let stripe = number * self.geometry.metaslab_stripes() + pointer.first;
        let pool_slice = stripe / (height * ngroups);
        let slice = pool_slice - number * u64::from(self.geometry.props.slices);
        StripePlace {
            pool_slice,
            slice,
            before: (stripe / height % ngroups) as u32 * self.geometry.g,
            sector: slice * self.geometry.slice_sectors() + stripe % height,
        }
    }

    /// The rows of a column of a pointer's block, by what the places of its columns have in common.
    #[inline(always)]
    pub fn rows_at(&self, place: &StripePlace, pointer: &Pointer, column: u32) -> ColumnRows
        requires part { IsPart (part_of self.now) }
        requires run { IsRun self.now.geometry pointer.now.first pointer.now.stripes }
        requires place { IsStripePlace (part_of self.now) pointer.now.first place.now }
        requires column { column < self.now.geometry.g }
        ensures { IsRowsOf (part_of self.now) pointer.now column result }
    {
        let index = place.before + column;
        let row = u64::from(index / self.geometry.ndisks);
        ColumnRows {
            slot: self
                .perms
                .child(place.pool_slice, index % self.geometry.ndisks),
            slice: place.slice,
            first: place.sector + row * u64::from(self.geometry.props.height),
            count: u64::from(pointer.stripes),
            size: self.geometry.props.sector as usize,
            birth: pointer.birth,
        }
    }

    /// The rows of a column of a pointer's block.
    pub fn rows_of(&self, pointer: &Pointer, column: u32) -> ColumnRows
        requires part { IsPart (part_of self.now) }
        requires run { IsRun self.now.geometry pointer.now.first pointer.now.stripes }
        requires column { column < self.now.geometry.g }
        ensures { IsRowsOf (part_of self.now) pointer.now column result }
    {
        self.rows_at(&self.stripe_place(pointer), pointer, column)
    }
}

/// How many rows a column of a pointer's block has, and the length of one.
pub fn extent_of(slots: &Slots, pointer: &Pointer) -> Extent
    ensures count { result.count ≡ pointer.now.stripes }
    ensures size { result.size ≡ slots.now.geometry.props.sector }
    ensures sound { IsTable slots.now }
{
    Extent {
        count: u64::from(pointer.stripes),
        size: slots.geometry().props.sector as usize,
    }
}
