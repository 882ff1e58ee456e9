ghost use Rattle.std.specs.Prelude.{◌≡◌, ◌⊎◌, ◌<◌, ◌≤◌, ℕ, IfOk, IsErrOf, IsSomeAnd, OnErr, OnOk};
ghost use Rattle.draid_names.specs.Faults.{Rose};
ghost use Rattle.draid_spec.specs.Spec.{IsSpec};
ghost use Rattle.draid_spec.specs.Geometry.{IsGeometry};
ghost use Rattle.draid_map.specs.Place.{IsLayout};
ghost use Rattle.draid_shelf.specs.Shelf.{HasLeavesOf, SameOthers};
ghost use Rattle.draid_shelf.specs.Kits.{IsUncounted, OnHeld, takes_kit};
ghost use Rattle.draid_pool.specs.Whole.{IsWhole};
ghost use Rattle.draid_create.specs.Opening.{AreOpened, CreateIs, HasBadArea, HasNewKits, HoldsUncommitted, IsAway, IsBackAgain, IsNewUber, IsOpened, NewPoolFailed, Opens, RecordsFailed, SameLeaves, ShelfIs};
ghost use Rattle.draid_pool.specs.Taking.{IsAsBefore, TakesFirst};

use crate::fault::{CreateFault, MetaslabRefused};
use crate::metaslab::create_metaslab;
use draid_area::Area;
use draid_names::DeviceFault;
use draid_perm::Perms;
use draid_pool::{EVENTS, Own, Owned, Pool, give_areas, give_back, take_areas};
use draid_shard::Shard;
use draid_shelf::Shelf;
use draid_spec::{Geometry, Props, Spec, geometry};
use draid_uber::Uber;
use std::alloc::Global;
use std::collections::HashMap;

/// Takes the devices of a new metaslab, and opens it. After a refusal they are on the shelf.
fn open_shard<H: Shelf>(
    alloc: Global,
    shelf: &mut H,
    layout: Geometry,
    perms: Perms,
    number: u32,
) -> Result<Shard<H::R, H::A>, DeviceFault>
    requires layout { IsLayout layout perms }
    requires number { number < layout.props.metaslabs }
    requires made { IsSomeAnd (H.leaves shelf.old number) (HasLeavesOf layout) }
    ensures opened { IfOk result (IsOpened H.R.Rack H.A.Area (record { geometry = layout; perms = perms; number = number }) (H.told shelf.old) (H.counts shelf.old number)) }
    ensures told { OnOk result (H.told shelf.new ≡ takes_kit number (H.told shelf.old)) }
    ensures leaves { OnOk result (SameOthers number (H.leaves shelf.old) (H.leaves shelf.new)) }
    ensures counts { OnOk result (SameOthers number (H.counts shelf.old) (H.counts shelf.new)) }
    ensures back { OnErr result (IsBackAgain (H.told shelf.old) (H.told shelf.new) (H.counts shelf.old) (H.counts shelf.new)) }
    ensures uber { H.uber_count shelf.new ≡ H.uber_count shelf.old }
    ensures checks { H.check_counts shelf.new ≡ H.check_counts shelf.old }
    ensures later { H.faults shelf.old ≤ H.faults shelf.new }
    ensures cause { IsErrOf result DeviceFault.Failed → Rose (H.faults shelf.old) (H.faults shelf.new) ⊎ (0 < (H.counts shelf.new number).odd) }
{
    let kit = shelf.take(number, &layout)?;
    let events = EVENTS / u64::from(layout.props.metaslabs);
    match create_metaslab(alloc, number, layout, perms, kit, events) {
        Ok(shard) => Ok(shard),
        Err(MetaslabRefused { kit, why }) => {
            shelf.give(number, kit);
            Err(why)
        }
    }
}

/// Opens all metaslabs of a new pool. After a refusal all devices are on the shelf.
fn open_shards<H: Shelf>(
    alloc: Global,
    shelf: &mut H,
    layout: Geometry,
) -> Result<Vec<Shard<H::R, H::A>>, DeviceFault>
    requires layout { IsGeometry layout }
    requires made { (m : ℕ) → m < layout.props.metaslabs → IsSomeAnd (H.leaves shelf.old m) (HasLeavesOf layout) }
    ensures opened { IfOk result (λ shards. AreOpened H.R.Rack H.A.Area layout (H.told shelf.old) (H.counts shelf.old) shards.items) }
    ensures told { OnOk result (TakesFirst layout.props.metaslabs (H.told shelf.old) (H.told shelf.new)) }
    ensures back { OnErr result (IsBackAgain (H.told shelf.old) (H.told shelf.new) (H.counts shelf.old) (H.counts shelf.new)) }
    ensures uber { H.uber_count shelf.new ≡ H.uber_count shelf.old }
    ensures checks { H.check_counts shelf.new ≡ H.check_counts shelf.old }
    ensures later { H.faults shelf.old ≤ H.faults shelf.new }
    ensures cause { IsErrOf result DeviceFault.Failed → Rose (H.faults shelf.old) (H.faults shelf.new) ⊎ RecordsFailed layout (H.counts shelf.new) }
{
    let perms = Perms::new(layout.spec.children, layout.props.seed);
    let Ok(mut shards) = Vec::with_capacity(alloc, layout.props.metaslabs as usize) else {
        return Err(DeviceFault::NoMemory);
    };
    for number in 0..layout.props.metaslabs {
        match open_shard(alloc, shelf, layout, perms, number) {
            Ok(shard) => shards.push_reserved(shard),
            Err(fault) => {
                give_back(shelf, shards);
                return Err(fault);
            }
        }
    }
    Ok(shards)
}

/// Opens a new pool over the devices that were made for it, and commits its group 1, which is empty. A refusal gives
/// back all that was taken, and the pool's own areas.
fn open_pool<H: Shelf>(
    alloc: Global,
    shelf: &mut H,
    layout: Geometry,
    uber: Uber<H::A>,
) -> Result<Pool<H::R, H::A>, DeviceFault>
    requires layout { IsGeometry layout }
    requires uber { IsNewUber H.A.Area layout uber }
    requires held { OnHeld (H.told shelf.old) (HasNewKits layout) }
    requires leaves { (m : ℕ) → m < layout.props.metaslabs → IsSomeAnd (H.leaves shelf.old m) (HasLeavesOf layout) }
    requires counts { (m : ℕ) → m < layout.props.metaslabs → IsUncounted (H.counts shelf.old m) }
    ensures whole { IfOk result (IsWhole H.R.Rack H.A.Area) }
    ensures opens { IfOk result (Opens H.R.Rack H.A.Area layout (H.told shelf.new)) }
    ensures away { OnOk result (OnHeld (H.told shelf.new) IsAway) }
    ensures back { OnErr result (HoldsUncommitted layout (H.told shelf.new) (H.leaves shelf.new) (H.counts shelf.new) (record { uber = H.uber_count shelf.new; checks = H.check_counts shelf.new })) }
    ensures later { H.faults shelf.old ≤ H.faults shelf.new }
    ensures cause { IsErrOf result DeviceFault.Failed → Rose (H.faults shelf.old) (H.faults shelf.new)
        ⊎ HasBadArea layout (H.counts shelf.new) (record { uber = H.uber_count shelf.new; checks = H.check_counts shelf.new }) }
{
    let mut uber = uber;
    let shards = match open_shards(alloc, shelf, layout) {
        Ok(shards) => shards,
        Err(fault) => {
            give_areas(shelf, uber.into_areas());
            return Err(fault);
        }
    };
    match uber.commit(1) {
        Ok(()) => Ok(Pool {
            geometry: layout,
            metaslabs: Owned { shards },
            uber,
            own: Own {
                objects: HashMap::new(alloc),
                seq: 0,
                floor: 0,
            },
            alloc,
        }),
        Err(fault) => {
            give_back(shelf, shards);
            give_areas(shelf, uber.into_areas());
            Err(fault)
        }
    }
}

/// Makes the devices of a new pool on the shelf, in place of an earlier one, and opens it.
fn make_pool<H: Shelf>(
    alloc: Global,
    shelf: &mut H,
    layout: Geometry,
) -> Result<Pool<H::R, H::A>, DeviceFault>
    requires layout { IsGeometry layout }
    ensures whole { IfOk result (IsWhole H.R.Rack H.A.Area) }
    ensures opens { IfOk result (Opens H.R.Rack H.A.Area layout (H.told shelf.new)) }
    ensures away { OnOk result (OnHeld (H.told shelf.new) IsAway) }
    ensures back { OnErr result ((IsAsBefore (H.told shelf.old) (H.told shelf.new) (H.counts shelf.old) (H.counts shelf.new)
        (record { uber = H.uber_count shelf.old; checks = H.check_counts shelf.old })
        (record { uber = H.uber_count shelf.new; checks = H.check_counts shelf.new })
        × SameLeaves (H.leaves shelf.old) (H.leaves shelf.new))
        ⊎ HoldsUncommitted layout (H.told shelf.new) (H.leaves shelf.new) (H.counts shelf.new) (record { uber = H.uber_count shelf.new; checks = H.check_counts shelf.new })) }
    ensures later { H.faults shelf.old ≤ H.faults shelf.new }
    ensures cause { IsErrOf result DeviceFault.Failed → Rose (H.faults shelf.old) (H.faults shelf.new)
        ⊎ NewPoolFailed layout (H.told shelf.new) (H.leaves shelf.new) (H.counts shelf.new) (record { uber = H.uber_count shelf.new; checks = H.check_counts shelf.new }) }
{
    shelf.make(alloc, &layout)?;
    let areas = take_areas(shelf)?;
    let Ok(uber) = Uber::create(alloc, layout, areas) else {
        unreachable!()
    };
    open_pool(alloc, shelf, layout, uber)
}

/// Makes a pool of this spec on the shelf, in place of an earlier one, commits its group 1, which is empty, and opens it.
/// No check record is written. A refusal gives back all that was taken.
pub fn create<H: Shelf>(
    alloc: Global,
    shelf: &mut H,
    spec: Spec,
    props: Props,
) -> Result<Pool<H::R, H::A>, CreateFault>
    requires spec { IsSpec props.version spec }
    ensures whole { IfOk result (IsWhole H.R.Rack H.A.Area) }
    ensures answer { CreateIs H.R.Rack H.A.Area spec props (H.told shelf.new) (H.leaves shelf.new) (H.faults shelf.old) (H.faults shelf.new) (H.counts shelf.new)
        (record { uber = H.uber_count shelf.new; checks = H.check_counts shelf.new }) result }
    ensures shelf { ShelfIs spec props (H.told shelf.old) (H.told shelf.new) (H.leaves shelf.old) (H.leaves shelf.new) (H.counts shelf.old) (H.counts shelf.new)
        (record { uber = H.uber_count shelf.old; checks = H.check_counts shelf.old })
        (record { uber = H.uber_count shelf.new; checks = H.check_counts shelf.new }) result }
    ensures later { H.faults shelf.old ≤ H.faults shelf.new }
{
    match geometry(spec, props) {
        Ok(layout) => match make_pool(alloc, shelf, layout) {
            Ok(pool) => Ok(pool),
            Err(DeviceFault::Failed) => Err(CreateFault::Shelf),
            Err(DeviceFault::NoMemory) => Err(CreateFault::NoMemory),
        },
        Err(fault) => Err(CreateFault::Spec(fault)),
    }
}
