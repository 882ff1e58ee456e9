//! What is tried in an empty metaslab.

ghost use Rattle.std.specs.Prelude.{◌≡◌, None};
ghost use Rattle.draid_machine.specs.declared.names.Key.{Key};
ghost use Rattle.draid_rack.specs.Rack.{HasJust};
ghost use Rattle.draid_spec.specs.Geometry.{IsGeometry, metaslab_sectors};
ghost use Rattle.draid_entries.specs.Entries.{held_in};
ghost use Rattle.draid_shard.specs.Fits.{Valid};

use crate::devices::{kit, layout};
use crate::{groups, shard, stored};
use draid_area::Area;
use draid_create::create_metaslab;
use draid_perm::Perms;
use draid_pool::into_kit;
use draid_rack::Rack;
use draid_shard::Shard;
use draid_shelf::Kit;
use draid_spec::Geometry;
use std::alloc::Global;

/// What a metaslab has to do.
#[derive(Clone, Copy)]
enum Trial {
    /// It has a block that is written, fetched with so many columns absent, and freed; these leaves miss its write.
    Lives { leaves: [bool; 3], absent: usize },
    /// It misses two columns of a block.
    MissesTwo,
    /// It gives a write up.
    GivesUp,
    /// It has two sectors of a block damaged, or one.
    IsDamaged { second: bool },
    IsWorn,
    /// It refuses a block of too many stripes.
    IsSmall,
    WearsOut,
    /// It closes a group.
    Closes,
    StaysOpen,
    /// It seals a group with so many thin blocks, whose flush these leaves miss.
    Seals { thin: u64, leaves: [bool; 3] },
    SealsAgain,
    /// It seals no group that has an open write.
    Waits,
    /// It gives stripes that were freed back at a commit.
    GivesBack,
    /// What it stores of many calls is replayed.
    Stores,
}

/// Whether an empty metaslab does so.
fn does<R: Rack, A: Area>(alloc: Global, shard: &mut Shard<R, A>, trial: Trial) -> bool
    requires valid { Valid R.Rack shard.old }
    requires open_group { shard.old.open_group ≡ 2 }
    requires idle { shard.old.closing ≡ None }
    requires empty { (key : Key) → held_in shard.old.entries key ≡ None }
{
    match trial {
        Trial::Lives { leaves, absent } => shard::lives(alloc, shard, leaves, absent),
        Trial::MissesTwo => shard::misses_two(alloc, shard),
        Trial::GivesUp => shard::gives_hello_up(alloc, shard),
        Trial::IsDamaged { second } => shard::damages_hello(alloc, shard, second),
        Trial::IsWorn => shard::is_worn(alloc, shard),
        Trial::IsSmall => shard::is_small(alloc, shard),
        Trial::WearsOut => shard::wears_out(alloc, shard),
        Trial::Closes => groups::closes(shard),
        Trial::StaysOpen => groups::stays_open(shard),
        Trial::Seals { thin, leaves } => groups::seals(alloc, shard, thin, leaves),
        Trial::SealsAgain => groups::seals_again(alloc, shard),
        Trial::Waits => groups::waits_for_hello(alloc, shard),
        Trial::GivesBack => groups::gives_hello_back(alloc, shard),
        Trial::Stores => stored::stores(alloc, shard),
    }
}

/// Whether the devices come back, leaf 2 with its eight sectors.
fn comes_back<R: Rack, A: Area>(shard: Shard<R, A>) -> bool {
    into_kit(shard).rack.sectors(2) == Some(8)
}

/// Whether a new metaslab of so many events over these devices does so, and they come back then.
fn passes_over<R: Rack, A: Area>(
    alloc: Global,
    layout: Geometry,
    kit: Kit<R, A>,
    events: u64,
    trial: Trial,
) -> bool
    requires layout { IsGeometry layout }
    requires rack { HasJust (R.shape kit.rack) layout.spec.children (metaslab_sectors layout) layout.props.sector }
{
    let perms = Perms::new(layout.spec.children, layout.props.seed);
    match create_metaslab(alloc, 0, layout, perms, kit, events) {
        Ok(mut shard) => {
            let done = does(alloc, &mut shard, trial);
            comes_back(shard) && done
        }
        Err(_) => false,
    }
}

/// The same over devices in memory, where the calls of the leaves and of the even area with these numbers fail.
fn passes(alloc: Global, rack: &[u64], even: &[u64], events: u64, trial: Trial) -> bool {
    let Ok(layout) = layout(1) else {
        return false;
    };
    match kit(
        alloc,
        &layout,
        layout.spec.children,
        0,
        &[],
        [rack, even, &[]],
    ) {
        Ok(kit) => passes_over(alloc, layout, kit, events, trial),
        Err(_) => false,
    }
}

/// What is shown, the calls of the leaves and of the even area that fail, how many events the metaslab may have, and what it does.
type Row = (&'static str, &'static [u64], &'static [u64], u64, Trial);

const NONE: [bool; 3] = [false; 3];

const SECOND: [bool; 3] = [false, true, false];

// A block of one stripe is three writes and three reads. A leaf on which a column is missed has the group in its log. The
// last 3,072 events are left for the closing of groups, which may use the limit up; each fetch is an event. A seal flushes
// three leaves behind those writes; one on which that fails has the group in its log, and the block is thin. Where its area
// fails, a group isn't sealed, and may be sealed once more.
static ROWS: [Row; 19] = [
    (
        "a block lives",
        &[],
        &[],
        4096,
        Trial::Lives {
            leaves: NONE,
            absent: 0,
        },
    ),
    (
        "a block lives while a write fails",
        &[1],
        &[],
        4096,
        Trial::Lives {
            leaves: SECOND,
            absent: 0,
        },
    ),
    (
        "a block lives while a read fails",
        &[4],
        &[],
        4096,
        Trial::Lives {
            leaves: NONE,
            absent: 1,
        },
    ),
    (
        "too many missed columns end a write",
        &[0, 2],
        &[],
        4096,
        Trial::MissesTwo,
    ),
    (
        "a write that is given up leaves its stripes",
        &[],
        &[],
        4096,
        Trial::GivesUp,
    ),
    (
        "two damaged sectors",
        &[],
        &[],
        4096,
        Trial::IsDamaged { second: true },
    ),
    (
        "one damaged sector is read around",
        &[4],
        &[],
        4096,
        Trial::IsDamaged { second: false },
    ),
    ("a worn metaslab says so", &[], &[], 3072, Trial::IsWorn),
    (
        "a block that does not fit is refused",
        &[],
        &[],
        4096,
        Trial::IsSmall,
    ),
    ("a metaslab wears out", &[], &[], 20_000, Trial::WearsOut),
    ("a group closes up to the limit", &[], &[], 3, Trial::Closes),
    (
        "no group closes behind the limit",
        &[],
        &[],
        2,
        Trial::StaysOpen,
    ),
    (
        "a group is sealed",
        &[],
        &[],
        4096,
        Trial::Seals {
            thin: 0,
            leaves: NONE,
        },
    ),
    (
        "a group is sealed while a flush fails",
        &[4],
        &[],
        4096,
        Trial::Seals {
            thin: 1,
            leaves: SECOND,
        },
    ),
    (
        "a group whose record isn't written is sealed again",
        &[],
        &[0],
        4096,
        Trial::SealsAgain,
    ),
    (
        "a group whose record isn't flushed is sealed again",
        &[],
        &[1],
        4096,
        Trial::SealsAgain,
    ),
    ("a seal waits for open writes", &[], &[], 4096, Trial::Waits),
    (
        "freed stripes come back at the commit",
        &[],
        &[],
        4096,
        Trial::GivesBack,
    ),
    // A write, a read, two writes of one block, a flush and a damage fail.
    (
        "what many calls stored is replayed",
        &[1, 7, 9, 11, 21, 26],
        &[],
        4096,
        Trial::Stores,
    ),
];

#[test]
fn an_empty_metaslab_does_as_it_has_to(rt: HostRuntime) {
    for (shown, rack, even, events, trial) in ROWS.iter() {
        assert!(rt; passes(rt.alloc(), rack, even, *events, *trial), "{shown}");
    }
}
