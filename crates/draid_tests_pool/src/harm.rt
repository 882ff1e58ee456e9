use draid_area::{Area, MemoryArea};
use draid_lines::MemorySink;
use draid_rack::Rack;
use draid_shelf::{CrashRule, METASLABS, MemoryShelf, Shelf};
use draid_spec::{Geometry, Props, SpecFault, geometry, parse_spec};
use draid_tests_session::run_script;
use std::alloc::{AllocError, Global};
use std::thread::Threads;

/// The layout of a pool with so many metaslabs of so many slices.
fn layout(metaslabs: u32, slices: u32) -> Result<Geometry, SpecFault> {
    let props = Props {
        sector: 512,
        height: 8,
        metaslabs,
        slices,
        seed: 1,
        version: 1,
    };
    geometry(parse_spec(b"draid1:2d:3c", 3, 1)?, props)
}

/// What is done to the devices of a pool.
#[derive(Clone, Copy)]
enum Place {
    /// These bytes are written over those of the uberblock.
    Uber,
    /// They are over those of the check record of an even group.
    Check,
    /// They are the group of the uberblock and of that check record.
    Group,
    /// They are over those of the record of an even group in metaslab 0.
    Even,
    /// They are in metaslab 1.
    Later,
    /// The leaf of this number goes from the rack of metaslab 0.
    Leaf,
    /// They are all that is left of that record.
    Whole,
}

/// Where bytes are changed, from which one on, and what stands there then.
type Change = (Place, u64, &'static [u8]);

/// Writes bytes over those of an area.
fn overwrite(area: &mut MemoryArea, at: u64, bytes: &[u8]) -> bool {
    at <= area.length() && area.write(at, bytes).is_ok() && area.flush().is_ok()
}

/// Writes bytes over those of the uberblock.
fn change_uber(shelf: &mut MemoryShelf, at: u64, bytes: &[u8]) -> bool {
    match shelf.take_uber() {
        Ok(mut uber) => {
            let done = overwrite(&mut uber, at, bytes);
            shelf.give_uber(uber);
            done
        }
        Err(_) => false,
    }
}

/// Writes bytes over those of the check record of an even group.
fn change_check(shelf: &mut MemoryShelf, at: u64, bytes: &[u8]) -> bool {
    match shelf.take_check() {
        Ok((mut even, odd)) => {
            let done = overwrite(&mut even, at, bytes);
            shelf.give_check(even, odd);
            done
        }
        Err(_) => false,
    }
}

/// Writes bytes over those of a metaslab's record of an even group, on devices of this layout.
fn change_even(
    shelf: &mut MemoryShelf,
    layout: &Geometry,
    metaslab: u32,
    at: u64,
    bytes: &[u8],
) -> bool {
    match shelf.take(metaslab, layout) {
        Ok(mut kit) => {
            let done = overwrite(&mut kit.even, at, bytes);
            if metaslab < METASLABS {
                shelf.give(metaslab, kit);
            }
            done
        }
        Err(_) => false,
    }
}

/// Gives up a leaf of metaslab 0, on devices of this layout.
fn lose_leaf(shelf: &mut MemoryShelf, layout: &Geometry, leaf: u64) -> bool {
    match shelf.take(0, layout) {
        Ok(mut kit) => {
            kit.rack.drop_leaf(leaf);
            shelf.give(0, kit);
            true
        }
        Err(_) => false,
    }
}

/// An area of these bytes.
fn area_of(alloc: Global, bytes: &[u8]) -> Result<MemoryArea, AllocError> {
    let bytes = Vec::from_slice(alloc, bytes)?;
    Ok(MemoryArea::new(alloc, bytes, Vec::new(alloc))?)
}

/// Puts an area in place of that of the record of an even group, on devices of this layout.
fn put_even(shelf: &mut MemoryShelf, layout: &Geometry, area: MemoryArea) -> bool {
    match shelf.take(0, layout) {
        Ok(mut kit) => {
            kit.even = area;
            shelf.give(0, kit);
            true
        }
        Err(_) => false,
    }
}

/// Changes an area on a shelf of this layout.
fn change_in(alloc: Global, shelf: &mut MemoryShelf, layout: &Geometry, change: Change) -> bool {
    let (place, at, bytes) = change;
    match place {
        Place::Uber => change_uber(shelf, at, bytes),
        Place::Check => change_check(shelf, at, bytes),
        Place::Group => change_uber(shelf, 7, bytes) && change_check(shelf, 10, bytes),
        Place::Even => change_even(shelf, layout, 0, at, bytes),
        Place::Later => change_even(shelf, layout, 1, at, bytes),
        Place::Leaf => lose_leaf(shelf, layout, at),
        Place::Whole => match area_of(alloc, bytes) {
            Ok(area) => put_even(shelf, layout, area),
            Err(_) => false,
        },
    }
}

/// How a pool is made, and how many metaslabs it has, of how many slices.
type Pool = (&'static str, u32, u32);

/// The same on a shelf with such a pool, if something is to be changed.
fn change(alloc: Global, shelf: &mut MemoryShelf, pool: &Pool, change: Option<Change>) -> bool {
    match (change, layout(pool.1, pool.2)) {
        (Some(change), Ok(layout)) => change_in(alloc, shelf, &layout, change),
        (change, _) => change.is_none(),
    }
}

/// A pool of two blocks, which lie in the record of the even group 2 behind 100 bytes, each in 72 of its own.
static BLOCKS: Pool = (
    "create draid1:2d:3c:0s 3 sector=512 height=8 metaslabs=1 slices=4\nwrite 7 aa\nwrite 8 bb\nsync\n",
    1,
    4,
);

/// A pool of two metaslabs with a block each, of which the first fills its metaslab. Each lies behind 100 bytes of its record.
static PAIR: Pool = (
    "create draid1:2d:3c:0s 3 sector=512 height=8 metaslabs=2 slices=1\nfill 7 1 8192 1\nwrite 8 bb\nsync\n",
    2,
    1,
);

/// Up to two changes of a pool, a script, its status then, and what it prints.
type Harm = (
    Option<Change>,
    Option<Change>,
    &'static str,
    u8,
    &'static str,
);

static HARMS: [Harm; 13] = [
    (
        Some((Place::Uber, 0, &[0])),
        None,
        "import\n",
        0,
        "import draid1:2d:3c:0s-0 group=1 objects=0\n",
    ),
    (
        Some((Place::Uber, 1, b"DZUX")),
        None,
        "import\n",
        8,
        "record uber at=1 kind=2\n",
    ),
    (
        Some((Place::Uber, 14, &[3])),
        None,
        "import\n",
        8,
        "record uber at=7 kind=2\n",
    ),
    (
        Some((Place::Uber, 17, &[33])),
        None,
        "import\n",
        8,
        "record uber at=17 kind=2\n",
    ),
    (
        Some((Place::Even, 0, b"DZRX")),
        None,
        "import\n",
        8,
        "record metaslab=0 at=0 kind=2\n",
    ),
    (
        Some((Place::Even, 9, &[9])),
        None,
        "import\n",
        8,
        "record metaslab=0 at=6 kind=2\n",
    ),
    (
        Some((Place::Even, 9, &[243])),
        None,
        "import\n",
        8,
        "record metaslab=0 at=212 kind=1\n",
    ),
    (
        Some((Place::Even, 31, &[9])),
        None,
        "import\n",
        8,
        "record metaslab=0 at=24 kind=2\n",
    ),
    (
        Some((Place::Even, 176, &[0, 0, 0, 7, 0, 0, 0, 0, 0, 0, 0, 1])),
        None,
        "import\n",
        8,
        "record metaslab=0 at=172 kind=5\n",
    ),
    (
        Some((Place::Even, 179, &[7])),
        None,
        "import\n",
        0,
        "import draid1:2d:3c:0s-0 group=2 objects=1\n",
    ),
    // A record that is cut.
    (
        Some((Place::Whole, 0, b"DZR")),
        None,
        "import\n",
        8,
        "record metaslab=0 at=0 kind=1\n",
    ),
    // Gates that are both shut.
    (
        Some((Place::Uber, 0, &[0])),
        Some((Place::Uber, 512, &[0])),
        "import\n",
        0,
        "import no pool\n",
    ),
    // The last group, behind which none is committed.
    (
        Some((Place::Group, 7, &LAST)),
        Some((Place::Even, 12, &LAST)),
        "import\nsync\nread 7\nexport\n",
        0,
        "import draid1:2d:3c:0s-0 group=281474976710654 objects=2\nsync last\nread 7 1 aa\nexport last\n",
    ),
];

/// What stands in an area from a byte on, the status of an import then, and what it prints.
type Field = (u64, &'static [u8], u8, &'static str);

// Fields of the uberblock out of their ranges, or at the ends of these.
static UBERS: [Field; 21] = [
    // The version, the group and the layout in the slot of group 2.
    (5, &[0, 3], 8, "record uber at=5 kind=2\n"),
    // Both gates are open: the slot counts whose group is the greater number, be it in its range or not.
    (
        7,
        &[0, 0, 0, 0, 0, 0, 0, 0],
        0,
        "import draid1:2d:3c:0s-0 group=1 objects=0\n",
    ),
    (7, &[0, 1, 0, 0, 0, 0, 0, 0], 8, "record uber at=7 kind=2\n"),
    (
        7,
        &[0, 0, 255, 255, 255, 255, 255, 255],
        8,
        "record uber at=7 kind=2\n",
    ),
    // Parity, data, children, spares.
    (15, &[0], 8, "record uber at=15 kind=2\n"),
    (15, &[4], 8, "record uber at=15 kind=2\n"),
    (15, &[2], 8, "record uber at=18 kind=2\n"),
    (16, &[0], 8, "record uber at=16 kind=2\n"),
    (17, &[1], 8, "record uber at=17 kind=2\n"),
    (18, &[5], 8, "record uber at=18 kind=2\n"),
    (18, &[1], 8, "record uber at=18 kind=2\n"),
    // Sector, height, metaslabs, slices.
    (19, &[0, 0, 4, 0], 8, "record uber at=19 kind=2\n"),
    (23, &[0, 0, 0, 9], 8, "record uber at=23 kind=2\n"),
    (27, &[0, 0, 0, 0], 8, "record uber at=27 kind=2\n"),
    (27, &[0, 0, 0, 65], 8, "record uber at=27 kind=2\n"),
    (31, &[0, 0, 0, 0], 8, "record uber at=31 kind=2\n"),
    (31, &[0, 0, 4, 1], 8, "record uber at=31 kind=2\n"),
    // Any seed, and a next leaf from the children to the last number.
    (
        35,
        &[255, 255, 255, 255, 255, 255, 255, 255],
        0,
        "import draid1:2d:3c:0s-0 group=2 objects=2\n",
    ),
    (
        43,
        &[0, 0, 0, 0, 0, 0, 0, 2],
        8,
        "record uber at=43 kind=2\n",
    ),
    (
        43,
        &[0, 1, 0, 0, 0, 0, 0, 0],
        8,
        "record uber at=43 kind=2\n",
    ),
    (
        43,
        &[0, 0, 255, 255, 255, 255, 255, 255],
        0,
        "import draid1:2d:3c:0s-0 group=2 objects=2\n",
    ),
];

// Fields of the record of group 2, in their order.
static RECORDS: [Field; 28] = [
    // Version, length, metaslab, group, number of slots.
    (5, &[9], 8, "record metaslab=0 at=4 kind=2\n"),
    (9, &[245], 8, "record metaslab=0 at=6 kind=2\n"),
    (11, &[1], 8, "record metaslab=0 at=10 kind=2\n"),
    (19, &[4], 8, "record metaslab=0 at=12 kind=2\n"),
    (21, &[4], 8, "record metaslab=0 at=20 kind=2\n"),
    // Arms: their number, kind, number, flags, and the first run of a log.
    (22, &[0], 8, "record metaslab=0 at=22 kind=2\n"),
    (22, &[4], 8, "record metaslab=0 at=22 kind=2\n"),
    (23, &[2], 8, "record metaslab=0 at=23 kind=2\n"),
    (46, &[0], 8, "record metaslab=0 at=39 kind=2\n"),
    (32, &[4], 8, "record metaslab=0 at=32 kind=2\n"),
    // The last pass, its kind, and the runs of space.
    (67, &[0, 1], 8, "record metaslab=0 at=67 kind=2\n"),
    (75, &[3], 8, "record metaslab=0 at=75 kind=2\n"),
    (87, &[1], 8, "record metaslab=0 at=76 kind=2\n"),
    (95, &[3], 8, "record metaslab=0 at=76 kind=2\n"),
    // The blocks: their number, and each field of the second one.
    (96, &[0, 0, 16, 1], 8, "record metaslab=0 at=96 kind=2\n"),
    (96, &[0, 0, 0, 3], 8, "record metaslab=0 at=244 kind=1\n"),
    (172, &[0, 0, 0, 1], 8, "record metaslab=0 at=172 kind=2\n"),
    (
        180,
        &[0, 0, 0, 0, 0, 0, 0, 0],
        8,
        "record metaslab=0 at=180 kind=2\n",
    ),
    (180, &[0, 1], 8, "record metaslab=0 at=180 kind=2\n"),
    (195, &[0], 8, "record metaslab=0 at=188 kind=2\n"),
    (199, &[0], 8, "record metaslab=0 at=196 kind=2\n"),
    (199, &[2], 8, "record metaslab=0 at=196 kind=2\n"),
    (203, &[0], 8, "record metaslab=0 at=200 kind=2\n"),
    (200, &[0, 0, 4, 1], 8, "record metaslab=0 at=196 kind=2\n"),
    (200, &[0, 2, 0, 1], 8, "record metaslab=0 at=200 kind=2\n"),
    (211, &[0], 8, "record metaslab=0 at=204 kind=2\n"),
    (211, &[3], 8, "record metaslab=0 at=204 kind=2\n"),
    // Any digest.
    (
        212,
        &[1, 2, 3, 4],
        0,
        "import draid1:2d:3c:0s-0 group=2 objects=2\n",
    ),
];

// Leaves that the rack of metaslab 0 hasn't, beside other faults.
static LEAVES: [Harm; 4] = [
    (
        Some((Place::Leaf, 0, &[])),
        None,
        "import\n",
        8,
        "record metaslab=0 at=24 kind=6\n",
    ),
    (
        Some((Place::Leaf, 2, &[])),
        Some((Place::Leaf, 1, &[])),
        "import\n",
        8,
        "record metaslab=0 at=39 kind=6\n",
    ),
    (
        Some((Place::Leaf, 0, &[])),
        Some((Place::Even, 172, &[0, 0, 0, 1])),
        "import\n",
        8,
        "record metaslab=0 at=172 kind=2\n",
    ),
    (
        Some((Place::Leaf, 1, &[])),
        Some((Place::Even, 176, &[0, 0, 0, 7, 0, 0, 0, 0, 0, 0, 0, 1])),
        "import\n",
        8,
        "record metaslab=0 at=39 kind=6\n",
    ),
];

// What the records of the two metaslabs have in common.
static PAIRS: [Harm; 12] = [
    // An arm that is offline in one metaslab, in both, and one that is fresh in one.
    (
        Some((Place::Later, 32, &[1])),
        None,
        "import\n",
        8,
        "record metaslab=1 at=20 kind=4\n",
    ),
    (
        Some((Place::Even, 32, &[1])),
        None,
        "import\n",
        8,
        "record metaslab=1 at=20 kind=4\n",
    ),
    (
        Some((Place::Even, 32, &[1])),
        Some((Place::Later, 32, &[1])),
        "import\n",
        0,
        "import draid1:2d:3c:0s-0 group=2 objects=2\n",
    ),
    (
        Some((Place::Later, 32, &[2])),
        None,
        "import\n",
        0,
        "import draid1:2d:3c:0s-0 group=2 objects=2\n",
    ),
    // A block of the object and the number that one in the other metaslab has, and one of its object alone.
    (
        Some((Place::Later, 104, &[0, 0, 0, 7, 0, 0, 0, 0, 0, 0, 0, 1])),
        None,
        "import\n",
        8,
        "record metaslab=1 at=100 kind=5\n",
    ),
    (
        Some((Place::Later, 107, &[7])),
        None,
        "import\n",
        0,
        "import draid1:2d:3c:0s-0 group=2 objects=1\n",
    ),
    // Which fault comes first.
    (
        Some((Place::Later, 104, &[0, 0, 0, 7, 0, 0, 0, 0, 0, 0, 0, 1])),
        Some((Place::Later, 32, &[1])),
        "import\n",
        8,
        "record metaslab=1 at=20 kind=4\n",
    ),
    (
        Some((Place::Later, 0, b"DZRX")),
        Some((Place::Even, 32, &[1])),
        "import\n",
        8,
        "record metaslab=1 at=0 kind=2\n",
    ),
    (
        Some((Place::Later, 0, b"DZRX")),
        Some((Place::Even, 32, &[4])),
        "import\n",
        8,
        "record metaslab=0 at=32 kind=2\n",
    ),
    (
        Some((Place::Later, 0, b"DZRX")),
        Some((Place::Uber, 43, &[0, 0, 0, 0, 0, 0, 0, 2])),
        "import\n",
        8,
        "record uber at=43 kind=2\n",
    ),
    (
        Some((Place::Check, 0, b"DZRX")),
        Some((Place::Later, 104, &[0, 0, 0, 7, 0, 0, 0, 0, 0, 0, 0, 1])),
        "import\n",
        8,
        "record metaslab=1 at=100 kind=5\n",
    ),
    (
        Some((Place::Check, 0, b"DZRX")),
        None,
        "import\n",
        8,
        "record check at=0 kind=2\n",
    ),
];

/// The greatest group that an uberblock may name.
const LAST: [u8; 8] = [0, 0, 255, 255, 255, 255, 255, 254];

/// Whether a run on a shelf has this status and prints this.
fn comes_to<R: AllocGlobal + Threads + Sync>(
    rt: &R,
    shelf: &mut MemoryShelf,
    script: &str,
    code: u8,
    wanted: &str,
) -> bool {
    let mut sink = MemorySink::new(rt.alloc(), Vec::new(rt.alloc()));
    match run_script(rt, "session", script.as_bytes(), &[], shelf, &mut sink) {
        Some(ended) => ended.code() == code && sink.held() == wanted.as_bytes(),
        None => false,
    }
}

/// Makes a pool on a shelf.
fn make<R: AllocGlobal + Threads + Sync>(rt: &R, shelf: &mut MemoryShelf, pool: &Pool) -> bool {
    let mut sink = MemorySink::new(rt.alloc(), Vec::new(rt.alloc()));
    run_script(rt, "session", pool.0.as_bytes(), &[], shelf, &mut sink).is_some()
}

/// Whether a session tells of harm so, once such a pool is made on a shelf.
fn tells<R: AllocGlobal + Threads + Sync>(
    rt: &R,
    shelf: &mut MemoryShelf,
    pool: &Pool,
    harm: &Harm,
) -> bool {
    let (first, second, script, code, wanted) = *harm;
    make(rt, shelf, pool)
        && change(rt.alloc(), shelf, pool, first)
        && change(rt.alloc(), shelf, pool, second)
        && comes_to(rt, shelf, script, code, wanted)
}

/// The same on a new shelf.
fn is_told<R: AllocGlobal + Threads + Sync>(rt: &R, pool: &Pool, harm: &Harm) -> bool {
    let mut shelf = MemoryShelf::new(rt.alloc(), CrashRule::New);
    tells(rt, &mut shelf, pool, harm)
}

/// The change of one field of an area, and what an import comes to then.
fn harm_of(place: Place, field: &Field) -> Harm {
    let (at, bytes, code, wanted) = *field;
    (Some((place, at, bytes)), None, "import\n", code, wanted)
}

#[test]
fn imports_tell_what_the_areas_have(rt: HostRuntime) {
    for harm in HARMS.iter() {
        let wanted = harm.4;
        assert!(rt; is_told(&rt, &BLOCKS, harm), "{wanted}");
    }
    for field in UBERS.iter() {
        let wanted = field.3;
        assert!(rt;
            is_told(&rt, &BLOCKS, &harm_of(Place::Uber, field)),
            "{wanted}"
        );
    }
    for field in RECORDS.iter() {
        let wanted = field.3;
        assert!(rt;
            is_told(&rt, &BLOCKS, &harm_of(Place::Even, field)),
            "{wanted}"
        );
    }
    for harm in LEAVES.iter() {
        let wanted = harm.4;
        assert!(rt; is_told(&rt, &BLOCKS, harm), "{wanted}");
    }
    for harm in PAIRS.iter() {
        let wanted = harm.4;
        assert!(rt; is_told(&rt, &PAIR, harm), "{wanted}");
    }
}
