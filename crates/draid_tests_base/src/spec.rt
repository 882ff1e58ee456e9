use crate::layouts::{DEFAULTS, layout};
use draid_spec::{Props, SpecFault, parse_spec, spare_name, spec_name};
use std::alloc::{AllocError, Global};

/// Texts of specs, with the number of children and the version, and what is read, or why it is refused.
static SPECS: [(&str, u32, u32, Result<[u32; 4], SpecFault>); 11] = [
    ("draid:2s", 14, 1, Ok([1, 8, 14, 2])),
    ("draid2:4d:11c:1s", 11, 1, Ok([2, 4, 11, 1])),
    (
        "draid:0012s:3d",
        14,
        1,
        Err(SpecFault::Limit {
            which: b's',
            value: 12,
        }),
    ),
    (
        "draid2:4d:11c:1s",
        10,
        1,
        Err(SpecFault::Children {
            said: 11,
            given: 10,
        }),
    ),
    (
        "draid2:8d:9c:1s",
        9,
        1,
        Err(SpecFault::Width { need: 10, have: 8 }),
    ),
    ("draid4", 9, 1, Err(SpecFault::Parity)),
    ("raidz", 9, 1, Err(SpecFault::NotDraid)),
    (
        "draid:2d:2d",
        9,
        1,
        Err(SpecFault::Repeated { letter: b'd' }),
    ),
    ("draid:2", 9, 1, Err(SpecFault::Number { at: 7 })),
    (
        "draid1:2d:33c:0s",
        33,
        1,
        Err(SpecFault::Limit {
            which: b'c',
            value: 33,
        }),
    ),
    (
        "draid",
        65,
        2,
        Err(SpecFault::Limit {
            which: b'c',
            value: 65,
        }),
    ),
];

/// The numbers of a spec.
fn read(text: &str, children: u32, version: u32) -> Result<[u32; 4], SpecFault> {
    let spec = parse_spec(text.as_bytes(), children, version)?;
    Ok([spec.parity, spec.ndata, spec.children, spec.spares])
}

#[test]
fn texts_are_read(rt: HostRuntime) {
    for (text, children, version, wanted) in SPECS.iter() {
        assert!(rt; read(text, *children, *version) == *wanted, "{text}");
    }
}

/// How many columns, disks, groups and rows a slice of such a pool has.
fn numbers(text: &str, children: u32, props: Props) -> Result<[u32; 4], SpecFault> {
    let layout = layout(text.as_bytes(), children, props)?;
    Ok([layout.g, layout.ndisks, layout.ngroups, layout.rows])
}

const LOW: Props = Props {
    height: 7,
    ..DEFAULTS
};

const THIRD: Props = Props {
    version: 3,
    ..DEFAULTS
};

/// Such pools and those numbers, or which one is out of its range.
static LAYOUTS: [(&str, u32, Props, Result<[u32; 4], SpecFault>); 4] = [
    ("draid:2s", 14, DEFAULTS, Ok([9, 12, 4, 3])),
    ("draid2:4d:11c:1s", 11, DEFAULTS, Ok([6, 10, 5, 3])),
    (
        "draid2:4d:11c:1s",
        11,
        LOW,
        Err(SpecFault::Limit {
            which: b'h',
            value: 7,
        }),
    ),
    (
        "draid1:2d:33c:0s",
        33,
        THIRD,
        Err(SpecFault::Limit {
            which: b'v',
            value: 3,
        }),
    ),
];

#[test]
fn layouts_have_their_numbers(rt: HostRuntime) {
    for (text, children, props, wanted) in LAYOUTS.iter() {
        assert!(rt; numbers(text, *children, *props) == *wanted, "{text}");
    }
}

const SECOND: Props = Props {
    version: 2,
    ..DEFAULTS
};

/// How many stripes a pool of 33 children has.
fn stripes_of_33() -> Result<u64, SpecFault> {
    Ok(layout(b"draid1:2d:33c:0s", 33, SECOND)?.pool_stripes())
}

#[test]
fn children_go_by_the_version(rt: HostRuntime) {
    assert!(rt; stripes_of_33() == Ok(5632));
}

/// Whether a name is this.
fn is_name(name: Result<String, AllocError>, wanted: &str) -> bool {
    match name {
        Ok(name) => name.as_str() == wanted,
        Err(_) => false,
    }
}

/// Whether a spec that is read and its first spare have their names.
fn are_named(alloc: Global) -> bool {
    match parse_spec(b"draid2:1s:11c:4d", 11, 1) {
        Ok(spec) => {
            is_name(spec_name(alloc, spec), "draid2:4d:11c:1s")
                && is_name(spare_name(alloc, spec, 0), "draid2-0-0")
        }
        Err(_) => false,
    }
}

#[test]
fn names_are_told(rt: HostRuntime) {
    assert!(rt; are_named(rt.alloc()));
}
