use draid_names::{Arm, ArmKind, PassKind};
use draid_report::{ArmView, MetaslabView, PassView, View, status_json, status_text};
use std::alloc::{AllocError, Global};

/// An arm by its slot: what it is, the name of a spare, and how many groups it missed.
#[derive(Clone, Copy)]
struct ArmRow {
    slot: u32,
    arm: Arm,
    name: &'static str,
    logged: u64,
}

/// Leaf 0 in slot 0, which missed nothing.
const LEAF: ArmRow = ArmRow {
    slot: 0,
    arm: ONLINE,
    name: "",
    logged: 0,
};

const ONLINE: Arm = Arm {
    kind: ArmKind::Leaf,
    number: 0,
    offline: false,
    fresh: false,
};

/// What a pool has, and how its status is told.
struct Pool {
    name: &'static str,
    group: u64,
    open_group: u64,
    objects: u64,
    slots: u32,
    arms: &'static [ArmRow],
    metaslabs: &'static [MetaslabView],
    text: &'static str,
    json: &'static str,
}

/// The arms of a slot.
fn slot_of(alloc: Global, slot: u32, rows: &[ArmRow]) -> Result<Vec<ArmView>, AllocError> {
    let mut arms = Vec::new(alloc);
    for row in rows {
        if row.slot == slot {
            arms.push(ArmView {
                arm: row.arm,
                spare_name: String::from_str(alloc, row.name)?,
                logged: row.logged,
            })?;
        }
    }
    Ok(arms)
}

/// So many slots with those arms.
fn slots_of(alloc: Global, count: u32, rows: &[ArmRow]) -> Result<Vec<Vec<ArmView>>, AllocError> {
    let mut slots = Vec::new(alloc);
    for slot in 0..count {
        slots.push(slot_of(alloc, slot, rows)?)?;
    }
    Ok(slots)
}

/// What `status` is told of a pool.
fn view_of(alloc: Global, pool: &Pool) -> Result<View, AllocError> {
    Ok(View {
        name: String::from_str(alloc, pool.name)?,
        group: pool.group,
        open_group: pool.open_group,
        objects: pool.objects,
        slots: slots_of(alloc, pool.slots, pool.arms)?,
        metaslabs: Vec::from_slice(alloc, pool.metaslabs)?,
    })
}

/// Whether what `status` is told of a pool is printed so, as a text and as a value.
fn prints(alloc: Global, view: &View, text: &str, json: &str) -> bool {
    match (status_text(alloc, view), status_json(alloc, view)) {
        (Ok(told), Ok(value)) => {
            told.as_slice() == text.as_bytes() && value.as_slice() == json.as_bytes()
        }
        _ => false,
    }
}

/// Whether the status of a pool is.
fn is_told(alloc: Global, pool: &Pool) -> bool {
    match view_of(alloc, pool) {
        Ok(view) => prints(alloc, &view, pool.text, pool.json),
        Err(_) => false,
    }
}

const NEW: &str = "pool draid1:2d:3c:0s-0 group=1 open=2 objects=0
slot 0 leaf 0 online logged=0
slot 1 leaf 1 online logged=0
slot 2 leaf 2 online logged=0
metaslab 0 free=32 blocks=0 none
end
";

const NEW_JSON: &str =
    "{\"group\":1,\"metaslabs\":[{\"blocks\":0,\"free\":32,\"number\":0,\"pass\":null}],\"name\":\"draid1:2d:3c:0s-0\",\"objects\":0,\"open\":2,\"slots\":[[{\"kind\":\"leaf\",\"logged\":0,\"number\":0,\"offline\":false}],[{\"kind\":\"leaf\",\"logged\":0,\"number\":1,\"offline\":false}],[{\"kind\":\"leaf\",\"logged\":0,\"number\":2,\"offline\":false}]]}\n";

const SECOND: ArmRow = ArmRow {
    slot: 1,
    arm: Arm {
        number: 1,
        ..ONLINE
    },
    ..LEAF
};

const THIRD: ArmRow = ArmRow {
    slot: 2,
    arm: Arm {
        number: 2,
        ..ONLINE
    },
    ..LEAF
};

/// A leaf that is offline, and a spare in its place.
const LOST: ArmRow = ArmRow {
    arm: Arm {
        offline: true,
        ..ONLINE
    },
    logged: 7,
    ..LEAF
};

const SPARE: ArmRow = ArmRow {
    arm: Arm {
        kind: ArmKind::Spare,
        ..ONLINE
    },
    name: "draid2-0-0",
    ..LEAF
};

/// Leaf 3 in place of another one.
const FRESH: ArmRow = ArmRow {
    slot: 1,
    arm: Arm {
        number: 3,
        fresh: true,
        ..ONLINE
    },
    logged: 12,
    ..LEAF
};

/// Metaslabs whose passes have stopped in the middle, and one without a pass.
const PAUSED: [MetaslabView; 3] = [
    MetaslabView {
        free: 3,
        blocks: 40,
        pass: Some(PassView {
            number: 1,
            kind: PassKind::Rebuild,
            at: 5,
            errors: 0,
        }),
    },
    MetaslabView {
        free: 0,
        blocks: 4096,
        pass: Some(PassView {
            number: 2,
            kind: PassKind::Heal,
            at: 281_474_976_710_655,
            errors: 3,
        }),
    },
    MetaslabView {
        free: 64,
        blocks: 0,
        pass: None,
    },
];

const REPAIRED: &str = "pool draid2:2d:6c:1s-0 group=9 open=11 objects=400
slot 0 leaf 0 offline logged=7
slot 0 spare draid2-0-0 online logged=0
slot 1 leaf 3 online logged=12
metaslab 0 free=3 blocks=40 rebuild 1 at=5 errors=0
metaslab 1 free=0 blocks=4096 scrub 2 at=281474976710655 errors=3
metaslab 2 free=64 blocks=0 none
end
";

const REPAIRED_JSON: &str =
    "{\"group\":9,\"metaslabs\":[{\"blocks\":40,\"free\":3,\"number\":0,\"pass\":{\"at\":5,\"errors\":0,\"kind\":\"rebuild\",\"number\":1}},{\"blocks\":4096,\"free\":0,\"number\":1,\"pass\":{\"at\":281474976710655,\"errors\":3,\"kind\":\"scrub\",\"number\":2}},{\"blocks\":0,\"free\":64,\"number\":2,\"pass\":null}],\"name\":\"draid2:2d:6c:1s-0\",\"objects\":400,\"open\":11,\"slots\":[[{\"kind\":\"leaf\",\"logged\":7,\"number\":0,\"offline\":true},{\"kind\":\"spare\",\"logged\":0,\"number\":0,\"offline\":false}],[{\"kind\":\"leaf\",\"logged\":12,\"number\":3,\"offline\":false}]]}\n";

/// A new pool of three disks and one empty metaslab, and a pool of those slots and metaslabs.
static POOLS: [Pool; 2] = [
    Pool {
        name: "draid1:2d:3c:0s-0",
        group: 1,
        open_group: 2,
        objects: 0,
        slots: 3,
        arms: &[LEAF, SECOND, THIRD],
        metaslabs: &[MetaslabView {
            free: 32,
            blocks: 0,
            pass: None,
        }],
        text: NEW,
        json: NEW_JSON,
    },
    Pool {
        name: "draid2:2d:6c:1s-0",
        group: 9,
        open_group: 11,
        objects: 400,
        slots: 2,
        arms: &[LOST, SPARE, FRESH],
        metaslabs: &PAUSED,
        text: REPAIRED,
        json: REPAIRED_JSON,
    },
];

#[test]
fn pools_are_told(rt: HostRuntime) {
    for pool in POOLS.iter() {
        let name = pool.name;
        assert!(rt; is_told(rt.alloc(), pool), "{name}");
    }
}
