ghost use Rattle.draid_agent.specs.Policy.{Names};

use draid_agent::{Due, Journal, Policy, SlotState, due, first_free};
use draid_names::{Cause, Did, Entry};
use std::alloc::Global;

/// Slot 0, with one leaf that isn't offline and misses nothing.
const LEAF: SlotState = SlotState {
    slot: 0,
    arms: 1,
    leaf: true,
    offline: false,
    logged: 0,
};

static SLOTS: [SlotState; 6] = [
    SlotState { logged: 4, ..LEAF },
    SlotState {
        slot: 1,
        logged: 5,
        ..LEAF
    },
    // Offline, which goes before what is logged.
    SlotState {
        slot: 2,
        offline: true,
        logged: 9,
        ..LEAF
    },
    // It has a spare beside it.
    SlotState {
        slot: 3,
        arms: 2,
        offline: true,
        logged: 9,
        ..LEAF
    },
    // A spare stands for it.
    SlotState {
        slot: 4,
        leaf: false,
        logged: 9,
        ..LEAF
    },
    SlotState { slot: 5, ..LEAF },
];

static DUE: [(u32, Cause); 2] = [(1, Cause::Logged { groups: 5 }), (2, Cause::Offline)];

/// Whether just these slots are due.
fn are_due(found: &[Due], wanted: &[(u32, Cause)]) -> bool {
    if found.len() != wanted.len() {
        return false;
    }
    for at in 0..wanted.len() {
        if found[at].slot != wanted[at].0 || found[at].cause != wanted[at].1 {
            return false;
        }
    }
    true
}

#[test]
fn slots_are_due(rt: HostRuntime) {
    let Ok(found) = due(rt.alloc(), &SLOTS, 5) else {
        assert!(rt; false);
        return;
    };
    assert!(rt; are_due(&found, &DUE));
    let Ok(none) = due(rt.alloc(), &SLOTS[..1], 5) else {
        assert!(rt; false);
        return;
    };
    assert!(rt; none.is_empty());
}

#[test]
fn the_first_spare_that_is_free(rt: HostRuntime) {
    let policy = Policy::new(
        |slot: u32, logged: u64, free: &[u32]| -> Option<u32>
            ensures { Names free.now result }
        { first_free(slot, logged, free) },
    );
    assert!(rt; policy.choose(3, 0, &[1, 2]) == Some(1));
    assert!(rt; policy.choose(3, 0, &[]).is_none());
}

/// A journal of two entries.
fn journal(alloc: Global) -> Option<Journal> {
    let mut journal = Journal::new(alloc);
    journal.room(2).ok()?;
    journal.add(1, Cause::Offline, Did::Spared { spare: 0 });
    journal.room(1).ok()?;
    journal.add(4, Cause::Logged { groups: 7 }, Did::NoneFree);
    Some(journal)
}

#[test]
fn journals_number_their_entries(rt: HostRuntime) {
    let Some(journal) = journal(rt.alloc()) else {
        assert!(rt; false);
        return;
    };
    let [first, second] = journal.entries() else {
        assert!(rt; false);
        return;
    };
    assert!(rt;
        *first
            == Entry {
                number: 1,
                slot: 1,
                cause: Cause::Offline,
                did: Did::Spared { spare: 0 }
            }
    );
    assert!(rt;
        *second
            == Entry {
                number: 2,
                slot: 4,
                cause: Cause::Logged { groups: 7 },
                did: Did::NoneFree
            }
    );
}
