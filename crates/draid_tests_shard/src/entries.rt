ghost use Rattle.std.specs.Prelude.{◌≡◌, ℕ, None};
ghost use Rattle.draid_machine.specs.declared.names.Key.{Key};
ghost use Rattle.draid_entries.specs.Entries.{entry_at, held_in};
ghost use Rattle.draid_entries.specs.History.{reserved_of};

use draid_entries::{Entries, History, ReserveFault, key_of};
use draid_machine::{Event, Key, Stage};
use draid_names::{NoMemory, Pointer};
use std::alloc::Global;

/// A block of one stripe.
const POINTER: Pointer = Pointer {
    object: 7,
    seq: 1,
    metaslab: 0,
    first: 3,
    stripes: 1,
    len: 5,
    birth: 2,
    digest: [0; 32],
};

/// What a table has of the block as its write begins.
const BEGUN: Stage = Stage::Writing {
    columns: 0,
    missed: 0,
};

/// Whether just the block is in a table, at this stage.
fn has(entries: &Entries, stage: Stage) -> bool {
    match entries.at(3) {
        Some(entry) => entry.stage == stage && entries.count() == 1,
        None => false,
    }
}

fn is_empty(entries: &Entries) -> bool {
    entries.at(3).is_none() && entries.count() == 0
}

/// Whether a table has the block from the beginning of its write on, as a live one then, and no more as it is gone.
fn comes_turns_and_goes(entries: &mut Entries) -> Result<bool, NoMemory>
    requires free { (first : ℕ) → entry_at entries.old first ≡ None }
    requires unused { (key : Key) → held_in entries.old key ≡ None }
{
    let before = is_empty(entries);
    entries.begin(POINTER)?;
    let begun = has(entries, BEGUN);
    entries.turn(&POINTER, Stage::Live);
    let live = has(entries, Stage::Live);
    entries.remove(&POINTER);
    Ok(before && begun && live && is_empty(entries))
}

/// The same of a new table.
fn an_entry_lives(alloc: Global) -> bool {
    let mut entries = Entries::new(alloc);
    comes_turns_and_goes(&mut entries) == Ok(true)
}

#[test]
fn an_entry_comes_turns_and_goes(rt: HostRuntime) {
    assert!(rt; an_entry_lives(rt.alloc()));
}

#[test]
fn a_block_has_a_key(rt: HostRuntime) {
    assert!(rt; key_of(&POINTER) == Key { object: 7, seq: 1 });
}

fn event() -> Event {
    Event::Finish {
        key: key_of(&POINTER),
    }
}

/// Whether two events are reserved, and an event that uses both is the third that is stored.
fn reserves_two(history: &mut History) -> bool {
    if history.reserve(2).is_err() || history.reserved() != 2 {
        return false;
    }
    history.add_reserved(event(), 1);
    history.reserved() == 0 && history.events().len() == 3
}

/// Whether a history of 3,080 events is worn where eight are asked for, but for the closing of a group. Seven of them are
/// owed then, and stored as one.
fn wears(history: &mut History) -> bool
    requires { reserved_of history.old ≡ 0 }
{
    if history.is_worn(8) || history.ask(8).is_err() {
        return false;
    }
    history.add_asked(event(), 8);
    let is_worn = history.is_worn(1);
    let asked = history.ask(1);
    let for_group = history.ask_for_group(3072);
    history.add(event(), 7);
    let worn = Err(ReserveFault::Worn { events: 8 });
    is_worn && asked == worn && for_group.is_ok() && reserves_two(history)
}

/// The same of a new history.
fn a_history_wears(alloc: Global) -> bool {
    let mut history = History::new(alloc, 3080);
    wears(&mut history)
}

#[test]
fn events_that_are_owed_count(rt: HostRuntime) {
    assert!(rt; a_history_wears(rt.alloc()));
}
