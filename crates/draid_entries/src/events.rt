ghost use Rattle.std.specs.Prelude.{◌≡◌, ◌+◌, ◌<◌, ◌≤◌, ◌↔◌, ◌++◌, ◌∷◌, [], IfOk, IsTrue, OnErr, OnOk, max};
ghost use Rattle.draid_entries.specs.History.{AskIs, IsAsked, IsReserved, KeepsOwed, Passes, events_of, left_for_groups, limit_in, owed_of, reserved_of};

use crate::history::{History, ReserveFault};
use draid_machine::Event;
use draid_names::NoMemory;
use std::alloc::Global;

/// So many events are left to the closing of groups: every other call keeps off so many before the limit.
const LEFT_FOR_GROUPS: u64 = 3072;

impl History {
    /// No event, with none owed, and with this limit.
    pub fn new(alloc: Global, limit: u64) -> History
        ensures events { events_of result ≡ [] }
        ensures none { (owed_of result ≡ 0) × (reserved_of result ≡ 0) }
        ensures limit { limit_in result ≡ limit }
    {
        History {
            events: Vec::new(alloc),
            owed: 0,
            reserved: 0,
            limit,
        }
    }

    /// No event, with so many owed, for which it has the room, and with this limit.
    pub fn opened(alloc: Global, limit: u64, owed: u64) -> Result<History, NoMemory>
        ensures events { IfOk result (λ history. events_of history ≡ []) }
        ensures owed { IfOk result (λ history. (owed_of history ≡ owed) × (reserved_of history ≡ 0)) }
        ensures limit { IfOk result (λ history. limit_in history ≡ limit) }
    {
        let mut events = Vec::new(alloc);
        events.reserve(owed as usize)?;
        Ok(History {
            events,
            owed,
            reserved: 0,
            limit,
        })
    }

    /// The events, in order.
    pub fn events(&self) -> &[Event]
        ensures { result.now ≡ events_of self.now }
    {
        self.events.as_slice()
    }

    /// How many events are reserved and not used.
    pub fn reserved(&self) -> u64
        ensures { result ≡ reserved_of self.now }
    {
        self.reserved
    }

    /// Whether so many events more, beside those that are stored and owed, pass the limit less so many.
    fn passes(&self, events: u64, left: u64) -> bool
        ensures { IsTrue result ↔ Passes self.now events left }
    {
        let used = self.events.len() as u64 + self.owed;
        let Some(free) = self.limit.checked_sub(used) else {
            return true;
        };
        let Some(free) = free.checked_sub(left) else {
            return true;
        };
        free < events
    }

    /// Whether a call that asks for so many events is told that they are too many.
    pub fn is_worn(&self, events: u64) -> bool
        ensures { IsTrue result ↔ Passes self.now events left_for_groups }
    {
        self.passes(events, LEFT_FOR_GROUPS)
    }

    /// Makes room for so many events beside those that are owed; they aren't owed yet.
    pub fn ask(&mut self, events: u64) -> Result<(), ReserveFault>
        ensures answer { AskIs self.old events left_for_groups result }
        ensures asked { OnOk result (IsAsked self.new events) }
        ensures same { KeepsOwed self.old self.new }
    {
        self.ask_within(events, LEFT_FOR_GROUPS)
    }

    /// The same for the closing of a group, which may use the limit up.
    pub fn ask_for_group(&mut self, events: u64) -> Result<(), ReserveFault>
        ensures answer { AskIs self.old events 0 result }
        ensures asked { OnOk result (IsAsked self.new events) }
        ensures same { KeepsOwed self.old self.new }
    {
        self.ask_within(events, 0)
    }

    fn ask_within(&mut self, events: u64, left: u64) -> Result<(), ReserveFault>
        ensures answer { AskIs self.old events left result }
        ensures asked { OnOk result (IsAsked self.new events) }
        ensures same { KeepsOwed self.old self.new }
    {
        if self.passes(events, left) {
            return Err(ReserveFault::Worn {
                events: self.events.len() as u64 + self.owed,
            });
        }
        self.make_room(events)?;
        Ok(())
    }

    fn make_room(&mut self, events: u64) -> Result<(), NoMemory>
        ensures asked { OnOk result (IsAsked self.new events) }
        ensures same { KeepsOwed self.old self.new }
    {
        let Some(room) = self.owed.checked_add(events) else {
            return Err(NoMemory);
        };
        self.events.reserve(room as usize)?;
        Ok(())
    }

    /// Reserves so many events, less those that are reserved.
    pub fn reserve(&mut self, events: u64) -> Result<(), ReserveFault>
        ensures answer { IsReserved self.old events result }
        ensures reserved { OnOk result (reserved_of self.new ≡ max events (reserved_of self.old)) }
        ensures owed { owed_of self.new + reserved_of self.old ≡ owed_of self.old + reserved_of self.new }
        ensures same { OnErr result (KeepsOwed self.old self.new) }
        ensures events { events_of self.new ≡ events_of self.old }
        ensures limit { limit_in self.new ≡ limit_in self.old }
    {
        if events <= self.reserved {
            return Ok(());
        }
        let more = events - self.reserved;
        self.ask(more)?;
        self.owed += more;
        self.reserved = events;
        Ok(())
    }

    /// Stores an event. So many of those that were owed are owed no more, itself among them.
    pub fn add(&mut self, event: Event, used: u64)
        requires some { 0 < used }
        requires owed { used + reserved_of self.old ≤ owed_of self.old }
        ensures stored { events_of self.new ≡ events_of self.old ++ event ∷ [] }
        ensures owed { owed_of self.new + used ≡ owed_of self.old }
        ensures reserved { reserved_of self.new ≡ reserved_of self.old }
        ensures limit { limit_in self.new ≡ limit_in self.old }
    {
        self.owed -= used;
        self.events.push_reserved(event);
    }

    /// Stores an event. So many were asked for, itself among them; the others are owed from now on.
    pub fn add_asked(&mut self, event: Event, asked: u64)
        requires some { 0 < asked }
        requires asked { IsAsked self.old asked }
        ensures stored { events_of self.new ≡ events_of self.old ++ event ∷ [] }
        ensures owed { owed_of self.new + 1 ≡ owed_of self.old + asked }
        ensures reserved { reserved_of self.new ≡ reserved_of self.old }
        ensures limit { limit_in self.new ≡ limit_in self.old }
    {
        self.events.push_reserved(event);
        self.owed += asked - 1;
    }

    /// So many events are owed no more: nothing comes of what owed them.
    pub fn forget(&mut self, events: u64)
        requires owed { events + reserved_of self.old ≤ owed_of self.old }
        ensures stored { events_of self.new ≡ events_of self.old }
        ensures owed { owed_of self.new + events ≡ owed_of self.old }
        ensures reserved { reserved_of self.new ≡ reserved_of self.old }
        ensures limit { limit_in self.new ≡ limit_in self.old }
    {
        self.owed -= events;
    }

    /// Stores an event for which one was reserved. So many further ones that were reserved stay owed, to a call that
    /// was made.
    pub fn add_reserved(&mut self, event: Event, passed: u64)
        requires reserved { passed < reserved_of self.old }
        ensures stored { events_of self.new ≡ events_of self.old ++ event ∷ [] }
        ensures owed { owed_of self.new + 1 ≡ owed_of self.old }
        ensures reserved { reserved_of self.new + (passed + 1) ≡ reserved_of self.old }
        ensures limit { limit_in self.new ≡ limit_in self.old }
    {
        self.reserved -= passed + 1;
        self.owed -= 1;
        self.events.push_reserved(event);
    }
}
