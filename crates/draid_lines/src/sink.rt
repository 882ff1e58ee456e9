ghost use Rattle.std.specs.Prelude.{◌≡◌, ◌+◌, ◌-◌, ◌^◌, ◌<◌, ◌⊎◌, ℕ, List, Option, Some, Contains, IsErr, MatchResult, OnErr, length, min, []};
ghost use Rattle.draid_names.specs.Faults.{HasCause};
ghost use Rattle.draid_lines.specs.Sink.{PutAppends};

use draid_names::Failed;
use std::alloc::{AllocError, Global};
use std::marker::Model;

/// Where the replies to a script go.
pub trait Sink {
    // the bytes that it holds, where it tells
    ghost held: { Self → Option (List ℕ) };

    // how often it has failed
    ghost faults: { Self → ℕ };

    /// Adds the bytes at the end. After `Failed` a front of them is held.
    fn put(&mut self, bytes: &[u8]) -> Result<(), Failed>
        ensures bytes { PutAppends (held self.old) (held self.new) result bytes.now }
        ensures cause { HasCause (faults self.old) (faults self.new) result };
}

/// A sink in memory.
#[derive(Drop)]
pub struct MemorySink {
    bytes: Vec<u8>,
    calls: u64,
    failing: Vec<u64>,
    faults: u64,
}

impl Model for MemorySink {
    ghost use Rattle.std.specs.Prelude.{vec_capacity};
    ghost use Rattle.draid_lines.specs.Sink.{SinkState};

    ghost Value = { SinkState };

    ghost view = { λ s. record {
      held = s.bytes.items;
      room = vec_capacity s.bytes;
      calls = s.calls;
      failing = s.failing.items;
      faults = s.faults;
    } };
}

impl MemorySink {
    /// Holds nothing yet. The calls of `put` whose numbers, counted from 0, `failing` lists answer `Failed`.
    pub fn new(alloc: Global, failing: Vec<u64>) -> MemorySink
        ensures held { result.held ≡ [] }
        ensures calls { result.calls ≡ 0 }
        ensures failing { result.failing ≡ failing.items }
        ensures faults { result.faults ≡ 0 }
    {
        MemorySink {
            bytes: Vec::new(alloc),
            calls: 0,
            failing,
            faults: 0,
        }
    }

    /// The bytes that it holds.
    pub fn held(&self) -> &[u8]
        ensures { result.now ≡ self.now.held }
    {
        &self.bytes
    }
}

impl Sink for MemorySink {
    ghost held = { λ s. Some s.held };

    ghost faults = { λ s. s.faults };

    fn put(&mut self, bytes: &[u8]) -> Result<(), Failed>
        ensures bytes { PutAppends (Some self.old.held) (Some self.new.held) result bytes.now }
        ensures cause { HasCause self.old.faults self.new.faults result }

        // It fails where the list names the call; else only where it had no room and got no memory.
        ensures listed { Contains self.old.failing self.old.calls → IsErr result }
        ensures full { OnErr result (Contains self.old.failing self.old.calls
            ⊎ (self.old.room < length self.old.held + length bytes.now)) }
        ensures err { OnErr result (self.new.held ≡ self.old.held) }
        ensures counted { MatchResult result (λ _. self.new.faults ≡ self.old.faults)
            (λ _. self.new.faults ≡ min (self.old.faults + 1) (2 ^ 64 - 1)) }
        ensures calls { self.new.calls ≡ min (self.old.calls + 1) (2 ^ 64 - 1) }
        ensures failing { self.new.failing ≡ self.old.failing }
    {
        let fails = self.failing.contains(&self.calls);
        self.calls = self.calls.saturating_add(1);
        if fails {
            self.faults = self.faults.saturating_add(1);
            return Err(Failed);
        }
        match self.bytes.extend_from_slice(bytes) {
            Ok(()) => Ok(()),
            Err(AllocError) => {
                self.faults = self.faults.saturating_add(1);
                Err(Failed)
            }
        }
    }
}
