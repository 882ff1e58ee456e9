use draid_lanes::Gate;
use std::alloc::{AllocError, Global};
use std::sync::atomic::AtomicU64;
use std::sync::atomic::Ordering::SeqCst;
use std::thread;

/// A lane waits before the lock of this number, counted from 0, until another has come to so many.
pub struct Stop {
    pub lane: u32,
    pub call: u64,
    pub of: u32,
    pub calls: u64,
}

/// How often a lane yields at most where it waits: a test ends also where the other one never comes.
pub const TURNS: u32 = 5_000_000;

/// A gate at which lanes wait for each other by a table.
#[derive(Drop)]
pub struct TableGate {
    stops: &'static [Stop],
    /// How many locks each lane has come to.
    came: Vec<AtomicU64>,
    /// How often a lane waited for one that didn't come.
    missed: AtomicU64,
}

impl TableGate {
    /// A gate for so many lanes.
    pub fn new(
        alloc: Global,
        lanes: usize,
        stops: &'static [Stop],
    ) -> Result<TableGate, AllocError> {
        let mut came = Vec::new(alloc);
        for _ in 0..lanes {
            came.push(AtomicU64::new(0))?;
        }
        Ok(TableGate {
            stops,
            came,
            missed: AtomicU64::new(0),
        })
    }

    /// Whether each lane for which one waited came.
    pub fn is_met(&self) -> bool {
        self.missed.load(SeqCst) == 0
    }

    /// Whether a lane has come to so many locks.
    fn has_come(&self, lane: u32, calls: u64) -> bool {
        match self.came.get(lane as usize) {
            Some(came) => came.load(SeqCst) >= calls,
            None => true,
        }
    }

    fn wait_for(&self, lane: u32, calls: u64) {
        for _ in 0..TURNS {
            if self.has_come(lane, calls) {
                return;
            }
            thread::yield_now();
        }
        self.missed.fetch_add(1, SeqCst);
    }
}

impl Gate for TableGate {
    fn pass(&self, lane: u32, call: u64) {
        if let Some(came) = self.came.get(lane as usize) {
            came.fetch_add(1, SeqCst);
        }
        for stop in self.stops {
            if stop.lane == lane && stop.call == call {
                self.wait_for(stop.of, stop.calls);
            }
        }
    }
}
