//! What an earlier loan left.

use draid_machine::ArmName;
use draid_shard::{KeptLoan, LandingRoom, ReadArm, ReadingRoom};
use std::alloc::Global;

/// The lists and buffers of a loan.
#[derive(Drop)]
pub(crate) struct Rest {
    pub columns: Vec<Option<Vec<u8>>>,
    pub chosen: Vec<Option<ArmName>>,
    pub read: Vec<ReadArm>,
    pub room: LandingRoom,
    pub aside: ReadingRoom,
}

/// Those of a block's loan, and else empty ones.
pub(crate) fn rest_of(alloc: Global, idle: Option<KeptLoan>) -> Rest {
    if let Some(KeptLoan::Block(lent)) = idle {
        return Rest {
            columns: lent.columns,
            chosen: lent.chosen,
            read: lent.read,
            room: lent.room,
            aside: lent.aside,
        };
    }
    Rest {
        columns: Vec::new(alloc),
        chosen: Vec::new(alloc),
        read: Vec::new(alloc),
        room: LandingRoom {
            spots: Vec::new(alloc),
            sector: Vec::new(alloc),
            parts: Vec::new(alloc),
            patched: Vec::new(alloc),
            failed: Vec::new(alloc),
        },
        aside: ReadingRoom {
            spare: Vec::new(alloc),
            buffers: Vec::new(alloc),
            failed: Vec::new(alloc),
        },
    }
}
