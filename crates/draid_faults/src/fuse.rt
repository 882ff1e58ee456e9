use std::alloc::{AllocError, Global};
use std::sync::Arc;
use std::sync::atomic::AtomicU64;
use std::sync::atomic::Ordering::SeqCst;

/// A number of calls that several devices share. Once so many have passed, each further one fails.
#[derive(Drop)]
pub struct Fuse {
    left: Arc<AtomicU64>,
}

impl Fuse {
    /// A fuse that lets so many calls pass.
    pub fn new(alloc: Global, calls: u64) -> Result<Fuse, AllocError> {
        Ok(Fuse {
            left: Arc::new(alloc, AtomicU64::new(calls))?,
        })
    }

    /// The same fuse, for another device.
    pub fn share(&self) -> Result<Fuse, AllocError> {
        Ok(Fuse {
            left: Arc::try_clone(&self.left)?,
        })
    }

    /// Lets a call pass, or answers that it has burnt.
    pub(crate) fn burns(&self) -> bool {
        self.left
            .fetch_update(SeqCst, SeqCst, |left| left.checked_sub(1))
            .is_err()
    }
}
