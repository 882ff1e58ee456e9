//! The arms of each child slot of a metaslab, and what each of them missed (OpenZFS, `vdev.c`).

#![tactic(auto)]

mod laws;
mod lists;
mod moved;
mod slot;
mod slots;

pub use draid_names::SlotFault;
pub use laws::spares_lie_by_the_layout;
pub use moved::Moved;
pub use slot::{Detached, Marks, ReadArm};
pub use slots::Slots;
