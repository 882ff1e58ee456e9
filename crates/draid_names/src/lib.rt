//! The plain types that every layer of the pool speaks of, its limits, and the words for causes of faults.

#![tactic(auto)]

mod arm;
mod fault;
mod journal;
mod numbers;
mod pass_kind;
mod pointer;
mod refusal;
mod room;

pub use arm::{Arm, ArmAt, ArmKind, At};
pub use fault::{DeviceFault, Failed, NoMemory};
pub use journal::{Cause, Did, Entry};
pub use numbers::{LAST_NUMBER, LONGEST_BLOCK, LONGEST_LINE, NUMBERS, OBJECTS, most_held};
pub use pass_kind::PassKind;
pub use pointer::Pointer;
pub use refusal::{ObjectFault, SlotFault, WriteFault};
pub use room::Room;
