//! The uberblock area: which group was committed last, written so that a crash leaves the group before or the new one; and
//! the areas of the check records, in which that of each group that may be found stands.

#![tactic(auto)]

mod areas;
mod checks;
mod laws;
mod slots;
mod steps;
mod uber;

pub use areas::Areas;
pub use checks::CheckFault;
pub use draid_names::DeviceFault;
pub use laws::crashes_leave_what_stands;
pub use uber::{Uber, UberFault, UberRefused};
