//! The blocks that an import finds in the metaslabs that it opened: of each object the newest, whether the metaslabs are those
//! of one pool, and whether they have the blocks that a check record names.

#![tactic(auto)]

mod alike;
mod beside;
mod drops;
mod fault;
mod finding;
mod older;

pub use beside::newest_beside;
pub use drops::first_lack;
pub use fault::FoundFault;
pub use finding::{Found, find_blocks, keep_newer};
pub use older::older_blocks;
