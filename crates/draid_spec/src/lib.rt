//! The specs of pools, as `draid2:4d:11c:1s`, and the numbers of a pool's layout.
#![tactic(auto)]

mod extents;
mod laws;
mod layout;
mod names;
mod numbers;
mod spec;
mod text;

pub use laws::{layout_is_given, text_is_read};
pub use layout::{Geometry, Props};
pub use names::{spare_name, spec_name};
pub use numbers::{geometry, most_children};
pub use spec::{Spec, SpecFault};
pub use text::parse_spec;
