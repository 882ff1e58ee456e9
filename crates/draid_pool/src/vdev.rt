ghost use Rattle.std.specs.Prelude.{◌≡◌, IfOk, string_bytes};
ghost use Rattle.draid_session.specs.Making.{vdev_name_of};

use draid_names::NoMemory;
use draid_spec::{Spec, spec_name};
use std::alloc::Global;

/// The name of a pool's vdev: its spec in full, and the number of the vdev, which is the only one.
pub fn vdev_name(alloc: Global, spec: Spec) -> Result<String, NoMemory>
    ensures { IfOk result (λ name. string_bytes name ≡ vdev_name_of spec) }
{
    let mut name = spec_name(alloc, spec)?;
    name.push_str("-0")?;
    Ok(name)
}
