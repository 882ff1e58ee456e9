ghost use Rattle.std.specs.Prelude.{◌≡◌, ◌≤◌, ℕ, IfOk, Ok, string_bytes};
ghost use Rattle.draid_spec.specs.Spec.{IsSpec, need_of, have_of};
ghost use Rattle.draid_spec.specs.Name.{spare_name_of, spec_name_of};
ghost use Rattle.draid_spec.specs.Text.{spec_by};

use crate::spec::Spec;
use std::alloc::{AllocError, Global};

/// A spec in full, as `draid2:4d:11c:1s`. It is read again as that spec.
pub fn spec_name(alloc: Global, spec: Spec) -> Result<String, AllocError>
    ensures text { IfOk result (λ name. string_bytes name ≡ spec_name_of spec) }
    ensures again { IfOk result (λ name. (version : ℕ) → IsSpec version spec → need_of spec ≤ have_of spec
        → spec_by (string_bytes name) spec.children version ≡ Ok spec) }
{
    let Spec {
        parity,
        ndata,
        children,
        spares,
    } = spec;
    format!(in alloc; "draid{parity}:{ndata}d:{children}c:{spares}s")
}

/// The name of a distributed spare, as `draid2-0-0`.
pub fn spare_name(alloc: Global, spec: Spec, spare: u32) -> Result<String, AllocError>
    ensures { IfOk result (λ name. string_bytes name ≡ spare_name_of spec spare) }
{
    let parity = spec.parity;
    format!(in alloc; "draid{parity}-0-{spare}")
}
