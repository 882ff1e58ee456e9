ghost use Rattle.std.specs.Prelude.{◌≡◌, ℕ, Option};
ghost use Rattle.draid_spec.specs.declared.layout.Geometry.{Geometry};
ghost use Rattle.draid_perm.specs.declared.perms.Perms.{Perms};
ghost use Rattle.draid_map.specs.Place as places;
ghost use Rattle.draid_chain.specs.Chain.{holder_in};
ghost use Rattle.draid_chain.specs.Used.{HasColumn};
ghost use Rattle.draid_layouts.specs.Layout.{layout_of, slice_in};
ghost use Rattle.draid_machine.specs.State.{IsLayout};

/// Law: each metaslab of a pool has a layout of which the laws on histories speak.
pub fn metaslabs_have_layouts()
    ensures { (geometry : Geometry) (perms : Perms) (metaslab : ℕ) → places.IsLayout geometry perms
        → IsLayout (layout_of geometry perms metaslab) }
{}

/// Law: where a slot has a column in a stripe's slice, the layout has its spare at the end of the chain.
pub fn homes_are_holders()
    ensures { (geometry : Geometry) (perms : Perms) (metaslab slot spare x : ℕ) (first : ℕ → Option ℕ)
        → HasColumn perms geometry.spec.spares (slice_in geometry metaslab x) slot
        → (layout_of geometry perms metaslab).home first spare x
        ≡ holder_in perms geometry.spec.spares (slice_in geometry metaslab x) first slot spare }
{}
