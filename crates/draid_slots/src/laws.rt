ghost use Rattle.std.specs.Prelude.{◌≡◌, ◌+◌, ◌*◌, ◌<◌, ℕ};
ghost use Rattle.draid_chain.specs.Chain.{holder_of};
ghost use Rattle.draid_spec.specs.Geometry.{IsGeometry, metaslab_sectors, slice_at};
ghost use Rattle.draid_slots.specs.Reading.{spare_slot};
ghost use Rattle.draid_slots.specs.Table.{SlotTable, first_spares};

/// Law: a spare keeps a sector of the metaslab at the slot that the layout of the pool names, the sectors of
/// each child being counted through the metaslabs.
#[tactic(auto, using(crate::proofs::Slices::layout_slot))]
pub fn spares_lie_by_the_layout()
    ensures { (table : SlotTable) (slot spare sector : ℕ) → IsGeometry table.geometry → sector < metaslab_sectors table.geometry
        → holder_of table.geometry table.perms (first_spares table) slot spare (table.metaslab * metaslab_sectors table.geometry + sector)
        ≡ spare_slot table slot spare (slice_at table.geometry sector) }
{}
