ghost use Rattle.std.specs.Prelude.{◌≡◌, ◌≢◌, ◌+◌, ◌*◌, ◌%◌, ◌<◌, ◌≤◌, ℕ};
ghost use Rattle.draid_spec.specs.Geometry.{pool_stripes, child_sectors, metaslab_stripes, metaslab_sectors};
ghost use Rattle.draid_spec.specs.declared.layout.Geometry.{Geometry};
ghost use Rattle.draid_perm.specs.declared.perms.Perms.{Perms};
ghost use Rattle.draid_map.specs.declared.sectors.Owner.{Owner};
ghost use Rattle.draid_map.specs.Owner.{Owns};
ghost use Rattle.draid_map.specs.Place.{IsLayout, place_of, spare_child_of};

/// Law: each column of a pool has a place of its own, before the end of the last slice.
#[tactic(auto, using(crate::proofs::Distinct::place_apart, crate::proofs::Distinct::place_within))]
pub fn places_lie_apart()
    ensures apart { (geometry : Geometry) (perms : Perms) (k a l b : ℕ) → IsLayout geometry perms
        → a < geometry.g → b < geometry.g
        → place_of geometry perms k a ≡ place_of geometry perms l b → (k ≡ l) × (a ≡ b) }
    ensures within { (geometry : Geometry) (perms : Perms) (k a : ℕ) → IsLayout geometry perms
        → k < pool_stripes geometry → a < geometry.g
        → (place_of geometry perms k a).sector < child_sectors geometry }
{}

/// Law: the columns of a stripe lie on as many children.
#[tactic(auto, using(crate::proofs::Distinct::columns_apart))]
pub fn columns_lie_on_children()
    ensures { (geometry : Geometry) (perms : Perms) (k a b : ℕ) → IsLayout geometry perms
        → a < geometry.g → b < geometry.g
        → (place_of geometry perms k a).child ≡ (place_of geometry perms k b).child → a ≡ b }
{}

/// Law: no spare keeps a sector where a column has its place, and no two spares keep it on one child.
#[tactic(auto, using(crate::proofs::Distinct::spare_apart, crate::proofs::Distinct::spares_apart))]
pub fn spares_lie_apart()
    ensures columns { (geometry : Geometry) (perms : Perms) (k a t : ℕ) → IsLayout geometry perms
        → a < geometry.g → t < geometry.spec.spares
        → spare_child_of geometry perms t (place_of geometry perms k a).sector
        ≢ (place_of geometry perms k a).child }
    ensures spares { (geometry : Geometry) (perms : Perms) (t u sector : ℕ) → IsLayout geometry perms
        → t < geometry.spec.spares → u < geometry.spec.spares
        → spare_child_of geometry perms t sector ≡ spare_child_of geometry perms u sector → t ≡ u }
{}

/// Law: no sector of a child has two owners. `owner` names the one.
#[tactic(auto, using(crate::proofs::Distinct::one_owner))]
pub fn sectors_have_one_owner()
    ensures { (geometry : Geometry) (perms : Perms) (child sector : ℕ) (x y : Owner)
        → IsLayout geometry perms
        → Owns geometry perms child sector x → Owns geometry perms child sector y → x ≡ y }
{}

/// Law: the stripes of a group that follow one another have each column at sectors that follow one another, on one child.
#[tactic(auto, using(crate::proofs::Runs::run_follows, crate::proofs::Runs::place_child))]
pub fn runs_lie_in_order()
    ensures order { (geometry : Geometry) (perms : Perms) (k j a : ℕ) → IsLayout geometry perms
        → k % geometry.props.height + j < geometry.props.height
        → place_of geometry perms (k + j) a
        ≡ record { child = (place_of geometry perms k a).child; sector = (place_of geometry perms k a).sector + j } }
    ensures child { (geometry : Geometry) (perms : Perms) (k a : ℕ) → IsLayout geometry perms
        → (place_of geometry perms k a).child < geometry.spec.children }
{}

/// Law: the stripes of a metaslab have their places in its part of each child.
pub fn metaslabs_lie_apart()
    ensures from { (geometry : Geometry) (perms : Perms) (m k a : ℕ) → IsLayout geometry perms
        → a < geometry.g → m * metaslab_stripes geometry ≤ k
        → m * metaslab_sectors geometry ≤ (place_of geometry perms k a).sector }
    ensures to { (geometry : Geometry) (perms : Perms) (m k a : ℕ) → IsLayout geometry perms
        → a < geometry.g → k < (m + 1) * metaslab_stripes geometry
        → (place_of geometry perms k a).sector < (m + 1) * metaslab_sectors geometry }
{}
