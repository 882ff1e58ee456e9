use crate::metaslabs::Metaslabs;
use draid_area::Area;
use draid_rack::Rack;
use draid_shard::Shard;
use draid_turn::Act;

/// Metaslabs that nobody else holds.
#[derive(Drop)]
pub struct Owned<R: Rack, A: Area> {
    /// In the order of their numbers.
    pub shards: Vec<Shard<R, A>>,
}

impl<R: Rack, A: Area> Metaslabs<R, A> for Owned<R, A> {
    ghost use Rattle.std.specs.Prelude.{◌≡◌, ⊤, true, false, [], Some, slice_get, slice_set};

    ghost last = { λ o m. slice_get o.shards.items m };

    ghost owns = { λ _ _. true };

    ghost locks = { λ _. [] };

    ghost shared = { false };

    ghost fits = { λ _. ⊤ };

    // A hold that left the metaslab as it was left all so.
    ghost went = { λ o m before after o'. (slice_get o.shards.items m ≡ Some before) × (o'.shards.items ≡ slice_set o.shards.items m after) × (after ≡ before → o' ≡ o) };

    fn hold<O: Act<Shard<R, A>>>(&mut self, metaslab: u32, op: O) -> O {
        let mut op = op;
        op.act(&mut self.shards[metaslab as usize]);
        op
    }
}
