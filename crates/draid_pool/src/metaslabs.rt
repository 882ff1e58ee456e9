ghost use Rattle.std.specs.Prelude.{◌≡◌, ℕ, Bool, List, Option};

use draid_area::Area;
use draid_rack::Rack;
use draid_shard::Shard;
use draid_turn::Act;

/// Metaslabs that are held one at a time. Others may hold them in between.
pub trait Metaslabs<R: Rack, A: Area> {
    ghost use Rattle.draid_turn.specs.Calls.{Lock};
    ghost use Rattle.draid_shard.specs.declared.shard.Shard.{Shard};
    ghost use Rattle.draid_pool.specs.declared.cell.Cell.{Cell};
    ghost use Rattle.draid_pool.specs.Holding.{Holds, MayHold};

    /// How each metaslab was left as it was last held here.
    ghost last: { Self → ℕ → Option (Shard R A) };

    /// Which objects nobody else touches.
    ghost owns: { Self → ℕ → Bool };

    /// The locks under which they lie, none where nobody else holds them.
    ghost locks: { Self → List (Lock (Cell R A)) };

    /// Whether others may hold them in between.
    ghost shared: { Bool };

    /// That they may be held.
    ghost fits: { Self → Type 0 };

    /// That one hold of a metaslab found it so, left it so, and led from the one to the other.
    ghost went: { Self → ℕ → Shard R A → Shard R A → Self → Type 0 };

    /// Holds a metaslab, and runs the operation once.
    fn hold<O: Act<Shard<R, A>>>(&mut self, metaslab: u32, op: O) -> O
        requires fits { fits self.old }
        requires may { MayHold R.Rack A.Area O.needs O.relates O.concerns shared (owns self.old) (last self.old) metaslab op }
        ensures fits { fits self.new }
        ensures locks { locks self.new ≡ locks self.old }
        ensures owns { owns self.new ≡ owns self.old }
        ensures held { Holds R.Rack A.Area O.relates O.concerns (λ before after. went self.old metaslab before after self.new) shared (owns self.old) (last self.old) metaslab op result (last self.new) };
}
