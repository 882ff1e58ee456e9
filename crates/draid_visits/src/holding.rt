//! What a rebuild, a scrub and a cancel do to one metaslab in a hold.
ghost use Rattle.draid_shard.specs.Fits.{Valid};
ghost use Rattle.draid_visits.specs.Cancelling.{CancelsIn};
ghost use Rattle.draid_visits.specs.Readies.{MayReadyIn, ReadiesIn};
ghost use Rattle.draid_visits.specs.Starts.{MayStartIn, StartsIn};
ghost use Rattle.draid_visits.specs.Units.{MayLendIn, UnitIn};

use crate::marks::number_of;
use crate::steps::{Next, is_rebuilt, next_in, ready_in, start_in};
use draid_area::Area;
use draid_names::PassKind;
use draid_passing::PlanFault;
use draid_pool::PASSES;
use draid_rack::Rack;
use draid_shard::Shard;
use draid_turn::Act;

/// Ends the pass of a metaslab, if it has one; the answer is how many that are.
fn cancel_in<R: Rack, A: Area>(shard: &mut Shard<R, A>) -> u32
    requires { Valid R.Rack shard.old }
    ensures { CancelsIn R.Rack A.Area shard.old result shard.new }
{
    if shard.pass.is_none() {
        return 0;
    }
    draid_passing::cancel(shard);
    1
}

/// A pass of a metaslab goes on, or is planned.
fn start_by<R: Rack, A: Area>(shard: &mut Shard<R, A>, kind: PassKind) -> Result<u64, PlanFault>
    requires { MayStartIn R.Rack kind shard.old }
    ensures { StartsIn R.Rack A.Area kind shard.old result shard.new }
{
    start_in(shard, kind)
}

/// The end of the pass of a metaslab, if it has one.
#[derive(Drop)]
pub(crate) struct CancelOp {
    /// How many passes ended.
    pub out: u32,
}

impl<R: Rack, A: Area> Act<Shard<R, A>> for CancelOp {
    ghost use Rattle.std.specs.Prelude.{Some};
    ghost use Rattle.draid_shard.specs.Fits.{Valid};
    ghost use Rattle.draid_pool.specs.Drifts.{passes_number};
    ghost use Rattle.draid_visits.specs.Cancelling.{CancelsIn};

    ghost needs = { λ _ s. Valid R.Rack s };

    ghost relates = { λ o s o' s'. CancelsIn R.Rack A.Area s o'.out s' };

    ghost concerns = { λ _. Some passes_number };

    fn concerned(&self) -> Option<u64> {
        Some(PASSES)
    }

    fn act(&mut self, shard: &mut Shard<R, A>) {
        self.out = cancel_in(shard);
    }
}

/// A look at the number of a metaslab's pass of a kind.
#[derive(Drop)]
pub(crate) struct PassOp {
    pub kind: PassKind,
    pub out: Option<u64>,
}

impl<R: Rack, A: Area> Act<Shard<R, A>> for PassOp {
    ghost use Rattle.std.specs.Prelude.{None};
    ghost use Rattle.draid_shard.specs.Fits.{Valid};
    ghost use Rattle.draid_visits.specs.Looks.{SeesPass};

    ghost needs = { λ _ s. Valid R.Rack s };

    ghost relates = { λ o s o' s'. SeesPass o.kind o'.out s s' };

    ghost concerns = { λ _. None };

    fn concerned(&self) -> Option<u64> {
        None
    }

    fn act(&mut self, shard: &mut Shard<R, A>) {
        self.out = number_of(shard, self.kind);
    }
}

/// A look at whether a rebuild visits a metaslab.
#[derive(Drop)]
pub(crate) struct RebuiltOp {
    pub out: bool,
}

impl<R: Rack, A: Area> Act<Shard<R, A>> for RebuiltOp {
    ghost use Rattle.std.specs.Prelude.{None};
    ghost use Rattle.draid_shard.specs.Fits.{Valid};
    ghost use Rattle.draid_visits.specs.Looks.{SeesRebuilt};

    ghost needs = { λ _ s. Valid R.Rack s };

    ghost relates = { λ o s o' s'. SeesRebuilt R.Rack A.Area o'.out s s' };

    ghost concerns = { λ _. None };

    fn concerned(&self) -> Option<u64> {
        None
    }

    fn act(&mut self, shard: &mut Shard<R, A>) {
        self.out = is_rebuilt(shard);
    }
}

/// The beginning of the visit of a metaslab: its pass of a kind goes on, or one is planned.
#[derive(Drop)]
pub(crate) struct StartOp {
    pub kind: PassKind,
    /// The stripe at which it stands, or why there is none.
    pub out: Option<Result<u64, PlanFault>>,
}

impl<R: Rack, A: Area> Act<Shard<R, A>> for StartOp {
    ghost use Rattle.std.specs.Prelude.{Some, MatchOption};
    ghost use Rattle.draid_pool.specs.Drifts.{passes_number};
    ghost use Rattle.draid_visits.specs.Starts.{MayStartIn, StartsIn};

    ghost needs = { λ o s. MayStartIn R.Rack o.kind s };

    ghost relates = { λ o s o' s'. MatchOption o'.out ⊥ (λ result. StartsIn R.Rack A.Area o.kind s result s') };

    ghost concerns = { λ _. Some passes_number };

    fn concerned(&self) -> Option<u64> {
        Some(PASSES)
    }

    fn act(&mut self, shard: &mut Shard<R, A>) {
        self.out = Some(start_by(shard, self.kind));
    }
}

/// The rebuild of a metaslab runs, or begins to.
fn ready_by<R: Rack, A: Area>(shard: &mut Shard<R, A>) -> bool
    requires { MayReadyIn R.Rack shard.old }
    ensures { ReadiesIn R.Rack A.Area result shard.old shard.new }
{
    ready_in(shard)
}

/// The start of a rebuild's run in a metaslab, where it needn't wait.
#[derive(Drop)]
pub(crate) struct ReadyOp {
    /// Whether it runs.
    pub out: bool,
}

impl<R: Rack, A: Area> Act<Shard<R, A>> for ReadyOp {
    ghost use Rattle.std.specs.Prelude.{Some};
    ghost use Rattle.draid_pool.specs.Drifts.{passes_number};
    ghost use Rattle.draid_visits.specs.Readies.{MayReadyIn, ReadiesIn};

    ghost needs = { λ _ s. MayReadyIn R.Rack s };

    ghost relates = { λ o s o' s'. ReadiesIn R.Rack A.Area o'.out s s' };

    ghost concerns = { λ _. Some passes_number };

    fn concerned(&self) -> Option<u64> {
        Some(PASSES)
    }

    fn act(&mut self, shard: &mut Shard<R, A>) {
        self.out = ready_by(shard);
    }
}

/// Lends the next stripe or block of a metaslab's pass and lands it, or ends the pass.
fn unit_by<R: Rack, A: Area>(shard: &mut Shard<R, A>, kind: PassKind, used_up: bool) -> Next
    requires { MayLendIn R.Rack kind shard.old }
    ensures { UnitIn R.Rack A.Area kind used_up result shard.old shard.new }
{
    next_in(shard, kind, used_up)
}

/// The next stripe or block of a metaslab's pass, or the end of the pass.
#[derive(Drop)]
pub(crate) struct UnitOp {
    pub kind: PassKind,
    /// Whether no more is to be lent.
    pub used_up: bool,
    /// What came.
    pub out: Option<Next>,
}

impl<R: Rack, A: Area> Act<Shard<R, A>> for UnitOp {
    ghost use Rattle.std.specs.Prelude.{Some, MatchOption};
    ghost use Rattle.draid_pool.specs.Drifts.{passes_number};
    ghost use Rattle.draid_visits.specs.Units.{MayLendIn, UnitIn};

    ghost needs = { λ o s. MayLendIn R.Rack o.kind s };

    ghost relates = { λ o s o' s'. MatchOption o'.out ⊥ (λ came. UnitIn R.Rack A.Area o.kind o.used_up came s s') };

    ghost concerns = { λ _. Some passes_number };

    fn concerned(&self) -> Option<u64> {
        Some(PASSES)
    }

    fn act(&mut self, shard: &mut Shard<R, A>) {
        self.out = Some(unit_by(shard, self.kind, self.used_up));
    }
}
