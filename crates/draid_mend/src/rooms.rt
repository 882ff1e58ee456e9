//! The room in memory that a lend and its landing want.
ghost use Rattle.std.specs.Prelude.{IfOk};
ghost use Rattle.draid_spec.specs.Geometry.{IsGeometry};
ghost use Rattle.draid_mend.specs.Loans.{HasLendRoom};
ghost use Rattle.draid_mend.specs.Rooms.{HasColumnsFor};

use crate::lending::Readings;
use draid_names::NoMemory;
use draid_parity::Stripe;
use draid_shard::{KeptLoan, LentStripe, Source};
use draid_spec::Geometry;
use std::alloc::Global;

/// What a lend takes memory for: the columns, from where each is taken, and the leaves that fail, now and as it lands.
#[derive(Drop)]
pub(crate) struct LendRoom {
    pub lent: Readings,
    pub failed: Vec<u64>,
}

/// Parts of that which an earlier loan may have left.
#[derive(Drop)]
struct Parts {
    columns: Stripe,
    chosen: Vec<Option<Source>>,
    failed: Vec<u64>,
    faults: Vec<u64>,
}

/// The room that a lend of a stripe wants, for so many targets: what an earlier loan left where it fits, and else new.
pub(crate) fn room_for(
    alloc: Global,
    geometry: &Geometry,
    targets: usize,
    idle: &mut Option<KeptLoan>,
) -> Result<LendRoom, NoMemory>
    requires geometry { IsGeometry geometry.now }
    ensures { IfOk result (HasLendRoom geometry.now targets) }
{
    let g = geometry.g as usize;
    let Some(calls) = targets.checked_mul(g) else {
        return Err(NoMemory);
    };
    let Parts {
        columns,
        mut chosen,
        mut failed,
        mut faults,
    } = parts_for(alloc, geometry, stripe_in(idle))?;
    chosen.clear();
    chosen.reserve(g)?;
    failed.clear();
    failed.reserve(calls)?;
    faults.clear();
    faults.reserve(g)?;
    Ok(LendRoom {
        lent: Readings {
            columns,
            chosen,
            failed: faults,
        },
        failed,
    })
}

/// Takes out an earlier loan. None where it wasn't a stripe's.
fn stripe_in(idle: &mut Option<KeptLoan>) -> Option<LentStripe> {
    match idle.take() {
        Some(KeptLoan::Stripe(kept)) => Some(kept),
        Some(KeptLoan::Block(_other)) => None,
        None => None,
    }
}

/// The parts that an earlier loan left, if its columns are those of a stripe of the layout, and else new ones.
fn parts_for(
    alloc: Global,
    geometry: &Geometry,
    idle: Option<LentStripe>,
) -> Result<Parts, NoMemory>
    requires geometry { IsGeometry geometry.now }
    ensures { IfOk result (λ parts. HasColumnsFor geometry.now parts.columns) }
{
    let (parity, ndata) = (geometry.spec.parity, geometry.spec.ndata);
    if let Some(kept) = idle {
        if kept.columns.is_of(parity, ndata, geometry.props.sector) {
            return Ok(Parts {
                columns: kept.columns,
                chosen: kept.chosen,
                failed: kept.failed,
                faults: kept.faults,
            });
        }
    }
    Ok(Parts {
        columns: Stripe::new(alloc, parity, ndata, geometry.props.sector)?,
        chosen: Vec::new(alloc),
        failed: Vec::new(alloc),
        faults: Vec::new(alloc),
    })
}
