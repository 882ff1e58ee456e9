ghost use Rattle.std.specs.Prelude.{◌≡◌, ◌==◌, ◌+◌, ◌<◌, ◌&&◌, not, IfOk};
ghost use Rattle.draid_machine.specs.After as after;
ghost use Rattle.draid_machine.specs.Arms as arms;
ghost use Rattle.draid_machine.specs.Names.{has_segment};
ghost use Rattle.draid_machine.specs.declared.names.Segment.{Segment};
ghost use Rattle.draid_rebuilds.specs.Mending.{is_doubtful, is_in_stripe, is_taken_aside};
ghost use Rattle.draid_world.specs.World.{core_of, loan_of, name_at, pass_of, site_layout};

use crate::landings::taken_from;
use draid_machine::{ArmName, Held, Segment};
use draid_names::{NUMBERS, NoMemory};
use draid_passes::block_segments;
use draid_world::arms::is_among;
use draid_world::sets::has;
use draid_world::{Lent, Site, Tables, WorldPass};
use std::alloc::Global;
use std::collections::BTreeSet;

/// Whether a segment of a block lies in a stripe, on a target that answers there.
fn is_mended(
    site: &Site,
    tables: &Tables,
    targets: &[ArmName],
    first: u64,
    stripe: u64,
    segment: Segment,
) -> bool
    requires first { first < NUMBERS }
    requires stripe { stripe < NUMBERS }
    ensures { result ≡ is_in_stripe (site_layout site.now) (core_of tables.now) targets.now first stripe segment }
{
    first + u64::from(segment.row) == stripe
        && is_among(targets, segment.arm)
        && site.answers(tables, segment.arm, stripe)
}

/// The segments of a list that lie in a stripe, on targets that answer there.
fn in_stripe(
    alloc: Global,
    site: &Site,
    tables: &Tables,
    targets: &[ArmName],
    all: &[Segment],
    first: u64,
    stripe: u64,
) -> Result<Vec<Segment>, NoMemory>
    requires first { first < NUMBERS }
    requires stripe { stripe < NUMBERS }
    ensures { IfOk result (λ out. (s : Segment) → has_segment out.items s ≡ (has_segment all.now s && is_in_stripe (site_layout site.now) (core_of tables.now) targets.now first stripe s)) }
{
    let mut out = Vec::new(alloc);
    for segment in all {
        if is_mended(site, tables, targets, first, stripe, *segment) {
            out.push(*segment)?;
        }
    }
    Ok(out)
}

/// The segments of a loan's stripe on targets that answer.
pub(crate) fn mended(
    alloc: Global,
    site: &Site,
    tables: &Tables,
    pass: &WorldPass,
    loan: &Lent,
    held: Held,
) -> Result<Vec<Segment>, NoMemory>
    requires short { held.first + held.stripes < NUMBERS }
    requires stripe { loan.now.stripe < NUMBERS }
    ensures { IfOk result (λ out. (s : Segment) → has_segment out.items s ≡ after.is_mended (site_layout site.now) (core_of tables.now) (pass_of pass.now) (loan_of loan.now) held s) }
{
    let all = block_segments(alloc, site, tables, loan.key, held)?;
    in_stripe(
        alloc,
        site,
        tables,
        &pass.targets,
        &all,
        held.first,
        loan.stripe,
    )
}

/// The segments of a list whose write in a stripe didn't fail.
pub(crate) fn landed(
    alloc: Global,
    site: &Site,
    tables: &Tables,
    all: &[Segment],
    stripe: u64,
    failed: &[u64],
) -> Result<Vec<Segment>, NoMemory>
    requires stripe { stripe < NUMBERS }
    ensures { IfOk result (λ out. (s : Segment) → has_segment out.items s ≡ (has_segment all.now s && not (arms.fails (site_layout site.now) (core_of tables.now) failed.now s.arm stripe))) }
{
    let mut out = Vec::new(alloc);
    for segment in all {
        if !site.fails(tables, failed, segment.arm, stripe) {
            out.push(*segment)?;
        }
    }
    Ok(out)
}

/// Whether the reading from which a column is taken is in doubt, in the row of a segment.
fn is_aside_at(
    site: &Site,
    tables: &Tables,
    aside: &BTreeSet<Segment>,
    loan: &Lent,
    segment: Segment,
    column: u32,
) -> bool
    requires stripe { loan.now.stripe < NUMBERS }
    ensures { result ≡ is_taken_aside (site_layout site.now) (core_of tables.now) (has_segment aside.now.keys) (loan_of loan.now) segment column (name_at loan.now.chosen.items column) }
{
    let Some(arm) = taken_from(loan, column) else {
        return false;
    };
    let Some(leaf) = site.leaf_at(&tables.order, arm, loan.stripe) else {
        return false;
    };
    has(
        aside,
        Segment {
            key: segment.key,
            column,
            arm,
            leaf,
            row: segment.row,
        },
    )
}

/// Whether a segment that is mended is in doubt: as its source, or as any reading where it has none.
fn is_in_doubt(
    site: &Site,
    tables: &Tables,
    aside: &BTreeSet<Segment>,
    loan: &Lent,
    segment: Segment,
) -> bool
    requires stripe { loan.now.stripe < NUMBERS }
    ensures { result ≡ is_doubtful (site_layout site.now) (core_of tables.now) (has_segment aside.now.keys) (loan_of loan.now) segment }
{
    if taken_from(loan, segment.column).is_some() {
        return is_aside_at(site, tables, aside, loan, segment, segment.column);
    }
    for column in 0..site.geometry.g {
        if is_aside_at(site, tables, aside, loan, segment, column) {
            return true;
        }
    }
    false
}

/// The segments of a list that are in doubt after a loan's landing.
pub(crate) fn doubted(
    alloc: Global,
    site: &Site,
    tables: &Tables,
    aside: &BTreeSet<Segment>,
    loan: &Lent,
    all: &[Segment],
) -> Result<Vec<Segment>, NoMemory>
    requires stripe { loan.now.stripe < NUMBERS }
    ensures { IfOk result (λ out. (s : Segment) → has_segment out.items s ≡ (has_segment all.now s && is_doubtful (site_layout site.now) (core_of tables.now) (has_segment aside.now.keys) (loan_of loan.now) s)) }
{
    let mut out = Vec::new(alloc);
    for segment in all {
        if is_in_doubt(site, tables, aside, loan, *segment) {
            out.push(*segment)?;
        }
    }
    Ok(out)
}
