ghost use Rattle.std.specs.Prelude.{◌≡◌, ◌||◌, ◌&&◌, not, OnOk};
ghost use Rattle.draid_machine.specs.Names.{has_segment, segment_eq};
ghost use Rattle.draid_machine.specs.declared.names.Segment.{Segment};

use draid_machine::Segment;
use draid_names::NoMemory;
use std::collections::BTreeSet;

/// Whether a set has a segment.
pub fn has(set: &BTreeSet<Segment>, segment: Segment) -> bool
    ensures { result ≡ has_segment set.now.keys segment }
{
    set.contains(&segment)
}

/// A segment joins a set.
pub fn add_segment(set: &mut BTreeSet<Segment>, segment: Segment) -> Result<(), NoMemory>
    ensures { OnOk result ((s : Segment) → has_segment set.new.keys s ≡ (segment_eq segment s || has_segment set.old.keys s)) }
{
    set.insert(segment)?;
    Ok(())
}

/// Some segments join a set.
pub fn put_all(set: &mut BTreeSet<Segment>, segments: &[Segment]) -> Result<(), NoMemory>
    ensures { OnOk result ((s : Segment) → has_segment set.new.keys s ≡ (has_segment set.old.keys s || has_segment segments.now s)) }
{
    for segment in segments {
        add_segment(set, *segment)?;
    }
    Ok(())
}

/// A segment leaves a set.
fn drop(set: &mut BTreeSet<Segment>, segment: Segment)
    ensures { (s : Segment) → has_segment set.new.keys s ≡ (has_segment set.old.keys s && not (segment_eq segment s)) }
{
    set.remove(&segment);
}

/// Some segments leave a set.
pub fn drop_all(set: &mut BTreeSet<Segment>, segments: &[Segment])
    ensures { (s : Segment) → has_segment set.new.keys s ≡ (has_segment set.old.keys s && not (has_segment segments.now s)) }
{
    for segment in segments {
        drop(set, *segment);
    }
}
