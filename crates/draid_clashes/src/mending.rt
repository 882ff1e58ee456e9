//! Two lanes that have a rebuild or a scrub.
ghost use Rattle.std.specs.Prelude.{◌≡◌, ◌↔◌, IsTrue};
ghost use Rattle.std.specs.List.{list_any};
ghost use Rattle.draid_script.specs.Line.{command_in};
ghost use Rattle.draid_session.specs.Sections.{ClashesMend};
ghost use Rattle.draid_clashes.specs.Lanes.{lanes_in};
ghost use Rattle.draid_clashes.specs.Mending.{is_mending, mends_one};

use draid_script::Line;

/// Whether a line is a rebuild or a scrub.
fn mends(line: &Line) -> bool
    ensures { result ≡ is_mending (command_in line.now) }
{
    match line {
        Line::Rebuild { .. } => true,
        Line::Scrub { .. } => true,
        _ => false,
    }
}

/// Whether a lane has one.
fn lane_mends(lane: &[Line]) -> bool
    ensures { result ≡ mends_one lane.now }
{
    lane.iter().any(|line: &Line| mends(line))
}

/// Whether two lanes have one.
pub fn two_mend(lanes: &[Vec<Line>]) -> bool
    ensures { IsTrue result ↔ ClashesMend (lanes_in lanes.now) }
{
    let mut before = false;
    for lane in lanes {
        let mends = lane_mends(lane);
        if before && mends {
            return true;
        }
        before = before || mends;
    }
    false
}
