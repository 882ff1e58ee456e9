ghost use Rattle.std.specs.Prelude.{◌≡◌, ◌<◌, ◌≤◌, ◌^◌, IfOk, map};
ghost use Rattle.draid_script.specs.Line.{IsInRange, IsLaneLine, command_in, lane_command_in};
ghost use Rattle.draid_script.specs.Fault.{Gives};
ghost use Rattle.draid_script.specs.Grammar as spec;
ghost use Rattle.draid_script.specs.Grammar.{lane_of, line_of};
ghost use Rattle.draid_script.specs.Word.{placed};

use crate::commands::command;
use crate::field::number_in;
use crate::word::Word;
use crate::words::words;
use crate::{CommandName, LaneLine, Line, LineFaultKind, ParseFault};
use std::alloc::Global;

const END: &[u8] = b"end";

/// Reads a line outside a section, without its end.
#[tactic(auto, unfolding(crate::specs::Grammar::line_of))]
pub fn parse_line(alloc: Global, text: &[u8]) -> Result<Line, ParseFault>
    ensures value { Gives command_in result (line_of text.now) }
    ensures range { IfOk result (λ line. IsInRange (command_in line)) }
{
    if is_silent(text) {
        return Ok(Line::Nothing);
    }
    let words = words(alloc, text)?;
    outside(alloc, text.len() as u64, &words)
}

/// Reads a line inside a section of so many lanes, without its end.
#[tactic(auto, unfolding(crate::specs::Grammar::lane_of))]
pub fn parse_lane(alloc: Global, text: &[u8], lanes: u32) -> Result<LaneLine, ParseFault>
    ensures value { Gives lane_command_in result (lane_of lanes text.now) }
    ensures range { IfOk result (λ line. IsLaneLine lanes (lane_command_in line)) }
{
    if is_silent(text) {
        return Ok(LaneLine::Nothing);
    }
    if text == END {
        return Ok(LaneLine::End);
    }
    let words = words(alloc, text)?;
    inside(alloc, u64::from(lanes), text.len() as u64, &words)
}

/// Whether a line is empty or a comment.
fn is_silent(text: &[u8]) -> bool
    ensures { result ≡ spec.is_silent text.now }
{
    match text {
        [] => true,
        [byte, ..] => *byte == b'#',
    }
}

/// Reads the words of a line that ends at `end`, outside a section.
fn outside(alloc: Global, end: u64, words: &[Word]) -> Result<Line, ParseFault>
    ensures value { Gives command_in result (spec.outside end (map placed words.now)) }
    ensures range { IfOk result (λ line. IsInRange (command_in line)) }
{
    match words {
        [first, ..] if first.text == END => Err(ParseFault::line(LineFaultKind::Lane, first.at)),
        [first, words @ ..] => {
            let name = name(first)?;
            command(alloc, name, end, words)
        }
        [] => Err(ParseFault::line(LineFaultKind::Unknown, 0)),
    }
}

/// Reads the words of a line that ends at `end`, inside a section.
fn inside(alloc: Global, lanes: u64, end: u64, words: &[Word]) -> Result<LaneLine, ParseFault>
    requires { lanes < 2 ^ 32 }
    ensures value { Gives lane_command_in result (spec.inside lanes end (map placed words.now)) }
    ensures range { IfOk result (λ line. IsLaneLine lanes (lane_command_in line)) }
{
    match words {
        [] => Err(ParseFault::line(LineFaultKind::Number, 0)),
        [lane] => {
            let _lane = number_in(lane, 0, lanes)?;
            Err(ParseFault::line(LineFaultKind::Count, end))
        }
        [lane, first, words @ ..] => {
            let lane = number_in(lane, 0, lanes)? as u32;
            let name = lane_name(first)?;
            let line = command(alloc, name, end, words)?;
            Ok(LaneLine::Lane { lane, line })
        }
    }
}

/// The command whose first word this is.
fn name(word: &Word) -> Result<CommandName, ParseFault>
    ensures { Gives (λ name. name) result (spec.name_at (placed word.now)) }
{
    match CommandName::of(word.text) {
        Some(name) => Ok(name),
        None => Err(ParseFault::line(LineFaultKind::Unknown, word.at)),
    }
}

/// The command whose first word this is, where it may stand in a section.
fn lane_name(word: &Word) -> Result<CommandName, ParseFault>
    ensures { Gives (λ name. name) result (spec.lane_name_at (placed word.now)) }
{
    if word.text == END {
        return Err(ParseFault::line(LineFaultKind::Lane, word.at));
    }
    let name = name(word)?;
    if name.is_for_lanes() {
        Ok(name)
    } else {
        Err(ParseFault::line(LineFaultKind::Lane, word.at))
    }
}
