ghost use Rattle.std.specs.Prelude.{◌<◌, IfOk, map};
ghost use Rattle.draid_script.specs.Line.{IsInRange, IsLimit, command_in};
ghost use Rattle.draid_script.specs.Fault.{Gives};
ghost use Rattle.draid_script.specs.Grammar as spec;
ghost use Rattle.draid_script.specs.Grammar.{command_of, limit_at, one_number, two_numbers};
ghost use Rattle.draid_script.specs.Word.{placed};

use crate::field::{arm, block, count, format, number, number_in, object, short_number};
use crate::keys::keys;
use crate::word::Word;
use crate::{CommandName, Line, LineFaultKind, ParseFault, StatusFormat};
use draid_names::{LONGEST_BLOCK, NUMBERS, OBJECTS};
use std::alloc::Global;

/// The sectors of a leaf, counted through the metaslabs, are below this.
const SECTORS: u64 = 1 << 26;

/// Slots and spares have numbers below this.
const SLOTS: u64 = 1 << 32;

const LOG: &[u8] = b"log";

/// The most lanes of a section.
const MOST_LANES: u64 = 16;

/// Reads the words behind the first of a line that ends at `end`.
#[tactic(auto, unfolding(crate::specs::Grammar::command_of))]
pub fn command(
    alloc: Global,
    name: CommandName,
    end: u64,
    words: &[Word],
) -> Result<Line, ParseFault>
    ensures value { Gives command_in result (command_of name end (map placed words.now)) }
    ensures range { IfOk result (λ line. IsInRange (command_in line)) }
{
    match name {
        CommandName::Create => create(alloc, end, words),
        CommandName::Import => alone(end, words, Line::Import),
        CommandName::Export => alone(end, words, Line::Export),
        CommandName::Sync => alone(end, words, Line::Sync),
        CommandName::Cancel => alone(end, words, Line::Cancel),
        CommandName::Crash => alone(end, words, Line::Crash),
        CommandName::Write => write(alloc, end, words),
        CommandName::Fill => fill(end, words),
        CommandName::Read => read(end, words),
        CommandName::Free => free(end, words),
        CommandName::Sum => sum(end, words),
        CommandName::Offline => offline(end, words),
        CommandName::Online => online(end, words),
        CommandName::Damage => damage(end, words),
        CommandName::Spare => spare(end, words),
        CommandName::Replace => replace(end, words),
        CommandName::Detach => detach(end, words),
        CommandName::Rebuild => rebuild(end, words),
        CommandName::Scrub => scrub(end, words),
        CommandName::Rebalance => rebalance(end, words),
        CommandName::Status => status(end, words),
        CommandName::Lanes => lanes(end, words),
        CommandName::Upgrade => alone(end, words, Line::Upgrade),
        CommandName::Agent => agent(end, words),
        CommandName::Checkpoint => alone(end, words, Line::Checkpoint),
        CommandName::Rewind => alone(end, words, Line::Rewind),
        CommandName::Discard => alone(end, words, Line::Discard),
    }
}

fn create(alloc: Global, end: u64, words: &[Word]) -> Result<Line, ParseFault>
    ensures value { Gives command_in result (spec.create_of end (map placed words.now)) }
    ensures range { IfOk result (λ line. IsInRange (command_in line)) }
{
    match words {
        [spec, children, words @ ..] => {
            let children = short_number(children)?;
            let keys = keys(words)?;
            let spec = Vec::from_slice(alloc, spec.text)?;
            Ok(Line::Create {
                spec,
                children,
                keys,
            })
        }
        _ => Err(ParseFault::line(LineFaultKind::Count, end)),
    }
}

fn write(alloc: Global, end: u64, words: &[Word]) -> Result<Line, ParseFault>
    ensures value { Gives command_in result (spec.write_of end (map placed words.now)) }
    ensures range { IfOk result (λ line. IsInRange (command_in line)) }
{
    match words {
        [number, hex] => {
            let object = object(number)?;
            let bytes = block(alloc, end, hex)?;
            Ok(Line::Write { object, bytes })
        }
        _ => Err(ParseFault::line(LineFaultKind::Count, end)),
    }
}

fn fill(end: u64, words: &[Word]) -> Result<Line, ParseFault>
    ensures value { Gives command_in result (spec.fill_of end (map placed words.now)) }
    ensures range { IfOk result (λ line. IsInRange (command_in line)) }
{
    match words {
        [first, many, len, seed] => {
            let first = object(first)?;
            let count = count(first, many)?;
            let len = number_in(len, 1, LONGEST_BLOCK + 1)? as u32;
            let seed = number(seed)?;
            Ok(Line::Fill {
                first,
                count,
                len,
                seed,
            })
        }
        _ => Err(ParseFault::line(LineFaultKind::Count, end)),
    }
}

fn read(end: u64, words: &[Word]) -> Result<Line, ParseFault>
    ensures value { Gives command_in result (spec.read_of end (map placed words.now)) }
    ensures range { IfOk result (λ line. IsInRange (command_in line)) }
{
    let object = one_number(OBJECTS, end, words)?;
    Ok(Line::Read { object })
}

fn free(end: u64, words: &[Word]) -> Result<Line, ParseFault>
    ensures value { Gives command_in result (spec.free_of end (map placed words.now)) }
    ensures range { IfOk result (λ line. IsInRange (command_in line)) }
{
    let object = one_number(OBJECTS, end, words)?;
    Ok(Line::Free { object })
}

fn sum(end: u64, words: &[Word]) -> Result<Line, ParseFault>
    ensures value { Gives command_in result (spec.sum_of end (map placed words.now)) }
    ensures range { IfOk result (λ line. IsInRange (command_in line)) }
{
    match words {
        [first, many] => {
            let first = object(first)?;
            let count = count(first, many)?;
            Ok(Line::Sum { first, count })
        }
        _ => Err(ParseFault::line(LineFaultKind::Count, end)),
    }
}

fn offline(end: u64, words: &[Word]) -> Result<Line, ParseFault>
    ensures value { Gives command_in result (spec.offline_of end (map placed words.now)) }
    ensures range { IfOk result (λ line. IsInRange (command_in line)) }
{
    let leaf = one_number(NUMBERS, end, words)?;
    Ok(Line::Offline { leaf })
}

fn online(end: u64, words: &[Word]) -> Result<Line, ParseFault>
    ensures value { Gives command_in result (spec.online_of end (map placed words.now)) }
    ensures range { IfOk result (λ line. IsInRange (command_in line)) }
{
    let leaf = one_number(NUMBERS, end, words)?;
    Ok(Line::Online { leaf })
}

fn damage(end: u64, words: &[Word]) -> Result<Line, ParseFault>
    ensures value { Gives command_in result (spec.damage_of end (map placed words.now)) }
    ensures range { IfOk result (λ line. IsInRange (command_in line)) }
{
    let (leaf, sector) = two_numbers(NUMBERS, SECTORS, end, words)?;
    Ok(Line::Damage { leaf, sector })
}

fn spare(end: u64, words: &[Word]) -> Result<Line, ParseFault>
    ensures value { Gives command_in result (spec.spare_of end (map placed words.now)) }
    ensures range { IfOk result (λ line. IsInRange (command_in line)) }
{
    let (slot, spare) = two_numbers(SLOTS, SLOTS, end, words)?;
    Ok(Line::Spare {
        slot: slot as u32,
        spare: spare as u32,
    })
}

fn replace(end: u64, words: &[Word]) -> Result<Line, ParseFault>
    ensures value { Gives command_in result (spec.replace_of end (map placed words.now)) }
    ensures range { IfOk result (λ line. IsInRange (command_in line)) }
{
    match words {
        [slot] => {
            let slot = short_number(slot)?;
            Ok(Line::Replace {
                slot,
                sectors: None,
            })
        }
        [slot, sectors] => {
            let slot = short_number(slot)?;
            let sectors = number_in(sectors, 0, NUMBERS)?;
            Ok(Line::Replace {
                slot,
                sectors: Some(sectors),
            })
        }
        _ => Err(ParseFault::line(LineFaultKind::Count, end)),
    }
}

fn detach(end: u64, words: &[Word]) -> Result<Line, ParseFault>
    ensures value { Gives command_in result (spec.detach_of end (map placed words.now)) }
    ensures range { IfOk result (λ line. IsInRange (command_in line)) }
{
    match words {
        [name] => {
            let arm = arm(name)?;
            Ok(Line::Detach { arm })
        }
        _ => Err(ParseFault::line(LineFaultKind::Count, end)),
    }
}

fn rebuild(end: u64, words: &[Word]) -> Result<Line, ParseFault>
    ensures value { Gives command_in result (spec.rebuild_of end (map placed words.now)) }
    ensures range { IfOk result (λ line. IsInRange (command_in line)) }
{
    let limit = limit(end, words)?;
    Ok(Line::Rebuild { limit })
}

fn scrub(end: u64, words: &[Word]) -> Result<Line, ParseFault>
    ensures value { Gives command_in result (spec.scrub_of end (map placed words.now)) }
    ensures range { IfOk result (λ line. IsInRange (command_in line)) }
{
    let limit = limit(end, words)?;
    Ok(Line::Scrub { limit })
}

fn rebalance(end: u64, words: &[Word]) -> Result<Line, ParseFault>
    ensures value { Gives command_in result (spec.rebalance_of end (map placed words.now)) }
    ensures range { IfOk result (λ line. IsInRange (command_in line)) }
{
    let slot = one_number(SLOTS, end, words)?;
    Ok(Line::Rebalance { slot: slot as u32 })
}

fn status(end: u64, words: &[Word]) -> Result<Line, ParseFault>
    ensures value { Gives command_in result (spec.status_of end (map placed words.now)) }
    ensures range { IfOk result (λ line. IsInRange (command_in line)) }
{
    match words {
        [] => Ok(Line::Status {
            format: StatusFormat::Text,
        }),
        [word] => {
            let format = format(word)?;
            Ok(Line::Status { format })
        }
        _ => Err(ParseFault::line(LineFaultKind::Count, end)),
    }
}

fn lanes(end: u64, words: &[Word]) -> Result<Line, ParseFault>
    ensures value { Gives command_in result (spec.lanes_of end (map placed words.now)) }
    ensures range { IfOk result (λ line. IsInRange (command_in line)) }
{
    match words {
        [word] => {
            let count = number_in(word, 1, MOST_LANES + 1)?;
            Ok(Line::Lanes {
                count: count as u32,
            })
        }
        _ => Err(ParseFault::line(LineFaultKind::Count, end)),
    }
}

fn agent(end: u64, words: &[Word]) -> Result<Line, ParseFault>
    ensures value { Gives command_in result (spec.agent_of end (map placed words.now)) }
    ensures range { IfOk result (λ line. IsInRange (command_in line)) }
{
    match words {
        [word] if word.text == LOG => Ok(Line::AgentLog),
        [word] => {
            let least = number_in(word, 1, SLOTS)?;
            Ok(Line::Agent { least })
        }
        _ => Err(ParseFault::line(LineFaultKind::Count, end)),
    }
}

/// A command without further words.
fn alone(end: u64, words: &[Word], line: Line) -> Result<Line, ParseFault>
    requires { IsInRange (command_in line) }
    ensures value { Gives command_in result (spec.alone (command_in line) end (map placed words.now)) }
    ensures range { IfOk result (λ line. IsInRange (command_in line)) }
{
    match words {
        [] => Ok(line),
        _ => Err(ParseFault::line(LineFaultKind::Count, end)),
    }
}

/// One number below a limit.
fn one_number(limit: u64, end: u64, words: &[Word]) -> Result<u64, ParseFault>
    ensures value { Gives (λ n. n) result (one_number limit end (map placed words.now)) }
    ensures range { IfOk result (λ n. n < limit) }
{
    match words {
        [word] => number_in(word, 0, limit),
        _ => Err(ParseFault::line(LineFaultKind::Count, end)),
    }
}

/// Two numbers, each below a limit.
fn two_numbers(limit: u64, limit_2: u64, end: u64, words: &[Word]) -> Result<(u64, u64), ParseFault>
    ensures value { Gives (λ p. p) result (two_numbers limit limit_2 end (map placed words.now)) }
    ensures range { IfOk result (λ p. (p.0 < limit) × (p.1 < limit_2)) }
{
    match words {
        [word, word_2] => {
            let number = number_in(word, 0, limit)?;
            let number_2 = number_in(word_2, 0, limit_2)?;
            Ok((number, number_2))
        }
        _ => Err(ParseFault::line(LineFaultKind::Count, end)),
    }
}

/// At most one number, from 1 to 2^48 - 1.
fn limit(end: u64, words: &[Word]) -> Result<Option<u64>, ParseFault>
    ensures value { Gives (λ limit. limit) result (limit_at end (map placed words.now)) }
    ensures range { IfOk result (λ limit. IsLimit limit) }
{
    match words {
        [] => Ok(None),
        [word] => {
            let limit = number_in(word, 1, NUMBERS)?;
            Ok(Some(limit))
        }
        _ => Err(ParseFault::line(LineFaultKind::Count, end)),
    }
}
