ghost use Rattle.std.specs.Prelude.{◌≡◌, IfOk, string_bytes};
ghost use Rattle.std.specs.List.{flat_map};
ghost use Rattle.draid_reply.specs.Agent.{act_of, acted_of, cause_of, did_of, errors_of, given_of, journal_of, line_of};

use crate::reply::AgentErrors;
use draid_names::{Cause, Did, Entry};
use std::alloc::{AllocError, Global};

/// What a slot got: a spare's name, or `none`.
fn given(alloc: Global, parity: u32, did: Did) -> Result<String, AllocError>
    ensures { IfOk result (λ text. string_bytes text ≡ given_of parity did) }
{
    match did {
        Did::Spared { spare } => format!(in alloc; "draid{parity}-0-{spare}"),
        Did::NoneFree => String::from_str(alloc, "none"),
    }
}

/// A slot, and what it got.
fn act(alloc: Global, parity: u32, entry: Entry) -> Result<String, AllocError>
    ensures { IfOk result (λ text. string_bytes text ≡ act_of parity entry) }
{
    let slot = entry.slot;
    let given = given(alloc, parity, entry.did)?;
    format!(in alloc; " {slot}={given}")
}

/// The slots that were due, and what each of them got.
fn acts(alloc: Global, parity: u32, entries: &[Entry]) -> Result<String, AllocError>
    ensures { IfOk result (λ text. string_bytes text ≡ flat_map (act_of parity) entries.now) }
{
    let mut text = String::new(alloc);
    for entry in entries {
        let act = act(alloc, parity, *entry)?;
        text.push_str(&act)?;
    }
    Ok(text)
}

/// The errors of the two passes, where they were made.
fn errors(alloc: Global, passes: Option<AgentErrors>) -> Result<String, AllocError>
    ensures { IfOk result (λ text. string_bytes text ≡ errors_of passes) }
{
    match passes {
        None => Ok(String::new(alloc)),
        Some(AgentErrors { rebuild, scrub }) => {
            format!(in alloc; " rebuild errors={rebuild} scrub errors={scrub}")
        }
    }
}

pub fn acted(
    alloc: Global,
    parity: u32,
    entries: &[Entry],
    passes: Option<AgentErrors>,
) -> Result<String, AllocError>
    ensures { IfOk result (λ text. string_bytes text ≡ acted_of parity entries.now passes) }
{
    let acts = acts(alloc, parity, entries)?;
    let errors = errors(alloc, passes)?;
    format!(in alloc; "agent{acts}{errors}\n")
}

/// Why a slot was due.
fn cause(alloc: Global, cause: Cause) -> Result<String, AllocError>
    ensures { IfOk result (λ text. string_bytes text ≡ cause_of cause) }
{
    match cause {
        Cause::Offline => String::from_str(alloc, "offline"),
        Cause::Logged { groups } => format!(in alloc; "logged={groups}"),
    }
}

/// What was done for a slot.
fn did(alloc: Global, parity: u32, did: Did) -> Result<String, AllocError>
    ensures { IfOk result (λ text. string_bytes text ≡ did_of parity did) }
{
    match did {
        Did::Spared { spare } => format!(in alloc; "spared draid{parity}-0-{spare}"),
        Did::NoneFree => String::from_str(alloc, "none"),
    }
}

/// The line of an entry.
fn line(alloc: Global, parity: u32, entry: Entry) -> Result<String, AllocError>
    ensures { IfOk result (λ text. string_bytes text ≡ line_of parity entry) }
{
    let number = entry.number;
    let slot = entry.slot;
    let cause = cause(alloc, entry.cause)?;
    let did = did(alloc, parity, entry.did)?;
    format!(in alloc; "agent {number} slot {slot} {cause} {did}\n")
}

/// The lines of all entries.
fn lines(alloc: Global, parity: u32, entries: &[Entry]) -> Result<String, AllocError>
    ensures { IfOk result (λ text. string_bytes text ≡ flat_map (line_of parity) entries.now) }
{
    let mut text = String::new(alloc);
    for entry in entries {
        let line = line(alloc, parity, *entry)?;
        text.push_str(&line)?;
    }
    Ok(text)
}

pub fn journal(alloc: Global, parity: u32, entries: &[Entry]) -> Result<String, AllocError>
    ensures { IfOk result (λ text. string_bytes text ≡ journal_of parity entries.now) }
{
    let mut text = lines(alloc, parity, entries)?;
    text.push_str("end\n")?;
    Ok(text)
}
