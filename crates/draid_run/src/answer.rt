//! What the commands of a script reply, whether a pool is open or not.
ghost use Rattle.std.specs.Prelude.{◌≡◌, ◌≤◌, None, Some};
ghost use Rattle.draid_script.specs.Line.{IsInRange, command_in};
ghost use Rattle.std.specs.Fn.{FnReturnsAt};
ghost use Rattle.draid_agent.specs.Policy.{IsPolicy, PolicyReturns};
ghost use Rattle.draid_choose.specs.Rooms.{IsChooser};
ghost use Rattle.draid_session.specs.Choices.{choices_by, choices_with};
ghost use Rattle.draid_session.specs.Session.{Desk};
ghost use Rattle.draid_run.specs.Desks.{IsDesk, IsPool, asked_in};
ghost use Rattle.draid_run.specs.Repairing.{AgentIs, JournalIs};
ghost use Rattle.draid_run.specs.Serve.{AnswerIs, AskIs, IsSaid, opened_by};
ghost use Rattle.draid_pool.specs.Shelves.{OnShelf, on_shelf};

use crate::repairing::{reply_to_agent, reply_to_journal};
use crate::{closing, opening, replies};
use draid_agent::{Journal, Policy};
use draid_area::Area;
use draid_choose::Chooser;
use draid_exits::RecordName;
use draid_names::{Failed, Room};
use draid_pool::Pool;
use draid_rack::Rack;
use draid_record::RecordFaultKind;
use draid_reply::Reply;
use draid_script::{CommandName, Line};
use draid_shelf::Shelf;
use std::alloc::Global;
use std::thread::Threads;

/// Why a command has no reply, and the run ends.
#[derive(Clone, Copy)]
pub(crate) enum Stop {
    /// A call of the shelf, or on an area of the pool, failed.
    Shelf,
    /// What has the first fault begins at byte `at` of this record.
    Record {
        name: RecordName,
        at: u64,
        kind: RecordFaultKind,
    },
}

/// What a command replies that needs an open pool, where none is open.
pub(crate) fn no_pool(command: CommandName) -> Reply
    ensures { result ≡ Reply.NoPool command }
{
    Reply::NoPool { command }
}

/// The name of what a line asks of the open pool alone, which stays open. The agent's lines ask something of the journal too.
fn asked(line: &Line) -> CommandName
    requires { asked_in (command_in line.now) ≡ None → ⊥ }
    ensures { asked_in (command_in line.now) ≡ Some result }
{
    match line {
        Line::Write { .. } => CommandName::Write,
        Line::Fill { .. } => CommandName::Fill,
        Line::Free { .. } => CommandName::Free,
        Line::Read { .. } => CommandName::Read,
        Line::Sum { .. } => CommandName::Sum,
        Line::Offline { .. } => CommandName::Offline,
        Line::Online { .. } => CommandName::Online,
        Line::Rebuild { .. } => CommandName::Rebuild,
        Line::Scrub { .. } => CommandName::Scrub,
        Line::Rebalance { .. } => CommandName::Rebalance,
        Line::Cancel => CommandName::Cancel,
        Line::Damage { .. } => CommandName::Damage,
        Line::Spare { .. } => CommandName::Spare,
        Line::Replace { .. } => CommandName::Replace,
        Line::Status { .. } => CommandName::Status,
        Line::Detach { .. } => CommandName::Detach,
        Line::Upgrade => CommandName::Upgrade,
        Line::Checkpoint => CommandName::Checkpoint,
        Line::Rewind => CommandName::Rewind,
        Line::Discard => CommandName::Discard,
        Line::Sync => CommandName::Sync,
        _ => unreachable!(),
    }
}

/// Asks the pool that is open for a reply, if one is.
fn ask<R: Rack, A: Area, F: Fn(&[Room]) -> Option<u32>>(
    rt: &(impl Threads + Sync),
    alloc: Global,
    pool: &mut Option<Pool<R, A>>,
    chooser: &Chooser<F>,
    line: &Line,
) -> Result<Reply, Stop>
    requires chooser { IsChooser F.Fn chooser.now }
    requires range { IsInRange (command_in line.now) }
    requires asks { asked_in (command_in line.now) ≡ None → ⊥ }
    requires desk { (x : Desk) × IsPool R.Rack A.Area pool.old x }
    ensures did { (x : Desk) → IsPool R.Rack A.Area pool.old x
        → AskIs R.Rack A.Area (choices_by (FnReturnsAt F.Fn chooser.now)) (command_in line.now) pool.old x pool.new result }
{
    let command = asked(line);
    match pool {
        Some(pool) => match replies::reply(rt, alloc, pool, chooser, line) {
            Ok(reply) => Ok(reply),
            Err(Failed) => Err(Stop::Shelf),
        },
        None => Ok(no_pool(command)),
    }
}

/// Has the agent repair the pool that is open, if one is.
fn ask_agent<R: Rack, A: Area, P: Fn(u32, u64, &[u32]) -> Option<u32>>(
    alloc: Global,
    pool: &mut Option<Pool<R, A>>,
    policy: &Policy<P>,
    journal: &mut Journal,
    least: u64,
) -> Result<Reply, Stop>
    requires policy { IsPolicy P.Fn policy.now }
    requires desk { (x : Desk) × IsPool R.Rack A.Area pool.old x }
    ensures did { (x : Desk) → IsPool R.Rack A.Area pool.old x
        → AgentIs R.Rack A.Area (PolicyReturns P.Fn policy.now) least journal.old.entries journal.new.entries x pool.new result }
{
    match pool {
        Some(pool) => match reply_to_agent(alloc, pool, policy, journal, least) {
            Ok(reply) => Ok(reply),
            Err(Failed) => Err(Stop::Shelf),
        },
        None => Ok(no_pool(CommandName::Agent)),
    }
}

/// Asks for the journal where a pool is open.
fn ask_journal<R: Rack, A: Area>(
    alloc: Global,
    pool: &Option<Pool<R, A>>,
    journal: &Journal,
) -> Reply
    ensures { JournalIs R.Rack A.Area journal.now.entries pool.now result }
{
    match pool {
        Some(pool) => reply_to_journal(alloc, pool, journal),
        None => no_pool(CommandName::Agent),
    }
}

/// The answer to a command that has a reply, unless the run ends there.
fn said(reply: Result<Reply, Stop>) -> Result<Option<Reply>, Stop>
    ensures { IsSaid reply result }
{
    match reply {
        Ok(reply) => Ok(Some(reply)),
        Err(stop) => Err(stop),
    }
}

/// Does what a line asks for that opens no section. An empty line and a comment have no reply.
pub(crate) fn answer<
    H: Shelf,
    F: Fn(&[Room]) -> Option<u32>,
    P: Fn(u32, u64, &[u32]) -> Option<u32>,
>(
    rt: &(impl Threads + Sync),
    alloc: Global,
    shelf: &mut H,
    pool: &mut Option<Pool<H::R, H::A>>,
    chooser: &Chooser<F>,
    policy: &Policy<P>,
    journal: &mut Journal,
    line: &Line,
) -> Result<Option<Reply>, Stop>
    requires chooser { IsChooser F.Fn chooser.now }
    requires policy { IsPolicy P.Fn policy.now }
    requires range { IsInRange (command_in line.now) }
    requires alone { opened_by (command_in line.now) ≡ None }
    requires desk { (x : Desk) × IsPool H.R.Rack H.A.Area pool.old x }
    ensures answer { (entry : OnShelf) (x : Desk) → IsDesk H.R.Rack H.A.Area entry (on_shelf H.Shelf shelf.old) pool.old x
        → AnswerIs H.R.Rack H.A.Area (choices_with (FnReturnsAt F.Fn chooser.now) (PolicyReturns P.Fn policy.now)) journal.old.entries journal.new.entries (command_in line.now) entry (on_shelf H.Shelf shelf.old) pool.old x (on_shelf H.Shelf shelf.new) pool.new result }
    ensures later { H.faults shelf.old ≤ H.faults shelf.new }
{
    match line {
        Line::Nothing => Ok(None),
        Line::Create {
            spec,
            children,
            keys,
        } => said(opening::create(alloc, shelf, pool, spec, *children, *keys)),
        Line::Import => said(opening::import(alloc, shelf, pool)),
        Line::Export => said(closing::export(shelf, pool)),
        Line::Crash => Ok(Some(closing::crash(shelf, pool))),
        Line::Agent { least } => said(ask_agent(alloc, pool, policy, journal, *least)),
        Line::AgentLog => Ok(Some(ask_journal(alloc, pool, journal))),
        _ => said(ask(rt, alloc, pool, chooser, line)),
    }
}
