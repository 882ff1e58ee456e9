ghost use Rattle.std.specs.Prelude.{◌≡◌, ◌≤◌, ℕ, List, Some, None, Ok, Err, IfErr, IfOk, length};
ghost use Rattle.std.specs.List.{list_any};
ghost use Rattle.std.specs.Io.KnownBytes.{IsAtEnd, prepend_known};
ghost use Rattle.std.specs.Fn.{FnReturnsAt};
ghost use Rattle.draid_agent.specs.Policy.{IsPolicy, PolicyReturns};
ghost use Rattle.draid_choose.specs.Rooms.{IsChooser};
ghost use Rattle.draid_names.specs.Faults.{Rose};
ghost use Rattle.draid_names.specs.declared.journal.Entry.{Entry};
ghost use Rattle.draid_script.specs.Grammar.{lane_of, line_of};
ghost use Rattle.draid_script.specs.Line.{IsInRange, SectionEnd, command_in, most_lanes};
ghost use Rattle.draid_session.specs.Choices.{choices_by, choices_with};
ghost use Rattle.draid_session.specs.Places.{Inside, Outside, opened_lanes};
ghost use Rattle.draid_session.specs.Session.{Desk};
ghost use Rattle.draid_run.specs.Desks.{IsDesk, IsPool};
ghost use Rattle.draid_clashes.specs.Lanes.{lanes_in};
ghost use Rattle.draid_run.specs.Sections.{AreLanes, IsReading, RanIs, place_in, place_next};
ghost use Rattle.draid_run.specs.Serve.{LineIs, Served, TextIs, done_of, end_at, opened_by, status_of, unread_at};
ghost use Rattle.draid_pool.specs.Shelves.{OnShelf, on_shelf};
ghost use Rattle.draid_run.specs.Shelves.{HoldsDesk};

use crate::answer::{Stop, answer};
use crate::lanes::{add_line, open_lanes, run_lanes};
use crate::sections::Sections;
use draid_agent::{Journal, Policy};
use draid_area::Area;
use draid_choose::Chooser;
use draid_exits::Status;
use draid_lines::{Lines, ReadFault, Sink, Source};
use draid_names::{NoMemory, Room};
use draid_pool::Pool;
use draid_print::{LaneReplies, print_lanes, print_reply};
use draid_rack::Rack;
use draid_script::{LaneLine, Line, LineFault, LineFaultKind, ParseFault, parse_lane, parse_line};
use draid_shelf::Shelf;
use std::alloc::Global;
use std::thread::Threads;

/// One line more than a script may have.
const LINES: u64 = 1_048_577;

/// The status of a run that ends at the line of this number, since it has no reply.
fn stopped(number: u64, stop: Stop) -> Status
    ensures { result ≡ status_of number stop }
{
    match stop {
        Stop::Shelf => Status::ShelfFault,
        Stop::Record { name, at, kind } => Status::Record { name, at, kind },
    }
}

/// The status of a run that ends at the line of this number, since that can't be read.
fn unread(number: u64, fault: ParseFault) -> Status
    ensures { result ≡ unread_at number fault }
{
    match fault {
        ParseFault::Line(LineFault { kind, at }) => Status::Line {
            line: number,
            kind,
            at,
        },
        ParseFault::NoMemory => Status::NoMemory,
    }
}

/// How many lanes a line opens, if it opens a section.
fn opened(line: &Line) -> Option<u32>
    ensures { result ≡ opened_by (command_in line.now) }
{
    match line {
        Line::Lanes { count } => Some(*count),
        _ => None,
    }
}

/// The lanes of a section that opens.
fn open_section(alloc: Global, count: u32) -> Result<Option<Vec<Vec<Line>>>, Status>
    requires some { 1 ≤ count }
    requires few { count ≤ most_lanes }
    ensures opened { IfOk result (λ next. place_in next ≡ opened_lanes count) }
    ensures reading { IfOk result IsReading }
    ensures refused { IfErr result (λ status. status ≡ Status.NoMemory) }
{
    match open_lanes(alloc, count) {
        Ok(lanes) => Ok(Some(lanes)),
        Err(NoMemory) => Err(Status::NoMemory),
    }
}

/// Does what the line of this number asks for, outside a section, and prints its reply.
fn serve_command<
    H: Shelf,
    K: Sink,
    F: Fn(&[Room]) -> Option<u32>,
    P: Fn(u32, u64, &[u32]) -> Option<u32>,
>(
    rt: &(impl Threads + Sync),
    alloc: Global,
    shelf: &mut H,
    pool: &mut Option<Pool<H::R, H::A>>,
    chooser: &Chooser<F>,
    policy: &Policy<P>,
    journal: &mut Journal,
    sink: &mut K,
    number: u64,
    line: &Line,
) -> Result<(), Status>
    requires chooser { IsChooser F.Fn chooser.now }
    requires policy { IsPolicy P.Fn policy.now }
    requires range { IsInRange (command_in line.now) }
    requires alone { opened_by (command_in line.now) ≡ None }
    requires desk { (x : Desk) × IsPool H.R.Rack H.A.Area pool.old x }
    ensures line { (text : List ℕ) (entry : OnShelf) (x : Desk) → line_of text ≡ Ok (command_in line.now)
        → IsDesk H.R.Rack H.A.Area entry (on_shelf H.Shelf shelf.old) pool.old x
        → LineIs H.R.Rack H.A.Area (choices_with (FnReturnsAt F.Fn chooser.now) (PolicyReturns P.Fn policy.now)) journal.old.entries journal.new.entries Outside number text entry (on_shelf H.Shelf shelf.old) pool.old x (on_shelf H.Shelf shelf.new) pool.new (K.held sink.old) (K.held sink.new) Outside result }
    ensures later { K.faults sink.old ≤ K.faults sink.new }
    ensures cause { result ≡ Err Status.SinkFault → Rose (K.faults sink.old) (K.faults sink.new) }
    ensures shelf_later { H.faults shelf.old ≤ H.faults shelf.new }
{
    match answer(rt, alloc, shelf, pool, chooser, policy, journal, line) {
        Ok(Some(reply)) => print_reply(alloc, sink, reply),
        Ok(None) => Ok(()),
        Err(stop) => Err(stopped(number, stop)),
    }
}

/// Runs the lanes of a section, and prints their replies. Where a failing device ended one the run ends behind these.
fn serve_section<R: Rack, A: Area, K: Sink, F: Fn(&[Room]) -> Option<u32>, G: Sections<R, A>>(
    alloc: Global,
    sections: &G,
    pool: &mut Option<Pool<R, A>>,
    chooser: &Chooser<F>,
    sink: &mut K,
    lanes: Vec<Vec<Line>>,
) -> Result<(), Status>
    requires sections { G.ready sections.now (FnReturnsAt F.Fn chooser.now) }
    requires lanes { AreLanes lanes.items }
    requires desk { (x : Desk) × IsPool R.Rack A.Area pool.old x }
    ensures line { (past : List Entry) (number : ℕ) (text : List ℕ) (entry now : OnShelf) (x : Desk) → lane_of (length (lanes_in lanes.items)) text ≡ Ok SectionEnd
        → IsDesk R.Rack A.Area entry now pool.old x
        → LineIs R.Rack A.Area (choices_by (FnReturnsAt F.Fn chooser.now)) past past (Inside (lanes_in lanes.items)) number text entry now pool.old x now pool.new (K.held sink.old) (K.held sink.new) Outside result }
    ensures later { K.faults sink.old ≤ K.faults sink.new }
    ensures cause { result ≡ Err Status.SinkFault → Rose (K.faults sink.old) (K.faults sink.new) }
{
    match run_lanes(alloc, sections, pool, chooser, lanes) {
        Ok(ran) => print_ran(alloc, sink, &ran),
        Err(reply) => print_reply(alloc, sink, reply),
    }
}

/// Does what a line of this number asks for inside a section: a lane gets a line more, or the section ends. Where it goes on
/// these are its lanes.
fn serve_inside<R: Rack, A: Area, K: Sink, F: Fn(&[Room]) -> Option<u32>, G: Sections<R, A>>(
    alloc: Global,
    sections: &G,
    pool: &mut Option<Pool<R, A>>,
    chooser: &Chooser<F>,
    sink: &mut K,
    number: u64,
    text: &[u8],
    mut lanes: Vec<Vec<Line>>,
) -> Result<Option<Vec<Vec<Line>>>, Status>
    requires sections { G.ready sections.now (FnReturnsAt F.Fn chooser.now) }
    requires lanes { AreLanes lanes.items }
    requires desk { (x : Desk) × IsPool R.Rack A.Area pool.old x }
    ensures line { (past : List Entry) (entry now : OnShelf) (x : Desk) → IsDesk R.Rack A.Area entry now pool.old x
        → LineIs R.Rack A.Area (choices_by (FnReturnsAt F.Fn chooser.now)) past past (Inside (lanes_in lanes.items)) number text.now entry now pool.old x now pool.new (K.held sink.old) (K.held sink.new) (place_next result) (done_of result) }
    ensures reading { IfOk result IsReading }
    ensures later { K.faults sink.old ≤ K.faults sink.new }
    ensures cause { result ≡ Err Status.SinkFault → Rose (K.faults sink.old) (K.faults sink.new) }
{
    match parse_lane(alloc, text, lanes.len() as u32) {
        Ok(LaneLine::Nothing) => Ok(Some(lanes)),
        Ok(LaneLine::Lane { lane, line }) => match add_line(&mut lanes, lane, line) {
            Ok(()) => Ok(Some(lanes)),
            Err(NoMemory) => Err(Status::NoMemory),
        },
        Ok(LaneLine::End) => match serve_section(alloc, sections, pool, chooser, sink, lanes) {
            Ok(()) => Ok(None),
            Err(status) => Err(status),
        },
        Err(fault) => Err(unread(number, fault)),
    }
}

/// Does what a line of this number asks for outside a section. Where it opens one these are its lanes.
fn serve_outside<
    H: Shelf,
    K: Sink,
    F: Fn(&[Room]) -> Option<u32>,
    P: Fn(u32, u64, &[u32]) -> Option<u32>,
>(
    rt: &(impl Threads + Sync),
    alloc: Global,
    shelf: &mut H,
    pool: &mut Option<Pool<H::R, H::A>>,
    chooser: &Chooser<F>,
    policy: &Policy<P>,
    journal: &mut Journal,
    sink: &mut K,
    number: u64,
    text: &[u8],
) -> Result<Option<Vec<Vec<Line>>>, Status>
    requires chooser { IsChooser F.Fn chooser.now }
    requires policy { IsPolicy P.Fn policy.now }
    requires desk { (x : Desk) × IsPool H.R.Rack H.A.Area pool.old x }
    ensures line { (entry : OnShelf) (x : Desk) → IsDesk H.R.Rack H.A.Area entry (on_shelf H.Shelf shelf.old) pool.old x
        → LineIs H.R.Rack H.A.Area (choices_with (FnReturnsAt F.Fn chooser.now) (PolicyReturns P.Fn policy.now)) journal.old.entries journal.new.entries Outside number text.now entry (on_shelf H.Shelf shelf.old) pool.old x (on_shelf H.Shelf shelf.new) pool.new (K.held sink.old) (K.held sink.new) (place_next result) (done_of result) }
    ensures reading { IfOk result IsReading }
    ensures later { K.faults sink.old ≤ K.faults sink.new }
    ensures cause { result ≡ Err Status.SinkFault → Rose (K.faults sink.old) (K.faults sink.new) }
    ensures shelf_later { H.faults shelf.old ≤ H.faults shelf.new }
{
    let line = match parse_line(alloc, text) {
        Ok(line) => line,
        Err(fault) => return Err(unread(number, fault)),
    };
    if let Some(count) = opened(&line) {
        return open_section(alloc, count);
    }
    match serve_command(
        rt, alloc, shelf, pool, chooser, policy, journal, sink, number, &line,
    ) {
        Ok(()) => Ok(None),
        Err(status) => Err(status),
    }
}

/// Does what a line of this number asks for where the run stands, and prints the replies to it. Where the run stands inside a
/// section behind it these are its lanes.
fn serve_line<
    H: Shelf,
    K: Sink,
    F: Fn(&[Room]) -> Option<u32>,
    P: Fn(u32, u64, &[u32]) -> Option<u32>,
    G: Sections<H::R, H::A>,
>(
    rt: &(impl Threads + Sync),
    alloc: Global,
    sections: &G,
    shelf: &mut H,
    pool: &mut Option<Pool<H::R, H::A>>,
    chooser: &Chooser<F>,
    policy: &Policy<P>,
    journal: &mut Journal,
    sink: &mut K,
    section: Option<Vec<Vec<Line>>>,
    number: u64,
    text: &[u8],
) -> Result<Option<Vec<Vec<Line>>>, Status>
    requires chooser { IsChooser F.Fn chooser.now }
    requires sections { G.ready sections.now (FnReturnsAt F.Fn chooser.now) }
    requires policy { IsPolicy P.Fn policy.now }
    requires reading { IsReading section }
    requires desk { (x : Desk) × IsPool H.R.Rack H.A.Area pool.old x }
    ensures line { (entry : OnShelf) (x : Desk) → IsDesk H.R.Rack H.A.Area entry (on_shelf H.Shelf shelf.old) pool.old x
        → LineIs H.R.Rack H.A.Area (choices_with (FnReturnsAt F.Fn chooser.now) (PolicyReturns P.Fn policy.now)) journal.old.entries journal.new.entries (place_in section) number text.now entry (on_shelf H.Shelf shelf.old) pool.old x (on_shelf H.Shelf shelf.new) pool.new (K.held sink.old) (K.held sink.new) (place_next result) (done_of result) }
    ensures reading { IfOk result IsReading }
    ensures later { K.faults sink.old ≤ K.faults sink.new }
    ensures cause { result ≡ Err Status.SinkFault → Rose (K.faults sink.old) (K.faults sink.new) }
    ensures shelf_later { H.faults shelf.old ≤ H.faults shelf.new }
{
    match section {
        None => serve_outside(
            rt, alloc, shelf, pool, chooser, policy, journal, sink, number, text,
        ),
        Some(lanes) => { serve_inside(alloc, sections, pool, chooser, sink, number, text, lanes) }
    }
}

/// The status of a run whose input ends at the line of this number, behind the last.
fn ended(number: u64, section: &Option<Vec<Vec<Line>>>) -> Status
    ensures { result ≡ end_at number (place_in section.now) }
{
    match section {
        None => Status::Done,
        Some(_) => Status::Line {
            line: number,
            kind: LineFaultKind::Lane,
            at: 0,
        },
    }
}

/// Whether a failing device ended a lane.
fn is_stopped(ran: &[LaneReplies]) -> bool
    ensures { result ≡ list_any (λ lane. lane.stopped) ran.now }
{
    ran.iter().any(|lane: &LaneReplies| lane.stopped)
}

/// Prints the replies to the lanes of a section. Where a failing device ended one the run ends behind them.
fn print_ran<K: Sink>(alloc: Global, sink: &mut K, ran: &[LaneReplies]) -> Result<(), Status>
    ensures prints { RanIs ran.now (K.held sink.old) (K.held sink.new) result }
    ensures later { K.faults sink.old ≤ K.faults sink.new }
    ensures cause { result ≡ Err Status.SinkFault → Rose (K.faults sink.old) (K.faults sink.new) }
{
    match print_lanes(alloc, sink, ran) {
        Ok(()) => {}
        Err(status) => return Err(status),
    }
    if is_stopped(ran) {
        Err(Status::ShelfFault)
    } else {
        Ok(())
    }
}

/// The next line of the source, or the status of a run that can't read it.
fn next_text<S: Source>(
    alloc: Global,
    lines: &mut Lines,
    source: &mut S,
) -> Result<Option<Vec<u8>>, Status>
    requires { lines.old.fault ≡ None }
    ensures text { TextIs lines.old lines.new (S.left source.old) (S.left source.new) result }
    ensures end { result ≡ Ok None → IsAtEnd (S.left source.new) }
    ensures later { S.faults source.old ≤ S.faults source.new }
    ensures cause { result ≡ Err Status.SourceFault → Rose (S.faults source.old) (S.faults source.new) }
{
    match lines.next(alloc, source) {
        Ok(text) => Ok(text),
        Err(ReadFault::SourceFault) => Err(Status::SourceFault),
        Err(ReadFault::TooLong { line }) => Err(Status::TooLong { line }),
        Err(ReadFault::NoMemory) => Err(Status::NoMemory),
    }
}

/// Runs the lines of the source one after another, until one can't be run or none is left.
pub(crate) fn serve<
    H: Shelf,
    S: Source,
    K: Sink,
    F: Fn(&[Room]) -> Option<u32>,
    P: Fn(u32, u64, &[u32]) -> Option<u32>,
    G: Sections<H::R, H::A>,
>(
    rt: &(impl Threads + Sync),
    alloc: Global,
    sections: &G,
    shelf: &mut H,
    pool: &mut Option<Pool<H::R, H::A>>,
    chooser: &Chooser<F>,
    policy: &Policy<P>,
    source: &mut S,
    sink: &mut K,
) -> Status
    requires chooser { IsChooser F.Fn chooser.now }
    requires sections { G.ready sections.now (FnReturnsAt F.Fn chooser.now) }
    requires policy { IsPolicy P.Fn policy.now }
    requires closed { pool.old ≡ None }
    ensures served { (first : Desk) → HoldsDesk first (on_shelf H.Shelf shelf.old) (on_shelf H.Shelf shelf.old)
        → Served H.R.Rack H.A.Area (choices_with (FnReturnsAt F.Fn chooser.now) (PolicyReturns P.Fn policy.now)) first result (S.left source.old) (K.held sink.old) (K.held sink.new) (on_shelf H.Shelf shelf.old) (on_shelf H.Shelf shelf.new) pool.new }
    ensures end { result ≡ Status.Done → IsAtEnd (S.left source.new) }
    ensures source_later { S.faults source.old ≤ S.faults source.new }
    ensures sink_later { K.faults sink.old ≤ K.faults sink.new }
    ensures shelf_later { H.faults shelf.old ≤ H.faults shelf.new }
    ensures source_cause { result ≡ Status.SourceFault → Rose (S.faults source.old) (S.faults source.new) }
    ensures sink_cause { result ≡ Status.SinkFault → Rose (K.faults sink.old) (K.faults sink.new) }
    ensures no_usage { result ≡ Status.Usage → ⊥ }
{
    let mut lines = Lines::new(alloc);
    let mut journal = Journal::new(alloc);
    let mut section = None;
    'lines: for number in 1..LINES + 1 {
        let text = match next_text(alloc, &mut lines, source) {
            Ok(Some(text)) => text,
            Ok(None) => return ended(number, &section),
            Err(status) => return status,
        };
        section = match serve_line(
            rt,
            alloc,
            sections,
            shelf,
            pool,
            chooser,
            policy,
            &mut journal,
            sink,
            section,
            number,
            &text,
        ) {
            Ok(section) => section,
            Err(status) => return status,
        };
    }
    unreachable!()
}
