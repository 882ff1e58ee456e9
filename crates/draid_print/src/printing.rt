//! The replies of a run as they are printed: each by one `put`, those to a lane behind its number.
ghost use Rattle.std.specs.Prelude.{◌≡◌, ◌≤◌, IfOk, Some, Err};
ghost use Rattle.draid_names.specs.Faults.{Rose};
ghost use Rattle.draid_reply.specs.Reply.{text_of};
ghost use Rattle.draid_session.specs.Sections.{to_lane, to_lanes};
ghost use Rattle.draid_print.specs.Printing.{PrintIs, PrintsAre, replies_in, said_text};

use draid_exits::Status;
use draid_lines::Sink;
use draid_names::{Failed, NoMemory};
use draid_reply::{Reply, reply_text};
use std::alloc::Global;

/// What a lane replied.
#[derive(Drop)]
pub struct LaneReplies {
    /// A reply to each of its lines, up to one in which an area failed.
    pub replies: Vec<Reply>,
    /// Whether an area failed behind these.
    pub stopped: bool,
}

/// Prints a text, as one `put`.
fn put_text<K: Sink>(sink: &mut K, text: &[u8]) -> Result<(), Status>
    ensures prints { PrintIs text.now (K.held sink.old) (K.held sink.new) result }
    ensures later { K.faults sink.old ≤ K.faults sink.new }
    ensures cause { result ≡ Err Status.SinkFault → Rose (K.faults sink.old) (K.faults sink.new) }
{
    match sink.put(text) {
        Ok(()) => Ok(()),
        Err(Failed) => Err(Status::SinkFault),
    }
}

/// Prints a reply, as one `put`.
pub fn print_reply<K: Sink>(alloc: Global, sink: &mut K, reply: Reply) -> Result<(), Status>
    ensures prints { PrintIs (text_of reply) (K.held sink.old) (K.held sink.new) result }
    ensures later { K.faults sink.old ≤ K.faults sink.new }
    ensures cause { result ≡ Err Status.SinkFault → Rose (K.faults sink.old) (K.faults sink.new) }
{
    let Ok(text) = reply_text(alloc, &reply) else {
        return Err(Status::NoMemory);
    };
    put_text(sink, &text)
}

/// The text of a reply to a lane of this number.
fn lane_text(alloc: Global, lane: u64, reply: &Reply) -> Result<Vec<u8>, NoMemory>
    ensures { IfOk result (λ text. text.items ≡ said_text (record { lane = Some lane; reply = reply.now })) }
{
    let mut text = format!(in alloc; "{lane} ")?.into_bytes();
    text.extend_from_slice(&reply_text(alloc, reply)?)?;
    Ok(text)
}

/// Prints a reply to a lane, as one `put`.
fn print_said<K: Sink>(alloc: Global, sink: &mut K, lane: u64, reply: &Reply) -> Result<(), Status>
    ensures prints { PrintIs (said_text (record { lane = Some lane; reply = reply.now })) (K.held sink.old) (K.held sink.new) result }
    ensures later { K.faults sink.old ≤ K.faults sink.new }
    ensures cause { result ≡ Err Status.SinkFault → Rose (K.faults sink.old) (K.faults sink.new) }
{
    let Ok(text) = lane_text(alloc, lane, reply) else {
        return Err(Status::NoMemory);
    };
    put_text(sink, &text)
}

/// Prints the replies to one lane.
fn print_lane<K: Sink>(
    alloc: Global,
    sink: &mut K,
    lane: u64,
    replies: &[Reply],
) -> Result<(), Status>
    ensures prints { PrintsAre (to_lane lane replies.now) (K.held sink.old) (K.held sink.new) result }
    ensures later { K.faults sink.old ≤ K.faults sink.new }
    ensures cause { result ≡ Err Status.SinkFault → Rose (K.faults sink.old) (K.faults sink.new) }
{
    for k in 0..replies.len() {
        match print_said(alloc, sink, lane, &replies[k]) {
            Ok(()) => {}
            Err(status) => return Err(status),
        }
    }
    Ok(())
}

/// Prints the replies to all lanes, one lane after another.
pub fn print_lanes<K: Sink>(alloc: Global, sink: &mut K, ran: &[LaneReplies]) -> Result<(), Status>
    ensures prints { PrintsAre (to_lanes 0 (replies_in ran.now)) (K.held sink.old) (K.held sink.new) result }
    ensures later { K.faults sink.old ≤ K.faults sink.new }
    ensures cause { result ≡ Err Status.SinkFault → Rose (K.faults sink.old) (K.faults sink.new) }
{
    for k in 0..ran.len() {
        match print_lane(alloc, sink, k as u64, &ran[k].replies) {
            Ok(()) => {}
            Err(status) => return Err(status),
        }
    }
    Ok(())
}
