//! The check record: which checkpoint a group has, and which blocks that alone keeps.

ghost use Rattle.std.specs.Prelude.{◌≡◌, ◌+◌, ◌*◌, ◌<◌, ◌≤◌, ◌++◌, ℕ, List, Ok, IfOk, length, max};
ghost use Rattle.std.specs.List.{flat_map};
ghost use Rattle.draid_record.specs.Checks as spec;
ghost use Rattle.draid_record.specs.Checks.{CheckTold, told_check};
ghost use Rattle.draid_record.specs.Reader.{Reads, Took, state_of};
ghost use Rattle.draid_record.specs.Reading.{read};
ghost use Rattle.draid_record.specs.Writer.{Writes, text_of};

use crate::fault::{Fault, RecordFault, RecordFaultKind};
use crate::reader::Reader;
use crate::writer::Writer;
use draid_names::NoMemory;
use std::alloc::Global;

const MAGIC: u64 = 0x445a_4350;

/// As many blocks as a pool may hold.
pub const MOST_DROPS: usize = 524_288;

/// A block that a checkpoint alone keeps.
#[derive(Clone, Copy, PartialEq, Eq)]
pub struct Dropped {
    pub object: u64,
    pub seq: u64,
}

/// What a check record tells.
#[derive(Drop)]
pub struct CheckBody {
    /// The checkpoint's group, 0 where there is none.
    pub group: u64,
    /// The blocks that it alone keeps, ascending by object and number.
    pub drops: Vec<Dropped>,
}

/// The object of the next block.
fn least_object(before: Option<Dropped>) -> u64
    ensures { result ≡ spec.least_object before }
{
    match before {
        Some(before) => before.object,
        None => 0,
    }
}

/// Whether a block comes behind the one before.
fn is_behind(before: Option<Dropped>, object: u64, seq: u64) -> bool
    ensures { result ≡ spec.is_behind before object seq }
{
    match before {
        Some(before) => object != before.object || before.seq < seq,
        None => true,
    }
}

/// A block behind the one before.
fn drop_behind(reader: &mut Reader, before: Option<Dropped>) -> Dropped
    ensures { Reads (state_of reader.old) (state_of reader.new) result (spec.drop_behind before) }
{
    let object = reader.number(8, least_object(before), u64::MAX);
    let seq = reader.number(8, 0, u64::MAX);
    reader.check(is_behind(before, object, seq), 8);
    Dropped { object, seq }
}

/// So many blocks.
fn drops_of(alloc: Global, reader: &mut Reader, count: u64) -> Result<Vec<Dropped>, NoMemory>
    ensures { IfOk result (λ drops. Reads (state_of reader.old) (state_of reader.new) drops.items (spec.drops_of count)) }
{
    let mut drops = Vec::new(alloc);
    let mut before = None;
    for _ in 0..count {
        let found = drop_behind(reader, before);
        if reader.has_failed() {
            return Ok(drops);
        }
        drops.push(found)?;
        before = Some(found);
    }
    Ok(drops)
}

/// The most blocks that a checkpoint of this group alone keeps.
fn most_drops(group: u64) -> u64
    ensures { result ≡ spec.most_drops group }
{
    if group == 0 { 0 } else { MOST_DROPS as u64 }
}

/// The fields behind the length.
fn fields(alloc: Global, reader: &mut Reader, group: u64, len: u64) -> Result<CheckBody, NoMemory>
    ensures { IfOk result (λ it. Reads (state_of reader.old) (state_of reader.new) (told_check it) (spec.fields group len)) }
{
    reader.exactly(8, group);
    let point = reader.number(8, 0, group);
    let count = reader.number(4, 0, most_drops(point));
    reader.check(len == 30 + 16 * count, 24);
    let drops = drops_of(alloc, reader, count)?;
    Ok(CheckBody {
        group: point,
        drops,
    })
}

/// The length of the whole record.
fn front(reader: &mut Reader, area: u64) -> u64
    ensures front { Reads (state_of reader.old) (state_of reader.new) result (spec.front area) }
    ensures high { result ≤ area }
    ensures took { Took 10 (state_of reader.old) (state_of reader.new) }
{
    reader.exactly(4, MAGIC);
    reader.exactly(2, 1);
    reader.number(4, 0, area)
}

/// The fields of a record of this length, which end with it.
fn ended(alloc: Global, bytes: &[u8], len: usize, group: u64) -> Result<CheckBody, RecordFault>
    ensures { spec.AnswersCheck result (spec.ended (max len 10) (read (spec.fields group len) bytes.now)) }
{
    let mut reader = Reader::new(bytes);
    let Ok(body) = fields(alloc, &mut reader, group, len as u64) else {
        return Err(RecordFault::NoMemory);
    };
    let whole = len.max(10);
    match reader.left() {
        Ok([]) => Ok(body),
        Ok(bytes) => {
            let left = bytes.len();
            Err(Fault {
                left,
                kind: RecordFaultKind::Trailing,
            }
            .within(whole))
        }
        Err(fault) => Err(fault.within(whole)),
    }
}

/// The record at the front of an area.
fn told(alloc: Global, area: &[u8], group: u64) -> Result<CheckBody, RecordFault>
    ensures { spec.AnswersCheck result (spec.check_of group area.now) }
{
    let mut reader = Reader::new(area);
    let len = front(&mut reader, area.len() as u64) as usize;
    match reader.left() {
        Ok(rest) => ended(alloc, &rest[..len.saturating_sub(10)], len, group),
        Err(fault) => Err(fault.within(area.len())),
    }
}

/// The check record of a group at the front of an area. Bytes behind its length aren't read.
pub fn read_check(alloc: Global, bytes: &[u8], group: u64) -> Result<CheckBody, RecordFault>
    // What is read is spelled so, byte for byte.
    ensures found { IfOk result (λ it. spec.SpelledCheck group bytes.now (told_check it)) }
    // What is spelled so is read, unless memory runs out.
    ensures only { (value : CheckTold) → spec.SpelledCheck group bytes.now value → spec.AnswersCheck result (Ok value) }
    // Which fault it is.
    ensures exact { spec.AnswersCheck result (spec.check_of group bytes.now) }
{
    told(alloc, bytes, group)
}

fn put_drops(out: &mut Writer, drops: &[Dropped])
    ensures { Writes (text_of out.old) (text_of out.new) (flat_map spec.drop_bytes drops.now) }
{
    for dropped in drops {
        out.put(8, dropped.object);
        out.put(8, dropped.seq);
    }
}

/// The bytes of the check record of a group, for the front of an area. Where the value is in its ranges they are read again
/// as the same value, whatever bytes follow.
pub fn write_check(alloc: Global, value: &CheckBody, group: u64) -> Result<Vec<u8>, NoMemory>
    requires few { length value.now.drops.items ≤ 524_288 }
    ensures bytes { IfOk result (λ bytes. bytes.items ≡ spec.check_bytes group (told_check value.now)) }
    ensures spelled { IfOk result (λ bytes. (more : List ℕ) → spec.IsCheck group (told_check value.now)
        → spec.SpelledCheck group (bytes.items ++ more) (told_check value.now)) }
{
    whole(alloc, value, group)
}

/// The front and the fields behind it.
fn whole(alloc: Global, value: &CheckBody, group: u64) -> Result<Vec<u8>, NoMemory>
    requires { length value.now.drops.items ≤ 524_288 }
    ensures { IfOk result (λ bytes. bytes.items ≡ spec.check_bytes group (told_check value.now)) }
{
    let count = value.drops.len();
    let len = 30 + 16 * count;
    let mut out = Writer::with_room(alloc, len)?;
    out.put(4, MAGIC);
    out.put(2, 1);
    out.put(4, len as u64);
    out.put(8, group);
    out.put(8, value.group);
    out.put(4, count as u64);
    put_drops(&mut out, &value.drops);
    out.done()
}

/// Law: what is written of a check record is read again as the same value, whatever stands behind it.
#[tactic(auto, using(crate::proofs::Checked::check_again))]
pub fn checks_are_read_again()
    ensures { (group : ℕ) (value : CheckTold) (bytes more : List ℕ) → spec.IsCheck group value → bytes ≡ spec.check_bytes group value
        → spec.check_of group (bytes ++ more) ≡ Ok value }
{}
