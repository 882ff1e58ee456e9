ghost use Rattle.std.specs.Prelude.{◌≡◌, ◌+◌, ◌≤◌, Ok, IfOk, IfSome, drop, length};
ghost use Rattle.byteorder.specs.Endian.{big_number};
ghost use Rattle.std.specs.Option.{option_map};
ghost use Rattle.draid_spec.specs.Geometry.{IsGeometry};
ghost use Rattle.draid_record.specs.Reader.{Reads, Took, state_of};
ghost use Rattle.draid_record.specs.Reading.{read};
ghost use Rattle.draid_record.specs.Record as spec;
ghost use Rattle.draid_record.specs.Record.{AreLimits, RecordTold, told_record};

use crate::arm::slots;
use crate::block::{are_spaces, blocks, spaces};
use crate::fault::{Fault, RecordFault, RecordFaultKind};
use crate::limits::Limits;
use crate::pass::pass;
use crate::reader::Reader;
use byteorder::{BigEndian, ByteOrder};
use draid_dtl::Log;
use draid_names::{Arm, LAST_NUMBER, NoMemory, Pointer};
use draid_pass::Pass;
use draid_spec::Geometry;
use std::alloc::Global;

pub(crate) const MAGIC: u64 = 0x445a_5243;

/// What a metaslab's record of a group tells.
#[derive(Drop)]
pub struct Record {
    /// The version of the pool's format in which the record is.
    pub version: u32,
    pub metaslab: u32,
    pub group: u64,
    /// For each child slot its arms in the order of attachment, with their logs.
    pub slots: Vec<Vec<(Arm, Log)>>,
    /// The last pass number used, below 2^48.
    pub last_pass: u64,
    /// The pass, whose number is the last one used.
    pub pass: Option<Pass>,
    /// The blocks, ascending by their stripes.
    pub blocks: Vec<Pointer>,
}

/// The record of a metaslab and a group at the front of an area, in the version of the layout, where leaves have
/// numbers below `next_leaf`. Bytes behind its length aren't read.
pub fn read_record(
    alloc: Global,
    bytes: &[u8],
    geometry: &Geometry,
    metaslab: u32,
    group: u64,
    next_leaf: u64,
) -> Result<Record, RecordFault>
    requires { IsGeometry geometry.now }
    // What is read is spelled so, byte for byte.
    ensures found { IfOk result (λ it. spec.Spelled (spec.limits_of geometry.now metaslab group next_leaf) bytes.now (told_record it)) }
    // What is spelled so is read, unless memory runs out.
    ensures only { (value : RecordTold) → spec.Spelled (spec.limits_of geometry.now metaslab group next_leaf) bytes.now value
        → spec.Answers result (Ok value) }
    // Which fault it is.
    ensures exact { spec.Answers result (spec.record_of (spec.limits_of geometry.now metaslab group next_leaf) bytes.now) }
    ensures number { IfOk result (λ it. IfSome it.pass (λ pass. pass.number ≡ it.last_pass)) }
{
    let limits = limits(geometry, metaslab, group, next_leaf);
    told(alloc, bytes, &limits)
}

/// The length that a record says at its front.
pub fn length_of(bytes: &[u8]) -> u64
    requires { 10 ≤ length bytes.now }
    ensures { result ≡ big_number 4 (drop 6 bytes.now) }
{
    BigEndian::read_uint(&bytes[6..], 4)
}

/// The metaslab, the group and the number of slots.
fn head(reader: &mut Reader, limits: &Limits)
    ensures { Reads (state_of reader.old) (state_of reader.new) limits.now.children (spec.head limits.now) }
{
    reader.exactly(2, u64::from(limits.metaslab));
    reader.exactly(8, limits.group);
    reader.exactly(2, u64::from(limits.children));
}

/// The fields behind the length.
fn body(alloc: Global, reader: &mut Reader, limits: &Limits) -> Result<Record, NoMemory>
    requires { AreLimits limits.now }
    ensures body { IfOk result (λ it. Reads (state_of reader.old) (state_of reader.new) (told_record it) (spec.body limits.now)) }
    ensures number { IfOk result (λ it. IfSome it.pass (λ pass. pass.number ≡ it.last_pass)) }
{
    head(reader, limits);
    let slots = slots(alloc, reader, limits)?;
    let last_pass = reader.number(8, 0, LAST_NUMBER);
    let pass = pass(alloc, reader, limits, &slots, last_pass)?;
    let runs = spaces(alloc, reader)?;
    let list = blocks(alloc, reader, limits)?;
    let back = 8 + 16 * runs.len() + 72 * list.len();
    reader.check(are_spaces(&runs, &list), back);
    Ok(Record {
        version: limits.version,
        metaslab: limits.metaslab,
        group: limits.group,
        slots,
        last_pass,
        pass,
        blocks: list,
    })
}

/// What the ranges of a record's fields go by.
fn limits(geometry: &Geometry, metaslab: u32, group: u64, next_leaf: u64) -> Limits
    requires { IsGeometry geometry.now }
    ensures value { result ≡ spec.limits_of geometry.now metaslab group next_leaf }
    ensures sound { AreLimits result }
{
    Limits {
        version: geometry.props.version,
        children: geometry.spec.children,
        spares: u64::from(geometry.spec.spares),
        next_leaf,
        metaslab,
        group,
        stripes: geometry.metaslab_stripes(),
        height: u64::from(geometry.props.height),
        sector: u64::from(geometry.props.sector),
        ndata: u64::from(geometry.spec.ndata),
    }
}

/// The length of the whole record.
fn front(reader: &mut Reader, limits: &Limits, area: u64) -> u64
    ensures front { Reads (state_of reader.old) (state_of reader.new) result (spec.front limits.now area) }
    ensures low { IfOk (state_of reader.new) (λ _. 10 ≤ result) }
    ensures high { result ≤ area }
    ensures took { Took 10 (state_of reader.old) (state_of reader.new) }
{
    reader.exactly(4, MAGIC);
    reader.exactly(2, u64::from(limits.version));
    reader.number(4, 10, area)
}

/// The fields of a record of this length, which end with it.
fn fields(alloc: Global, bytes: &[u8], len: usize, limits: &Limits) -> Result<Record, RecordFault>
    requires { AreLimits limits.now }
    ensures fields { spec.Answers result (spec.ended len (read (spec.body limits.now) bytes.now)) }
    ensures number { IfOk result (λ it. IfSome it.pass (λ pass. pass.number ≡ it.last_pass)) }
{
    let mut reader = Reader::new(bytes);
    let Ok(record) = body(alloc, &mut reader, limits) else {
        return Err(RecordFault::NoMemory);
    };
    match reader.left() {
        Ok([]) => Ok(record),
        Ok(bytes) => {
            let left = bytes.len();
            Err(Fault {
                left,
                kind: RecordFaultKind::Trailing,
            }
            .within(len))
        }
        Err(fault) => Err(fault.within(len)),
    }
}

/// The record at the front of an area.
fn told(alloc: Global, area: &[u8], limits: &Limits) -> Result<Record, RecordFault>
    requires { AreLimits limits.now }
    ensures told { spec.Answers result (spec.record_of limits.now area.now) }
    ensures number { IfOk result (λ it. IfSome it.pass (λ pass. pass.number ≡ it.last_pass)) }
{
    let mut reader = Reader::new(area);
    let len = front(&mut reader, limits, area.len() as u64) as usize;
    match reader.left() {
        Ok(rest) => fields(alloc, &rest[..len - 10], len, limits),
        Err(fault) => Err(fault.within(area.len())),
    }
}
