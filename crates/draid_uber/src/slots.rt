ghost use Rattle.std.specs.Prelude.{◌≡◌, ◌≤◌, ◌*◌, [], Ok, Some, IfOk, IsErrOf, OnErr, OnOk, option_map};
ghost use Rattle.draid_area.specs.Area.{OnTold, flushes};
ghost use Rattle.draid_names.specs.Faults.{Rose};
ghost use Rattle.draid_record.specs.declared.uber.UberBody.{UberBody};
ghost use Rattle.draid_record.specs.Uber.{IsUber};
ghost use Rattle.draid_spec.specs.Geometry.{IsGeometry};
ghost use Rattle.draid_uber.specs.Steps.{IsSameOrFlushed};
ghost use Rattle.draid_uber.specs.Slots.{StandsIn, StandsTold, choice_of, chosen_of, group_in, is_open};

use byteorder::{BigEndian, ByteOrder};
use draid_area::Area;
use draid_names::DeviceFault;
use draid_record::{RecordFault, UberBody, read_uber};
use draid_spec::{Geometry, geometry};

/// How many bytes the area has.
pub(crate) const AREA: u64 = 1024;

/// How many bytes of a slot are its gate and its body.
pub(crate) const SLOT: usize = 51;

/// The gate of a slot that counts.
pub(crate) const OPEN: u8 = 0x5a;

/// Where a slot begins.
pub(crate) fn base(slot: u32) -> u64
    ensures { result ≡ 512 * slot }
{
    u64::from(slot) * 512
}

/// The group that stands in a slot.
fn group(slot: &[u8; SLOT]) -> u64
    ensures { result ≡ group_in slot.now }
{
    BigEndian::read_u64(&slot[7..])
}

/// What two slots tell: the open one, and where both are the one with the greater group.
pub(crate) fn choice(zero: &[u8; SLOT], one: &[u8; SLOT]) -> Option<Result<UberBody, RecordFault>>
    ensures choice { result ≡ choice_of zero.now one.now }
    ensures ranges { (body : UberBody) → result ≡ Some (Ok body) → IsUber body }
    ensures stands { (body : UberBody) → result ≡ Some (Ok body) → StandsIn zero.now one.now body }
{
    let first = zero[0] == OPEN;
    let second = one[0] == OPEN;
    if first && !(second && group(zero) < group(one)) {
        return Some(read_uber(zero, 0));
    }
    if second {
        return Some(read_uber(one, 1));
    }
    None
}

/// What an import takes from an area, which is flushed first so that no gate that is read is soft.
pub(crate) fn chosen<A: Area>(
    area: &mut A,
) -> Result<Option<Result<UberBody, RecordFault>>, DeviceFault>
    ensures chosen { IfOk result (λ chosen. OnTold (A.told area.old) (λ x. chosen ≡ chosen_of x.bytes)) }
    ensures ranges { (body : UberBody) → result ≡ Ok (Some (Ok body)) → IsUber body }
    ensures long { (body : UberBody) → result ≡ Ok (Some (Ok body)) → 1024 ≤ A.size area.new }
    ensures stands { (body : UberBody) → result ≡ Ok (Some (Ok body)) → StandsTold (Some body) [] (A.told area.new) }
    ensures flushed { OnOk result (A.told area.new ≡ option_map flushes (A.told area.old)) }
    ensures err { OnErr result (IsSameOrFlushed (A.told area.old) (A.told area.new)) }
    ensures size { A.size area.new ≡ A.size area.old }
    ensures later { A.faults area.old ≤ A.faults area.new }
    ensures cause { IsErrOf result DeviceFault.Failed → Rose (A.faults area.old) (A.faults area.new) }
{
    area.flush()?;
    if area.length() < AREA {
        return Ok(None);
    }
    let mut zero = [0; SLOT];
    area.read(base(0), &mut zero)?;
    let mut one = [0; SLOT];
    area.read(base(1), &mut one)?;
    Ok(choice(&zero, &one))
}

/// The layout of a body that is in its ranges.
#[tactic(auto, using(crate::proofs::Layouts::layout_given, crate::proofs::Layouts::given_parts))]
pub(crate) fn layout(body: &UberBody) -> Geometry
    requires { IsUber body.now }
    ensures whole { IsGeometry result }
    ensures spec { result.spec ≡ body.now.spec }
    ensures props { result.props ≡ body.now.props }
{
    geometry(body.spec, body.props).unwrap()
}
