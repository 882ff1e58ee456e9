ghost use Rattle.std.specs.Prelude.{◌≡◌, ◌==◌, ◌%◌, ◌||◌, Ok, IfOk, length};
ghost use Rattle.draid_record.specs.Grammar.{Spells};
ghost use Rattle.draid_record.specs.Reader.{Reads, state_of};
ghost use Rattle.draid_record.specs.Reading.{read};
ghost use Rattle.draid_spec.specs.Geometry.{IsVersion};
ghost use Rattle.draid_spec.specs.Spec.{IsSpec};
ghost use Rattle.draid_record.specs.Uber as grammar;

use crate::fault::RecordFault;
use crate::field::put;
use crate::reader::Reader;
use draid_names::LAST_NUMBER;
use draid_spec::{Props, Spec, geometry, most_children};

/// What a slot of the uberblock area tells.
#[derive(Clone, Copy, PartialEq, Eq)]
pub struct UberBody {
    /// The committed group, 1 to 2^48 - 2.
    pub group: u64,
    pub spec: Spec,
    pub props: Props,
    /// The number of the next new leaf, at most 2^48 - 1.
    pub next_leaf: u64,
}

const GATE: u64 = 0x5a;

const MAGIC: u64 = 0x445a_5542;

/// What the open slot of this number, 0 or 1, tells; bytes behind it aren't read.
pub fn read_uber(bytes: &[u8], slot: u32) -> Result<UberBody, RecordFault>
    // What is read is spelled so, byte for byte.
    ensures found { IfOk result (grammar.Begins bytes.now (grammar.uber slot)) }
    // What is spelled so is read.
    ensures only { (body : UberBody) → grammar.Begins bytes.now (grammar.uber slot) body → result ≡ Ok body }
    // Which fault it is.
    ensures exact { result ≡ grammar.told (length bytes.now) (read (grammar.uber slot) bytes.now) }
{
    told(bytes, slot)
}

/// The value, or the first fault by its place.
fn told(bytes: &[u8], slot: u32) -> Result<UberBody, RecordFault>
    ensures { result ≡ grammar.told (length bytes.now) (read (grammar.uber slot) bytes.now) }
{
    let mut reader = Reader::new(bytes);
    let body = uber(&mut reader, u64::from(slot));
    match reader.left() {
        Ok(_) => Ok(body),
        Err(fault) => Err(fault.within(bytes.len())),
    }
}

/// The gate, the magic, the version and the group.
fn head(reader: &mut Reader, slot: u64) -> (u32, u64)
    ensures { Reads (state_of reader.old) (state_of reader.new) result (grammar.head slot) }
{
    reader.exactly(1, GATE);
    reader.exactly(4, MAGIC);
    let version = reader.number(2, 1, 2);
    let group = reader.number(8, 1, LAST_NUMBER - 1);
    reader.check(group % 2 == slot, 8);
    (version as u32, group)
}

/// The spec of a pool of this version.
fn spec(reader: &mut Reader, version: u32) -> Spec
    ensures spec { Reads (state_of reader.old) (state_of reader.new) result (grammar.spec version) }
    ensures ranges { IfOk (state_of reader.new) (λ _. IsSpec version result) }
{
    let parity = reader.number(1, 1, 3);
    let ndata = reader.number(1, 1, 255);
    let children = reader.number(1, 2, u64::from(most_children(version)));
    let spares = reader.number(1, 0, 4);
    let have = children.saturating_sub(spares);
    reader.check(parity + ndata <= have, 1);
    Spec {
        parity: parity as u32,
        ndata: ndata as u32,
        children: children as u32,
        spares: spares as u32,
    }
}

/// Whether sectors may have so many bytes.
fn is_sector(bytes: u64) -> bool
    ensures { result ≡ ((bytes == 512) || (bytes == 4096)) }
{
    bytes == 512 || bytes == 4096
}

/// Whether there is such a layout, where there was no fault yet.
fn is_layout(reader: &Reader, spec: Spec, props: Props) -> bool
    requires { IfOk (state_of reader.now) (λ _. IsSpec props.version spec) }
    ensures { IfOk (state_of reader.now) (λ _. result ≡ grammar.gives_layout spec props) }
{
    !reader.has_failed() && geometry(spec, props).is_ok()
}

/// The properties of a pool of this spec and version.
fn props(reader: &mut Reader, version: u32, spec: Spec) -> Props
    requires { IfOk (state_of reader.old) (λ _. IsSpec version spec) }
    ensures { Reads (state_of reader.old) (state_of reader.new) result (grammar.props version spec) }
{
    let sector = reader.number(4, 512, 4096);
    reader.check(is_sector(sector), 4);
    let height = reader.number(4, 8, 4096);
    reader.check(height.is_power_of_two(), 4);
    let metaslabs = reader.number(4, 1, 64);
    let slices = reader.number(4, 1, 1024);
    let mut props = Props {
        sector: sector as u32,
        height: height as u32,
        metaslabs: metaslabs as u32,
        slices: slices as u32,
        seed: 0,
        version,
    };
    reader.check(is_layout(reader, spec, props), 4);
    props.seed = reader.number(8, 0, u64::MAX);
    props
}

fn uber(reader: &mut Reader, slot: u64) -> UberBody
    ensures { Reads (state_of reader.old) (state_of reader.new) result (grammar.uber slot) }
{
    let (version, group) = head(reader, slot);
    let spec = spec(reader, version);
    let props = props(reader, version, spec);
    let next_leaf = reader.number(8, u64::from(spec.children), LAST_NUMBER);
    UberBody {
        group,
        spec,
        props,
        next_leaf,
    }
}

/// The 51 bytes of an open slot that tells this. They are read again as the same value.
pub fn write_uber(body: &UberBody) -> [u8; 51]
    requires { grammar.IsUber body.now }
    ensures spelled { Spells (grammar.uber (body.now.group % 2)) result body.now }
{
    let mut bytes = [0u8; 51];
    put(&mut bytes, 0, 1, GATE);
    put(&mut bytes, 1, 4, MAGIC);
    put(&mut bytes, 5, 2, u64::from(body.props.version));
    put(&mut bytes, 7, 8, body.group);
    put(&mut bytes, 15, 1, u64::from(body.spec.parity));
    put(&mut bytes, 16, 1, u64::from(body.spec.ndata));
    put(&mut bytes, 17, 1, u64::from(body.spec.children));
    put(&mut bytes, 18, 1, u64::from(body.spec.spares));
    put(&mut bytes, 19, 4, u64::from(body.props.sector));
    put(&mut bytes, 23, 4, u64::from(body.props.height));
    put(&mut bytes, 27, 4, u64::from(body.props.metaslabs));
    put(&mut bytes, 31, 4, u64::from(body.props.slices));
    put(&mut bytes, 35, 8, body.props.seed);
    put(&mut bytes, 43, 8, body.next_leaf);
    bytes
}
