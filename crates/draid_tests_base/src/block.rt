ghost use Rattle.std.specs.Prelude.{◌≡◌, ◌≤◌, ◌<◌, ◌+◌, All, IfOk, IfSome, length};
ghost use Rattle.draid_spec.specs.Geometry.{IsGeometry};
ghost use Rattle.draid_block.specs.Blocks.{column_len, cut_of};
ghost use Rattle.draid_block.specs.Solving.{IsFetched};

use crate::layouts::{SMALL, layout};
use draid_block::{Encoded, Fetched, Solve, SolveFault, solve_block, solve_many};
use draid_names::Pointer;
use draid_spec::{Geometry, SpecFault};
use std::alloc::{AllocError, Global};
use std::thread::Threads;

/// How many sets of missing columns are tried with three data columns, by the parity and how many columns are absent: of
/// g columns, a of them absent, the sum over k of the numbers of ways to choose k - a of the other g - a.
static SETS: [[u64; 4]; 4] = [
    [0, 0, 0, 0],
    [1 + 4, 1, 0, 0],
    [1 + 5 + 10, 1 + 4, 1, 0],
    [1 + 6 + 15 + 20, 1 + 5 + 10, 1 + 4, 1],
];

fn sets(parity: u32, absent: u32) -> u64 {
    if parity > 3 || absent > 3 {
        return 0;
    }
    SETS[parity as usize][absent as usize]
}

/// Bytes that differ from sector to sector and within a sector.
fn pattern(alloc: Global, len: usize) -> Result<Vec<u8>, AllocError>
    requires { len ≤ 131072 }
    ensures { IfOk result (λ v. length v.items ≡ len) }
{
    let mut bytes = vec![in alloc; 0; len]?;
    for i in 0..bytes.len() {
        bytes[i] = ((i % 251 + i / 512) % 256) as u8;
    }
    Ok(bytes)
}

/// Column `i` as it is read: nothing where its bit says that it is absent, and with another byte
/// where its bit says that it is wrong.
fn read_column(
    alloc: Global,
    block: &Encoded,
    i: u32,
    absent: u64,
    wrong: u64,
) -> Result<Option<Vec<u8>>, AllocError>
    requires there { i < block.now.cut.parity + block.now.cut.ndata }
    requires few { i < 64 }
    ensures { IfOk result (λ c. IfSome c (λ v. length v.items
        ≡ column_len block.now.cut (length block.now.bytes))) }
{
    if absent >> i & 1 == 1 {
        return Ok(None);
    }
    let mut bytes = Vec::from_slice(alloc, block.column(i))?;
    let at = i as usize;
    if wrong >> i & 1 == 1 && at < bytes.len() {
        bytes[at] ^= 1;
    }
    Ok(Some(bytes))
}

/// What is read of a block, of which the columns of these bits are absent and wrong.
#[tactic(auto, using(crate::proofs::Rows::are_long))]
fn read(
    alloc: Global,
    geometry: &Geometry,
    block: &Encoded,
    absent: u64,
    wrong: u64,
) -> Result<Fetched, AllocError>
    requires geometry { IsGeometry geometry.now }
    requires cut { block.now.cut ≡ cut_of geometry.now }
    ensures { IfOk result (IsFetched (cut_of geometry.now)) }
{
    let mut columns = Vec::new(alloc);
    for i in 0..geometry.spec.parity + geometry.spec.ndata {
        columns.push(read_column(alloc, block, i, absent, wrong)?)?;
    }
    let pointer = Pointer {
        object: 7,
        seq: 1,
        metaslab: 0,
        first: 0,
        stripes: block.stripes(),
        len: block.len(),
        birth: 2,
        digest: block.digest(),
    };
    Ok(Fetched { pointer, columns })
}

/// The data columns of a block, one after another.
fn data_of(alloc: Global, geometry: &Geometry, block: &Encoded) -> Result<Vec<u8>, AllocError>
    requires geometry { IsGeometry geometry.now }
    requires cut { block.now.cut ≡ cut_of geometry.now }
{
    let mut bytes = Vec::new(alloc);
    for i in 0..geometry.spec.ndata {
        bytes.extend_from_slice(block.column(geometry.spec.parity + i))?;
    }
    Ok(bytes)
}

/// Whether a block is solved to its bytes exactly where at most as many columns as the parity are
/// absent or wrong, and all sets were tried where more are.
fn is_answered(
    alloc: Global,
    geometry: &Geometry,
    fetched: &Fetched,
    bytes: &[u8],
    absent: u32,
    lost: u32,
) -> bool
    requires geometry { IsGeometry geometry.now }
    requires fetched { IsFetched (cut_of geometry.now) fetched.now }
{
    let answer = solve_block(alloc, geometry, fetched);
    if lost > geometry.spec.parity {
        let tried = sets(geometry.spec.parity, absent);
        return answer == Err(SolveFault::Unreadable { absent, tried });
    }
    match answer {
        Ok(found) => found.as_slice() == bytes,
        Err(_) => false,
    }
}

/// Whether it is so of a block that is read without the columns of these bits, and with these wrong.
fn is_read(
    alloc: Global,
    geometry: &Geometry,
    block: &Encoded,
    bytes: &[u8],
    absent: u64,
    wrong: u64,
) -> bool
    requires geometry { IsGeometry geometry.now }
    requires cut { block.now.cut ≡ cut_of geometry.now }
{
    let lost = (absent | wrong).count_ones();
    match read(alloc, geometry, block, absent, wrong) {
        Ok(fetched) => is_answered(alloc, geometry, &fetched, bytes, absent.count_ones(), lost),
        Err(_) => false,
    }
}

/// The same of a block of these bytes.
fn is_solved(alloc: Global, geometry: &Geometry, bytes: &[u8], absent: u64, wrong: u64) -> bool
    requires geometry { IsGeometry geometry.now }
    requires some { 1 ≤ length bytes.now }
    requires short { length bytes.now ≤ 131072 }
{
    match Encoded::of(alloc, geometry, bytes) {
        Ok(block) => is_read(alloc, geometry, &block, bytes, absent, wrong),
        Err(_) => false,
    }
}

/// Whether it is solved so whichever of `columns` columns are wrong.
fn is_solved_with(
    alloc: Global,
    geometry: &Geometry,
    bytes: &[u8],
    columns: u32,
    absent: u64,
) -> bool
    requires geometry { IsGeometry geometry.now }
    requires some { 1 ≤ length bytes.now }
    requires short { length bytes.now ≤ 131072 }
    requires columns { columns ≤ 6 }
{
    for wrong in 0..1_u64 << columns {
        if wrong & absent == 0 && !is_solved(alloc, geometry, bytes, absent, wrong) {
            return false;
        }
    }
    true
}

/// Whether it is solved so whichever columns are absent.
fn is_solved_without(alloc: Global, geometry: &Geometry, bytes: &[u8], columns: u32) -> bool
    requires geometry { IsGeometry geometry.now }
    requires some { 1 ≤ length bytes.now }
    requires short { length bytes.now ≤ 131072 }
    requires columns { columns ≤ 6 }
{
    for absent in 0..1_u64 << columns {
        if !is_solved_with(alloc, geometry, bytes, columns, absent) {
            return false;
        }
    }
    true
}

/// Three data columns and so many of parity.
fn three_wide(parity: u32) -> Result<Geometry, SpecFault>
    ensures { IfOk result IsGeometry }
{
    let text = match parity {
        1 => b"draid1:3d",
        2 => b"draid2:3d",
        _ => b"draid3:3d",
    };
    layout(text, parity.saturating_add(3), SMALL)
}

/// The data columns of two stripes: the first has the sectors 0 and 1, the second sector 2 and a zero sector, the third
/// sector 3 and a zero sector.
fn cut_in_three(alloc: Global, bytes: &[u8]) -> Result<Vec<u8>, AllocError>
    requires { 1536 ≤ length bytes.now }
{
    let (front, last) = bytes.split_at(1536);
    let mut columns = Vec::new(alloc);
    columns.extend_from_slice(front)?;
    columns.resize(2048, 0)?;
    columns.extend_from_slice(last)?;
    columns.resize(3072, 0)?;
    Ok(columns)
}

/// Whether the data columns of a block are these bytes, cut so.
fn is_cut(
    alloc: Global,
    geometry: &Geometry,
    block: &Encoded,
    bytes: &[u8],
) -> Result<bool, AllocError>
    requires geometry { IsGeometry geometry.now }
    requires cut { block.now.cut ≡ cut_of geometry.now }
    requires some { 1536 ≤ length bytes.now }
{
    let columns = data_of(alloc, geometry, block)?;
    Ok(columns == cut_in_three(alloc, bytes)?)
}

/// Whether a block has two stripes, 2,048 bytes, this first byte of its parity, and data columns that are cut so.
fn has_cut(alloc: Global, geometry: &Geometry, block: &Encoded, bytes: &[u8], first: u8) -> bool
    requires geometry { IsGeometry geometry.now }
    requires cut { block.now.cut ≡ cut_of geometry.now }
    requires some { 1536 ≤ length bytes.now }
{
    block.stripes() == 2
        && block.len() == 2048
        && block.column(0).first().copied() == Some(first)
        && is_cut(alloc, geometry, block, bytes) == Ok(true)
}

/// Whether a block of these bytes does.
fn cuts(alloc: Global, geometry: &Geometry, bytes: &[u8]) -> bool
    requires geometry { IsGeometry geometry.now }
    requires some { 1537 ≤ length bytes.now }
    requires short { length bytes.now ≤ 131072 }
{
    let first = bytes[0] ^ bytes[1024] ^ bytes[1536];
    match Encoded::of(alloc, geometry, bytes) {
        Ok(block) => has_cut(alloc, geometry, &block, bytes, first),
        Err(_) => false,
    }
}

/// Whether a block of four sectors does, with three data columns.
fn cuts_by_three(alloc: Global) -> bool {
    match (layout(b"draid:3d", 4, SMALL), pattern(alloc, 2048)) {
        (Ok(geometry), Ok(bytes)) => cuts(alloc, &geometry, &bytes),
        _ => false,
    }
}

#[test]
fn cuts_a_block(rt: HostRuntime) {
    assert!(rt; cuts_by_three(rt.alloc()));
}

/// Whether a block of three sectors is solved so with this parity, whichever columns are absent and wrong.
fn any_come_back(alloc: Global, parity: u32) -> bool
    requires { parity ≤ 3 }
{
    match (three_wide(parity), pattern(alloc, 1536)) {
        (Ok(geometry), Ok(bytes)) => is_solved_without(alloc, &geometry, &bytes, parity + 3),
        _ => false,
    }
}

#[test]
fn any_columns_come_back(rt: HostRuntime) {
    for parity in 1..4 {
        assert!(rt; any_come_back(rt.alloc(), parity), "{parity}");
    }
}

/// Whether a block of so many bytes comes back with two columns of parity, also where two data columns are absent.
fn comes_back(alloc: Global, len: usize) -> bool
    requires some { 1 ≤ len }
    requires most { len ≤ 131072 }
{
    match (three_wide(2), pattern(alloc, len)) {
        (Ok(geometry), Ok(bytes)) => {
            is_solved(alloc, &geometry, &bytes, 0, 0)
                && is_solved(alloc, &geometry, &bytes, 0b01100, 0)
        }
        _ => false,
    }
}

static LENGTHS: [usize; 6] = [1, 511, 512, 513, 131_071, 131_072];

#[test]
fn blocks_of_any_size_come_back(rt: HostRuntime) {
    for len in LENGTHS.iter() {
        if *len >= 1 && *len <= 131_072 {
            assert!(rt; comes_back(rt.alloc(), *len), "{len}");
        }
    }
}

/// Reads a block with a wrong column, without two columns, and without one.
fn read_thrice(
    alloc: Global,
    geometry: &Geometry,
    block: &Encoded,
) -> Result<[Fetched; 3], AllocError>
    requires geometry { IsGeometry geometry.now }
    requires cut { block.now.cut ≡ cut_of geometry.now }
    ensures { IfOk result (λ blocks. All (IsFetched (cut_of geometry.now)) blocks) }
{
    let wrong = read(alloc, geometry, block, 0, 0b0010)?;
    let lost = read(alloc, geometry, block, 0b0011, 0)?;
    let readable = read(alloc, geometry, block, 0b0100, 0)?;
    Ok([wrong, lost, readable])
}

/// Whether these bytes were found.
fn is_found(answer: &Solve, bytes: &[u8]) -> bool {
    match answer {
        Solve::Bytes(found) => found.as_slice() == bytes,
        Solve::Unreadable { .. } => false,
    }
}

/// Whether the first and the third of three blocks are these bytes, and the second was unreadable with nothing to try.
fn are_answers(answers: &[Solve], bytes: &[u8]) -> bool {
    match answers {
        [first, second, third] => {
            is_found(first, bytes)
                && *second
                    == Solve::Unreadable {
                        absent: 2,
                        tried: 0,
                    }
                && is_found(third, bytes)
        }
        _ => false,
    }
}

/// Whether three blocks that are solved together are answered so.
fn are_solved<R: AllocGlobal + Threads + Sync>(
    rt: &R,
    geometry: &Geometry,
    blocks: &[Fetched],
    bytes: &[u8],
) -> bool
    requires geometry { IsGeometry geometry.now }
    requires blocks { All (IsFetched (cut_of geometry.now)) blocks.now }
{
    match solve_many(rt, rt.alloc(), geometry, blocks) {
        Ok(answers) => are_answers(&answers, bytes),
        Err(_) => false,
    }
}

/// The same of what is so read of a block of these bytes.
fn are_read<R: AllocGlobal + Threads + Sync>(
    rt: &R,
    geometry: &Geometry,
    block: &Encoded,
    bytes: &[u8],
) -> bool
    requires geometry { IsGeometry geometry.now }
    requires cut { block.now.cut ≡ cut_of geometry.now }
{
    match read_thrice(rt.alloc(), geometry, block) {
        Ok(blocks) => are_solved(rt, geometry, &blocks, bytes),
        Err(_) => false,
    }
}

/// The same of a block of these bytes.
fn are_solved_of<R: AllocGlobal + Threads + Sync>(rt: &R, geometry: &Geometry, bytes: &[u8]) -> bool
    requires geometry { IsGeometry geometry.now }
    requires some { 1 ≤ length bytes.now }
    requires short { length bytes.now ≤ 131072 }
{
    match Encoded::of(rt.alloc(), geometry, bytes) {
        Ok(block) => are_read(rt, geometry, &block, bytes),
        Err(_) => false,
    }
}

/// The same of 1,000 bytes, with three data columns.
fn are_solved_by_three<R: AllocGlobal + Threads + Sync>(rt: &R) -> bool {
    match (layout(b"draid:3d", 4, SMALL), pattern(rt.alloc(), 1000)) {
        (Ok(geometry), Ok(bytes)) => are_solved_of(rt, &geometry, &bytes),
        _ => false,
    }
}

#[test]
fn many_blocks_are_solved_in_order(rt: HostRuntime) {
    assert!(rt; are_solved_by_three(&rt));
}
