ghost use Rattle.std.specs.Prelude.{◌≡◌, ◌≤◌, ◌<◌, ◌==◌, ◌+◌, ◌-◌, ◌^◌, min, false, true, IfOk, IsSomeAnd, Some, length};
ghost use Rattle.std.specs.List.{list_any};
ghost use Rattle.draid_rack.specs.Soft.{FlushesThose, ListsSoft};

use crate::sector::Sector;
use draid_faults::CrashRule;
use draid_names::NoMemory;
use std::alloc::Global;

/// So many soft sectors a leaf lists at most.
const LISTED: usize = 1_024;

#[derive(Drop)]
pub(crate) struct Leaf {
    pub sectors: Vec<Sector>,
    /// The soft sectors, and maybe others. There is room for them from the start.
    pub soft: Vec<u64>,
    /// Whether a soft sector may be missing there, since they were too many.
    pub unlisted: bool,
    /// How often a call on this leaf has failed.
    pub faults: u64,
    ghost listed: { ListsSoft unlisted soft.items sectors.items },
}

impl Leaf {
    ghost use Rattle.draid_rack.specs.Leaves.{ChangesSectors, IsBlank, view_in};
    ghost use Rattle.draid_rack.specs.Sectors.{crashed, damaged, flushed, landed, marked, settled};

    pub(crate) fn zeros(
        alloc: Global,
        sectors: u64,
        bytes: u32,
        clock: u64,
    ) -> Result<Leaf, NoMemory>
        ensures { IfOk result (λ leaf. IsBlank sectors bytes clock (Some leaf)) }
    {
        let mut rows = Vec::new(alloc);
        for _ in 0..sectors {
            rows.push(Sector::zeros(alloc, bytes, clock)?)?;
        }
        Ok(Leaf {
            sectors: rows,
            soft: Vec::with_capacity(alloc, LISTED)?,
            unlisted: false,
            faults: 0,
        })
    }

    pub(crate) fn count_fault(&mut self)
        ensures sectors { self.new.sectors ≡ self.old.sectors }
        ensures rose { self.new.faults ≡ min (self.old.faults + 1) (2 ^ 64 - 1) }
        ensures later { self.old.faults ≤ self.new.faults }
    {
        if self.faults < u64::MAX {
            self.faults += 1;
        }
    }

    /// Lists a sector, which is written now.
    fn list(&mut self, sector: u64)
        requires { sector < length self.old.sectors.items }
        ensures sectors { self.new.sectors ≡ self.old.sectors }
        ensures faults { self.new.faults ≡ self.old.faults }
        ensures listed { self.new.unlisted ≡ false → list_any (λ k. k == sector) self.new.soft.items ≡ true }
    {
        if self.sectors[sector as usize].soft || self.unlisted {
            return;
        }
        if self.soft.len() >= LISTED || self.soft.push(sector).is_err() {
            self.unlisted = true;
        }
    }

    /// Notes that a write of a sector failed, which left its bytes.
    pub(crate) fn mark(&mut self, sector: u64, harmed: bool, clock: u64)
        requires { sector < length self.old.sectors.items }
        ensures { ChangesSectors (λ s. s == sector) (marked harmed clock) self.old self.new }
    {
        self.list(sector);
        let place = &mut self.sectors[sector as usize];
        place.mark(harmed, clock);
    }

    pub(crate) fn land(&mut self, sector: u64, bytes: &[u8], harmed: bool, clock: u64)
        requires { IsSomeAnd (view_in (Some self.old) sector) (λ x. length x.bytes ≡ length bytes.now) }
        ensures { ChangesSectors (λ s. s == sector) (landed bytes.now harmed clock) self.old self.new }
    {
        self.list(sector);
        let place = &mut self.sectors[sector as usize];
        place.land(bytes, harmed, clock);
    }

    pub(crate) fn settle(&mut self, sector: u64)
        requires { sector < length self.old.sectors.items }
        ensures { ChangesSectors (λ s. s == sector) settled self.old self.new }
    {
        let place = &mut self.sectors[sector as usize];
        place.settle();
    }

    pub(crate) fn damage(&mut self, sector: u64, clock: u64)
        requires { sector < length self.old.sectors.items }
        ensures { ChangesSectors (λ s. s == sector) (damaged clock) self.old self.new }
    {
        let place = &mut self.sectors[sector as usize];
        place.damage(clock);
    }

    pub(crate) fn flush(&mut self)
        ensures { ChangesSectors (λ _. true) flushed self.old self.new }
    {
        if self.unlisted {
            flush_all(&mut self.sectors);
        } else {
            flush_these(&mut self.sectors, &self.soft);
        }
        self.soft.clear();
        self.unlisted = false;
    }

    pub(crate) fn crash(&mut self, rule: CrashRule)
        ensures { ChangesSectors (λ _. true) (crashed rule) self.old self.new }
    {
        for i in 0..self.sectors.len() {
            self.sectors[i].crash(rule);
        }
        self.soft.clear();
        self.unlisted = false;
    }
}

/// Flushes each sector.
fn flush_all(sectors: &mut Vec<Sector>)
    ensures { FlushesThose (λ _. true) sectors.old.items sectors.new.items }
{
    for i in 0..sectors.len() {
        sectors[i].flush();
    }
}

/// Flushes those of a list, which has each soft one.
fn flush_these(sectors: &mut Vec<Sector>, listed: &[u64])
    requires { ListsSoft false listed.now sectors.old.items }
    ensures { FlushesThose (λ _. true) sectors.old.items sectors.new.items }
{
    for sector in listed {
        flush_one(sectors, *sector);
    }
}

/// Flushes one, if it is there.
fn flush_one(sectors: &mut Vec<Sector>, sector: u64)
    ensures { FlushesThose (λ s. sector == s) sectors.old.items sectors.new.items }
{
    if let Some(place) = sectors.get_mut(sector as usize) {
        place.flush();
    }
}
