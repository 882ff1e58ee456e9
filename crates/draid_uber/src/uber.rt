ghost use Rattle.std.specs.Prelude.{◌≡◌, ◌≤◌, ◌<◌, ◌+◌, ◌↔◌, IsTrue, ◌∷◌, [], ℕ, All, length, List, None, Ok, Err, Some, IfErr, IfOk, IsErrOf, IsOk, IsSome, IsSomeAnd, OnErr, OnOk, option_map};
ghost use Rattle.draid_record.specs.Uber.{IsUber};
ghost use Rattle.draid_area.specs.Area.{Counts, OnTold, flushes};
ghost use Rattle.draid_area.specs.Moments.{ElapsesTold};
ghost use Rattle.draid_record.specs.declared.uber.UberBody.{UberBody};
ghost use Rattle.draid_names.specs.Faults.{Rose};
ghost use Rattle.draid_names.specs.declared.numbers.TheConstants.{LAST_NUMBER};
ghost use Rattle.draid_spec.specs.Geometry.{IsGeometry};
ghost use Rattle.draid_uber.specs.Uber.{IsWhy};

use crate::areas::Areas;
use crate::checks::{CheckFault, check_at, kept_check, put_check, read_of};
use crate::slots::{chosen, layout};
use crate::steps::{clear, write};
use draid_area::Area;
use draid_checkpoint::Check;
use draid_names::{DeviceFault, NoMemory};
use draid_record::{CheckBody, RecordFault, RecordFaultKind, UberBody};
use draid_spec::Geometry;
use std::alloc::Global;

/// Why an uberblock area gave no uberblock.
#[derive(Clone, Copy, PartialEq, Eq)]
pub enum UberFault {
    /// The area failed, and its count rose.
    Area,
    NoMemory,
    /// No gate is open.
    Empty,
    /// The first field of the chosen slot that has a fault begins at byte `at` of the slot.
    Record { at: u64, kind: RecordFaultKind },
}

/// A refusal, with the areas.
#[derive(Drop)]
pub struct UberRefused<A: Area> {
    pub areas: Areas<A>,
    pub why: UberFault,
}

/// The areas of a pool that aren't a metaslab's, with the committed group and what the next commit writes.
#[derive(Drop)]
pub struct Uber<A: Area> {
    areas: Areas<A>,
    /// What the last commit wrote; nothing before the first.
    kept: Option<UberBody>,
    /// The layout, with the committed version.
    geometry: Geometry,
    /// The version that the next commit writes.
    version: u32,
    /// The number of the next new leaf.
    next_leaf: u64,
    /// The checkpoint, of which each commit writes a record.
    point: Check,
    /// The last group in which something befell the checkpoint, 0 where nothing is known to have.
    changed: u64,
    alloc: Global,
}

/// The uberblock that an area told, or why it told none.
fn found(
    chosen: Result<Option<Result<UberBody, RecordFault>>, DeviceFault>,
) -> Result<UberBody, UberFault>
    ensures body { IfOk result (λ body. chosen ≡ Ok (Some (Ok body))) }
    ensures why { IfErr result (λ why. IsWhy why chosen) }
{
    match chosen {
        Ok(Some(Ok(body))) => Ok(body),
        Ok(Some(Err(RecordFault::Bad { at, kind }))) => Err(UberFault::Record { at, kind }),
        Ok(Some(Err(RecordFault::NoMemory))) => Err(UberFault::NoMemory),
        Ok(None) => Err(UberFault::Empty),
        Err(DeviceFault::Failed) => Err(UberFault::Area),
        Err(DeviceFault::NoMemory) => Err(UberFault::NoMemory),
    }
}

impl<A: Area> Uber<A> {
    ghost use Rattle.draid_uber.specs.Held.{IsNext};
    ghost use Rattle.draid_uber.specs.Steps.{IsSameOrFlushed};
    ghost use Rattle.draid_uber.specs.Points.{IsOther, KeepsCheck, no_check};
    ghost use Rattle.draid_checkpoint.specs.Check.{Drops, holds_birth};
    ghost use Rattle.draid_uber.specs.Slots.{StandsTold, chosen_of, group_of};
    ghost use Rattle.draid_record.specs.Checks.{CheckTold, IsCheck, told_check};
    ghost use Rattle.draid_record.specs.declared.fault.RecordFaultKind.{RecordFaultKind};
    ghost use Rattle.draid_record.specs.declared.fault.RecordFault.TheVariants.{Bad};
    ghost use Rattle.draid_uber.specs.Checks.{AreasStand, LeavesAny, check_area, check_in, told_by};
    ghost use Rattle.draid_uber.specs.Uber.{layout_in, next_check, next_of, Finds, IsNewArea, Valid, area_of, areas_of, count_of, kept_of, layout_of, next_leaf_of, point_of, changed_of, version_of};

    /// The uberblock of a new pool, of which nothing is committed yet. A crash leaves no open gate.
    #[tactic(auto, using(crate::proofs::Choices::new_area))]
    pub fn create(
        alloc: Global,
        geometry: Geometry,
        areas: Areas<A>,
    ) -> Result<Uber<A>, UberRefused<A>>
        requires layout { IsGeometry geometry }
        requires size { A.size areas.uber ≡ 1024 }
        requires new { OnTold (A.told areas.uber) IsNewArea }
        ensures always { IsOk result }
        ensures valid { IfOk result (Valid A.size) }
        ensures areas { IfOk result (λ uber. areas_of uber ≡ areas) }
        ensures crash { IfOk result (λ uber. StandsTold None [] (A.told (area_of uber))) }
        ensures none { IfOk result (λ uber. kept_of uber ≡ None) }
        ensures layout { IfOk result (λ uber. layout_of uber ≡ geometry) }
        ensures version { IfOk result (λ uber. version_of uber ≡ geometry.props.version) }
        ensures leaf { IfOk result (λ uber. next_leaf_of uber ≡ geometry.spec.children) }
        ensures point { IfOk result (λ uber. (point_of uber).group ≡ None) }
        ensures drops { IfOk result (λ uber. (point_of uber).drops ≡ []) }
        ensures changed { IfOk result (λ uber. changed_of uber ≡ 0) }
    {
        Ok(Uber {
            areas,
            kept: None,
            geometry,
            version: geometry.props.version,
            next_leaf: u64::from(geometry.spec.children),
            point: Check::none(alloc),
            changed: 0,
            alloc,
        })
    }

    /// The uberblock that an import takes from its area. The area is flushed before it is read, so that no gate which is read
    /// may come out of a crash in another form.
    pub fn recover(alloc: Global, areas: Areas<A>) -> Result<Uber<A>, UberRefused<A>>
        ensures valid { IfOk result (Valid A.size) }

        // It is what the bytes say, or their first fault, unless the area fails or memory runs out.
        ensures finds { OnTold (A.told areas.uber) (λ x. Finds result (chosen_of x.bytes)) }
        ensures some { IfOk result (λ uber. IsSomeAnd (kept_of uber) (λ body.
            (version_of uber ≡ body.props.version) × (next_leaf_of uber ≡ body.next_leaf))) }
        ensures ranges { IfOk result (λ uber. IsSomeAnd (kept_of uber) IsUber) }
        ensures point { IfOk result (λ uber. (point_of uber).group ≡ None) }
        ensures drops { IfOk result (λ uber. (point_of uber).drops ≡ []) }
        ensures changed { IfOk result (λ uber. changed_of uber ≡ 0) }

        // From then on a crash leaves it alone.
        ensures crash { IfOk result (λ uber. StandsTold (kept_of uber) [] (A.told (area_of uber))) }
        ensures flushed { IfOk result (λ uber. A.told (area_of uber) ≡ option_map flushes (A.told areas.uber)) }
        ensures err { IfErr result (λ refused. IsSameOrFlushed (A.told areas.uber) (A.told refused.areas.uber)) }
        ensures empty { IfErr result (λ refused. refused.why ≡ UberFault.Empty → A.told refused.areas.uber ≡ option_map flushes (A.told areas.uber)) }
        ensures later { IfOk result (λ uber. A.faults areas.uber ≤ A.faults (area_of uber)) }
        ensures err_later { IfErr result (λ refused. A.faults areas.uber ≤ A.faults refused.areas.uber) }
        ensures cause { IfErr result (λ refused. refused.why ≡ UberFault.Area → Rose (A.faults areas.uber) (A.faults refused.areas.uber)) }

        // The areas of the check records aren't touched.
        ensures others { IfOk result (λ uber. areas_of uber ≡ record areas { uber = area_of uber }) }
        ensures err_others { IfErr result (λ refused. refused.areas ≡ record areas { uber = refused.areas.uber }) }
    {
        let mut areas = areas;
        match found(chosen(&mut areas.uber)) {
            Ok(body) => Ok(Uber {
                areas,
                kept: Some(body),
                geometry: layout(&body),
                version: body.props.version,
                next_leaf: body.next_leaf,
                point: Check::none(alloc),
                changed: 0,
                alloc,
            }),
            Err(why) => Err(UberRefused { areas, why }),
        }
    }

    /// The layout, with the committed version.
    pub fn geometry(&self) -> &Geometry
        ensures { result.now ≡ layout_of self.now }
    {
        &self.geometry
    }

    /// The group that was committed last, 0 before the first.
    pub fn committed(&self) -> u64
        ensures { result ≡ group_of (kept_of self.now) }
    {
        match self.kept {
            Some(body) => body.group,
            None => 0,
        }
    }

    /// The number of the next new leaf.
    pub fn next_leaf(&self) -> u64
        ensures { result ≡ next_leaf_of self.now }
    {
        self.next_leaf
    }

    /// Sets the number of the next new leaf, which the next commit writes.
    pub fn set_next_leaf(&mut self, next: u64)
        requires above { next_leaf_of self.old ≤ next }
        requires below { next ≤ LAST_NUMBER }
        requires valid { Valid A.size self.old }
        ensures valid { Valid A.size self.new }
        ensures leaf { next_leaf_of self.new ≡ next }
        ensures areas { areas_of self.new ≡ areas_of self.old }
        ensures kept { kept_of self.new ≡ kept_of self.old }
        ensures layout { layout_of self.new ≡ layout_of self.old }
        ensures version { version_of self.new ≡ version_of self.old }
        ensures point { point_of self.new ≡ point_of self.old }
        ensures changed { changed_of self.new ≡ changed_of self.old }
    {
        self.next_leaf = next;
    }

    /// What the next commit writes.
    fn next(&self, group: u64) -> UberBody
        requires next { IsNext (kept_of self.now) group }
        requires valid { Valid A.size self.now }
        ensures body { result ≡ next_of self.now group }
        ensures ranges { IsUber result }
    {
        let mut props = self.geometry.props;
        props.version = self.version;
        UberBody {
            group,
            spec: self.geometry.spec,
            props,
            next_leaf: self.next_leaf,
        }
    }

    /// Commits a group, the one behind the committed one, and writes no check record. After a refusal the committed group is
    /// as before, and the call may be made again.
    pub fn commit(&mut self, group: u64) -> Result<(), DeviceFault>
        requires next { IsNext (kept_of self.old) group }
        requires valid { Valid A.size self.old }
        ensures valid { Valid A.size self.new }

        // A crash leaves the committed group, or the new one. That of a refused commit may stay there until the next.
        ensures refused { (pending : List UberBody) → StandsTold (kept_of self.old) pending (A.told (area_of self.old))
            → OnErr result (StandsTold (kept_of self.old) (next_of self.old group ∷ pending) (A.told (area_of self.new))) }
        ensures committed { (pending : List UberBody) → StandsTold (kept_of self.old) pending (A.told (area_of self.old))
            → OnOk result (StandsTold (Some (next_of self.old group)) [] (A.told (area_of self.new))) }

        ensures moments { ElapsesTold (A.told (area_of self.old)) (A.told (area_of self.new)) }
        ensures kept { OnOk result (kept_of self.new ≡ Some (next_of self.old group)) }
        ensures same { OnErr result (kept_of self.new ≡ kept_of self.old) }
        ensures layout { OnOk result (layout_of self.new ≡ layout_in (layout_of self.old) (version_of self.old)) }
        ensures same_layout { OnErr result (layout_of self.new ≡ layout_of self.old) }
        ensures version { version_of self.new ≡ version_of self.old }
        ensures leaf { next_leaf_of self.new ≡ next_leaf_of self.old }
        ensures point { point_of self.new ≡ point_of self.old }
        ensures changed { changed_of self.new ≡ changed_of self.old }
        ensures others { areas_of self.new ≡ record (areas_of self.old) { uber = area_of self.new } }
        ensures cause { Counts result (A.faults (area_of self.old)) (A.faults (area_of self.new)) }
    {
        let body = self.next(group);
        write(&mut self.areas.uber, &body)?;
        self.kept = Some(body);
        self.geometry.props.version = self.version;
        Ok(())
    }

    /// Does what a commit of this group does before it writes the body: on Ok no body of a refused commit is left.
    pub fn shut(&mut self, group: u64) -> Result<(), DeviceFault>
        requires next { IsNext (kept_of self.old) group }
        requires valid { Valid A.size self.old }
        ensures valid { Valid A.size self.new }
        ensures refused { (pending : List UberBody) → StandsTold (kept_of self.old) pending (A.told (area_of self.old))
            → OnErr result (StandsTold (kept_of self.old) pending (A.told (area_of self.new))) }
        ensures shut { (pending : List UberBody) → StandsTold (kept_of self.old) pending (A.told (area_of self.old))
            → OnOk result (StandsTold (kept_of self.old) [] (A.told (area_of self.new))) }
        ensures moments { ElapsesTold (A.told (area_of self.old)) (A.told (area_of self.new)) }
        ensures kept { kept_of self.new ≡ kept_of self.old }
        ensures layout { layout_of self.new ≡ layout_of self.old }
        ensures version { version_of self.new ≡ version_of self.old }
        ensures leaf { next_leaf_of self.new ≡ next_leaf_of self.old }
        ensures point { point_of self.new ≡ point_of self.old }
        ensures changed { changed_of self.new ≡ changed_of self.old }
        ensures others { areas_of self.new ≡ record (areas_of self.old) { uber = area_of self.new } }
        ensures cause { Counts result (A.faults (area_of self.old)) (A.faults (area_of self.new)) }
    {
        clear(&mut self.areas.uber, group)
    }

    /// What the check record of a group says, as the next commit writes it.
    fn next_check(&self, group: u64) -> Result<CheckBody, NoMemory>
        requires next { IsNext (kept_of self.now) group }
        requires valid { Valid A.size self.now }
        ensures body { IfOk result (λ body. told_check body ≡ next_check self.now group) }
        ensures ranges { IfOk result (λ body. IsCheck group (told_check body)) }
    {
        check_at(self.alloc, &self.point, group)
    }

    /// Commits a group, the one behind the committed one, with its check record. That is written while no gate of the group
    /// is open. After a refusal the committed group is as before, and the call may be made again.
    pub fn commit_with_check(&mut self, group: u64) -> Result<(), DeviceFault>
        requires next { IsNext (kept_of self.old) group }
        requires valid { Valid A.size self.old }
        ensures valid { Valid A.size self.new }

        // Whatever a crash leaves, an import finds the committed group or the new one, and the check record of what it finds.
        ensures refused { (check : ℕ → CheckTold) (pending : List UberBody) → check group ≡ next_check self.old group
            → AreasStand check (kept_of self.old) pending (told_by A.told (areas_of self.old))
            → OnErr result (LeavesAny check (kept_of self.old) (next_of self.old group ∷ pending) (told_by A.told (areas_of self.new))) }
        ensures committed { (check : ℕ → CheckTold) (pending : List UberBody) → check group ≡ next_check self.old group
            → AreasStand check (kept_of self.old) pending (told_by A.told (areas_of self.old))
            → OnOk result (AreasStand check (Some (next_of self.old group)) [] (told_by A.told (areas_of self.new))) }

        ensures kept { OnOk result (kept_of self.new ≡ Some (next_of self.old group)) }
        ensures same { OnErr result (kept_of self.new ≡ kept_of self.old) }
        ensures layout { OnOk result (layout_of self.new ≡ layout_in (layout_of self.old) (version_of self.old)) }
        ensures same_layout { OnErr result (layout_of self.new ≡ layout_of self.old) }
        ensures version { version_of self.new ≡ version_of self.old }
        ensures leaf { next_leaf_of self.new ≡ next_leaf_of self.old }
        ensures point { point_of self.new ≡ point_of self.old }
        ensures changed { changed_of self.new ≡ changed_of self.old }
        ensures cause { Counts result (count_of A.faults self.old) (count_of A.faults self.new) }
    {
        let body = self.next_check(group)?;
        self.shut(group)?;
        put_check(self.alloc, &mut self.areas, &body, group)?;
        self.commit(group)
    }

    /// What the check record of the committed group tells. One to whose area nothing was written says that there is no
    /// checkpoint.
    pub fn check(&mut self) -> Result<CheckBody, CheckFault>
        requires valid { Valid A.size self.old }
        ensures valid { Valid A.size self.new }
        ensures found { IfOk result (λ it. OnTold (A.told (check_area (areas_of self.old) (group_of (kept_of self.old))))
            (λ x. check_in (group_of (kept_of self.old)) x.bytes ≡ Ok (told_check it))) }
        ensures range { IfOk result (λ it. IsCheck (group_of (kept_of self.old)) (told_check it)) }
        ensures faulty { (place : ℕ) (kind : RecordFaultKind) → IsErrOf result (CheckFault.Record place kind)
            → OnTold (A.told (check_area (areas_of self.old) (group_of (kept_of self.old))))
            (λ x. check_in (group_of (kept_of self.old)) x.bytes ≡ Err (Bad place kind)) }
        ensures told { told_by A.told (areas_of self.new) ≡ told_by A.told (areas_of self.old) }
        ensures uber { area_of self.new ≡ area_of self.old }
        ensures kept { kept_of self.new ≡ kept_of self.old }
        ensures layout { layout_of self.new ≡ layout_of self.old }
        ensures version { version_of self.new ≡ version_of self.old }
        ensures leaf { next_leaf_of self.new ≡ next_leaf_of self.old }
        ensures point { point_of self.new ≡ point_of self.old }
        ensures changed { changed_of self.new ≡ changed_of self.old }
        ensures later { count_of A.faults self.old ≤ count_of A.faults self.new }
        ensures cause { IsErrOf result CheckFault.Area → Rose (count_of A.faults self.old) (count_of A.faults self.new) }
    {
        let group = self.committed();
        if group % 2 == 0 {
            read_of(self.alloc, &mut self.areas.even, group)
        } else {
            read_of(self.alloc, &mut self.areas.odd, group)
        }
    }

    /// The checkpoint.
    pub fn point(&self) -> &Check
        ensures { result.now ≡ point_of self.now }
    {
        &self.point
    }

    /// Whether something befell the checkpoint since the committed group.
    pub fn has_news(&self) -> bool
        ensures { IsTrue result ↔ (group_of (kept_of self.now) < changed_of self.now) }
    {
        self.committed() < self.changed
    }

    /// Whether a block that was born in this group is the checkpoint's.
    pub fn holds(&self, birth: u64) -> bool
        ensures { result ≡ holds_birth (point_of self.now).group birth }
    {
        self.point.holds(birth)
    }

    /// From this group on the checkpoint alone keeps a block. It takes no memory.
    pub fn drop_block(&mut self, object: u64, seq: u64, group: u64)
        requires room { 0 < (point_of self.old).spare }
        requires few { length (point_of self.old).drops < 524_288 }
        requires other { All (λ d. IsOther object seq d) (point_of self.old).drops }
        requires valid { Valid A.size self.old }
        ensures valid { Valid A.size self.new }
        ensures drops { Drops (point_of self.old) (point_of self.new) object seq group }
        ensures changed { changed_of self.new ≡ group }
        ensures areas { areas_of self.new ≡ areas_of self.old }
        ensures kept { kept_of self.new ≡ kept_of self.old }
        ensures layout { layout_of self.new ≡ layout_of self.old }
        ensures version { version_of self.new ≡ version_of self.old }
        ensures leaf { next_leaf_of self.new ≡ next_leaf_of self.old }
    {
        self.point.drop_block(object, seq, group);
        self.changed = group;
    }

    /// Keeps the checkpoint that the check record of the committed group tells, with room for so many further blocks that it
    /// alone keeps.
    pub fn keep_check(&mut self, check: &CheckBody, blocks: u64) -> Result<(), NoMemory>
        requires range { IsCheck (group_of (kept_of self.old)) (told_check check.now) }
        requires few { length check.now.drops.items + blocks ≤ 524_288 }
        requires valid { Valid A.size self.old }
        ensures valid { Valid A.size self.new }
        ensures keeps { OnOk result (KeepsCheck (group_of (kept_of self.old)) (told_check check.now) (point_of self.new)) }
        ensures room { OnOk result (blocks ≤ (point_of self.new).spare) }
        ensures changed { changed_of self.new ≡ changed_of self.old }
        ensures areas { areas_of self.new ≡ areas_of self.old }
        ensures kept { kept_of self.new ≡ kept_of self.old }
        ensures layout { layout_of self.new ≡ layout_of self.old }
        ensures version { version_of self.new ≡ version_of self.old }
        ensures leaf { next_leaf_of self.new ≡ next_leaf_of self.old }
    {
        let group = self.committed();
        self.point = kept_check(self.alloc, check, group, blocks)?;
        Ok(())
    }

    /// From now on there is a checkpoint of the group that is committed next, of which nothing is dropped yet.
    pub fn make_point(&mut self, point: Check, group: u64)
        requires next { IsNext (kept_of self.old) group }
        requires made { point.group ≡ Some group }
        requires new { point.drops ≡ [] }
        requires valid { Valid A.size self.old }
        ensures valid { Valid A.size self.new }
        ensures point { point_of self.new ≡ point }
        ensures told { (g : ℕ) → group ≤ g → next_check self.new g ≡ record { group = group; drops = [] } }
        ensures changed { changed_of self.new ≡ group }
        ensures areas { areas_of self.new ≡ areas_of self.old }
        ensures kept { kept_of self.new ≡ kept_of self.old }
        ensures layout { layout_of self.new ≡ layout_of self.old }
        ensures version { version_of self.new ≡ version_of self.old }
        ensures leaf { next_leaf_of self.new ≡ next_leaf_of self.old }
    {
        self.point = point;
        self.changed = group;
    }

    /// From this group on there is no checkpoint. It takes no memory.
    pub fn give_up_point(&mut self, group: u64)
        requires valid { Valid A.size self.old }
        ensures valid { Valid A.size self.new }
        ensures point { (point_of self.new).group ≡ None }
        ensures drops { (point_of self.new).drops ≡ [] }
        ensures told { (g : ℕ) → next_check self.new g ≡ no_check }
        ensures changed { changed_of self.new ≡ group }
        ensures areas { areas_of self.new ≡ areas_of self.old }
        ensures kept { kept_of self.new ≡ kept_of self.old }
        ensures layout { layout_of self.new ≡ layout_of self.old }
        ensures version { version_of self.new ≡ version_of self.old }
        ensures leaf { next_leaf_of self.new ≡ next_leaf_of self.old }
    {
        self.point = Check::none(self.alloc);
        self.changed = group;
    }

    /// Has the next commit write version 2.
    pub fn upgrade(&mut self)
        requires valid { Valid A.size self.old }
        ensures valid { Valid A.size self.new }
        ensures version { version_of self.new ≡ 2 }
        ensures areas { areas_of self.new ≡ areas_of self.old }
        ensures kept { kept_of self.new ≡ kept_of self.old }
        ensures layout { layout_of self.new ≡ layout_of self.old }
        ensures leaf { next_leaf_of self.new ≡ next_leaf_of self.old }
        ensures point { point_of self.new ≡ point_of self.old }
        ensures changed { changed_of self.new ≡ changed_of self.old }
    {
        self.version = 2;
    }

    /// The areas.
    pub fn into_areas(self) -> Areas<A>
        ensures { result ≡ areas_of self }
    {
        self.areas
    }
}
