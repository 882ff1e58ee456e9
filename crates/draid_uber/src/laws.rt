ghost use Rattle.std.specs.Prelude.{◌≡◌, ◌≤◌, [], List, Option, length, option_map};
ghost use Rattle.draid_area.specs.Area.{Content};
ghost use Rattle.draid_area.specs.Moments.{CrashesTold};
ghost use Rattle.draid_record.specs.declared.uber.UberBody.{UberBody};
ghost use Rattle.draid_uber.specs.Slots.{Chooses, Stands, StandsTold, chosen_of, read_body};

/// Law: what stands in an area stands there after a crash. An import takes the committed body, or one that is pending.
pub fn crashes_leave_what_stands()
    ensures crash { (kept : Option UberBody) (pending : List UberBody) (old new : Option Content)
        → StandsTold kept pending old → CrashesTold old new → StandsTold kept pending new }
    ensures import { (kept : Option UberBody) (pending : List UberBody) (x : Content) → Stands kept pending x
        → x.firm ≤ length x.bytes → Chooses kept pending (chosen_of x.bytes) }
    ensures alone { (kept : Option UberBody) (x : Content) → Stands kept [] x → x.firm ≤ length x.bytes
        → chosen_of x.bytes ≡ option_map read_body kept }
{}
