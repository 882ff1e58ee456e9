ghost use Rattle.draid_machine.specs.After.{cancel_state, ready_state};
ghost use Rattle.draid_machine.specs.State.{Pass, State};
ghost use Rattle.draid_slots.specs.States.{HasSlots};
ghost use Rattle.draid_slots.specs.Table.{SlotTable};

/// Law: a rebuild that is let run, and a pass that is cancelled, leave the slots as they are.
pub fn slots_stay()
    ensures ready { (slots : SlotTable) (w : State) (p : Pass) → HasSlots slots w.core → HasSlots slots (ready_state w p).core }
    ensures cancel { (slots : SlotTable) (w : State) → HasSlots slots w.core → HasSlots slots (cancel_state w).core }
{}
