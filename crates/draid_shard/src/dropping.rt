ghost use Rattle.std.specs.Prelude.{◌≡◌, ◌+◌, ◌≤◌, None};
ghost use Rattle.draid_entries.specs.History.{events_of, limit_in, owed_of, reserved_of};
ghost use Rattle.draid_shard.specs.Loans.{owed_for_loan};

use crate::loan::KeptLoan;
use draid_entries::History;

/// No loan counts any more, and no landing is owed.
pub fn drop_loan(kept: &mut Option<KeptLoan>, history: &mut History)
    requires owed { owed_for_loan kept.old + reserved_of history.old ≤ owed_of history.old }
    ensures none { kept.new ≡ None }
    ensures stored { events_of history.new ≡ events_of history.old }
    ensures owed { owed_of history.new + owed_for_loan kept.old ≡ owed_of history.old }
    ensures reserved { reserved_of history.new ≡ reserved_of history.old }
    ensures limit { limit_in history.new ≡ limit_in history.old }
{
    if kept.take().is_some() {
        history.forget(1);
    }
}
