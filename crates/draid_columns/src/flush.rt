ghost use Rattle.std.specs.Prelude.{◌≡◌, ◌≤◌, [], All, IsSome, length, vec_capacity};
ghost use Rattle.draid_rack.specs.Rack.{OnBothTold};
ghost use Rattle.draid_columns.specs.Flushes.{CountsFailed, FlushesBut};

use draid_rack::Rack;

/// Flushes leaves one after another, goes on where one fails, and lists those that failed.
pub fn flush_leaves<R: Rack>(rack: &mut R, leaves: &[u64], failed: &mut Vec<u64>)
    requires there { All (λ leaf. IsSome ((R.shape rack.old).leaves leaf)) leaves.now }
    requires none { failed.old.items ≡ [] }
    requires room { length leaves.now ≤ vec_capacity failed.old }
    ensures told { OnBothTold (R.told rack.old) (R.told rack.new) (FlushesBut leaves.now failed.new.items) }
    ensures cause { CountsFailed leaves.now failed.new.items (R.faults rack.old) (R.faults rack.new) }
    ensures shape { R.shape rack.new ≡ R.shape rack.old }
{
    for leaf in leaves {
        if rack.flush(*leaf).is_err() {
            failed.push_reserved(*leaf);
        }
    }
}
