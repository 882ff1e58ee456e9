ghost use Rattle.std.specs.Prelude.{◌≡◌};
ghost use Rattle.std.specs.List.{list_any};
ghost use Rattle.draid_session.specs.Groups as groups;
ghost use Rattle.draid_shard.specs.States.{stored_in};

use draid_area::Area;
use draid_machine::Event;
use draid_rack::Rack;
use draid_shard::Shard;

/// Whether one of the shards stores something that no sync has made safe.
pub(crate) fn any_unsynced<R: Rack, A: Area>(shards: &[Shard<R, A>]) -> bool
    ensures { result ≡ list_any (λ shard. groups.is_unsynced shard.committed (stored_in shard)) shards.now }
{
    shards
        .iter()
        .any(|shard| is_unsynced(shard.committed(), shard.events()))
}

/// Whether some events of a metaslab have something that no sync has made safe, where this group is committed: behind
/// the group's closing an event other than its sealing and its commit, or any event where there is no commit.
fn is_unsynced(committed: u64, events: &[Event]) -> bool
    ensures { result ≡ groups.is_unsynced committed events.now }
{
    let mut closed = false;
    let mut others = false;
    let mut commits = false;
    for event in events {
        let ends = ends_group(committed, event);
        let closes = is_close_of(committed, event);
        let commit = is_commit(event);
        others = others || (closed && !ends);
        closed = closed || closes;
        commits = commits || commit;
    }
    if commits { others } else { !events.is_empty() }
}

/// Whether an event is the commit of a group.
fn is_commit(event: &Event) -> bool
    ensures { result ≡ groups.is_commit event.now }
{
    matches!(event, Event::Commit { .. })
}

/// Whether an event is the closing of this group.
fn is_close_of(committed: u64, event: &Event) -> bool
    ensures { result ≡ groups.is_close_of committed event.now }
{
    matches!(event, Event::Close { group } if *group == committed)
}

/// Whether an event is the sealing or the commit of this group.
fn ends_group(committed: u64, event: &Event) -> bool
    ensures { result ≡ groups.ends_group committed event.now }
{
    matches!(event, Event::Seal { group, .. } | Event::Commit { group } if *group == committed)
}
