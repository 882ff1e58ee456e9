//! What `status` replies.
ghost use Rattle.std.specs.Prelude.{◌≡◌, IfOk};
ghost use Rattle.draid_script.specs.Line.{ShowStatus};
ghost use Rattle.draid_session.specs.Replies.{IsReplyTo};
ghost use Rattle.draid_session.specs.State.{State};
ghost use Rattle.draid_pool.specs.Carries.{CarriesOut};
ghost use Rattle.draid_pool.specs.Knows.{Teaches};
ghost use Rattle.draid_pool.specs.Pools.{Represents};
ghost use Rattle.draid_pool.specs.Whole.{IsWhole};
ghost use Rattle.draid_status.specs.Says.{ShowsPool, StatusSays};

use crate::viewing::view;
use draid_area::Area;
use draid_names::NoMemory;
use draid_pool::Pool;
use draid_rack::Rack;
use draid_reply::Reply;
use draid_report::{status_json, status_text};
use draid_script::{CommandName, StatusFormat};
use std::alloc::Global;

/// Tells what a pool is, in this format.
pub fn reply_to_status<R: Rack, A: Area>(
    alloc: Global,
    pool: &Pool<R, A>,
    format: StatusFormat,
) -> Reply
    requires whole { IsWhole R.Rack A.Area pool.now }
    ensures fits { IsReplyTo (ShowStatus format) result }
    ensures knows { Teaches (ShowStatus format) result pool.now pool.now }
    ensures step { (x : State) → Represents R.Rack A.Area pool.now x
        → CarriesOut R.Rack A.Area pool.now x (StatusSays format result x) }
{
    match status_bytes(alloc, pool, format) {
        Ok(text) => Reply::Status { text },
        Err(_) => Reply::NoMemory {
            command: CommandName::Status,
        },
    }
}

/// What a pool is, in this format.
fn status_bytes<R: Rack, A: Area>(
    alloc: Global,
    pool: &Pool<R, A>,
    format: StatusFormat,
) -> Result<Vec<u8>, NoMemory>
    requires whole { IsWhole R.Rack A.Area pool.now }
    ensures shows { (x : State) → Represents R.Rack A.Area pool.now x → IfOk result (λ text. ShowsPool x format text.items) }
{
    let view = match view(pool) {
        Ok(view) => view,
        Err(fault) => return Err(fault),
    };
    match format {
        StatusFormat::Text => status_text(alloc, &view),
        StatusFormat::Json => status_json(alloc, &view),
    }
}
