ghost use Rattle.std.specs.Prelude.{◌≡◌, ◌<◌, [], None, length};
ghost use Rattle.ck_history.specs.History.{entries_of};
ghost use Rattle.ck_volume.specs.Causes.{is_sync, is_done, acknowledges};
ghost use Rattle.ck_volume.specs.Event.{newest};

use ck_history::History;
use ck_model::{Call, Reply};
use std::alloc::Global;

/// The calls that a volume answered, and what broke it.
#[derive(Drop)]
pub(crate) struct Log {
    pub history: History,
    /// After how many calls a write failed: it is the number of the answer that told so, counted
    /// from 0, where no commit failed.
    pub broken: Option<u32>,
}

fn is_sync(call: &Call) -> bool
    ensures { result ≡ is_sync call.now }
{
    matches!(call, Call::Sync)
}

fn is_done(reply: &Reply) -> bool
    ensures { result ≡ is_done reply.now }
{
    matches!(reply, Reply::Done)
}

impl Log {
    pub fn new(alloc: Global) -> Log
        ensures history { entries_of result.history ≡ [] }
        ensures unbroken { result.broken ≡ None }
    {
        Log {
            history: History::new(alloc),
            broken: None,
        }
    }

    /// Whether the call that was answered last was done.
    pub fn is_done(&self) -> bool
        requires { 0 < length (entries_of self.now.history) }
        ensures { result ≡ is_done (newest (entries_of self.now.history)).reply }
    {
        is_done(&self.history.entry(self.history.length() - 1).reply)
    }

    /// Whether this call, which was answered last, is a sync that was done.
    pub fn acknowledged(&self, call: &Call) -> bool
        requires { 0 < length (entries_of self.now.history) }
        ensures { result ≡ acknowledges call.now (newest (entries_of self.now.history)).reply }
    {
        is_sync(call) && self.is_done()
    }
}
