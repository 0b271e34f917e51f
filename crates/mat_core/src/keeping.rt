// Requests that may call the state store.
ghost use Rattle.std.specs.Prelude.{◌≡◌, ◌+◌, ◌<◌, ◌^◌, true, length};
ghost use Rattle.mat_model.specs.History.{Point};
ghost use Rattle.model_laws.specs.PointRules.{IsPoint};
ghost use Rattle.model_laws.specs.RoomRules.{IsRoomy};
ghost use Rattle.core_devices.specs.Told.{told_store};
ghost use Rattle.mat_core.specs.Asks.{request_asks};
ghost use Rattle.mat_core.specs.Books.{StandFor};
ghost use Rattle.mat_core.specs.Keeping.{AsksSo, asks_store};
ghost use Rattle.mat_core.specs.Replacing.{AreRuled};
ghost use Rattle.mat_core.specs.Rooms.{HasReserves, spent_in};

use crate::parts::Parts;
use hall_lock::By;
use keep_port::Keeper;
use mat_model::{Reply, Request};

/// Whether a request may call the state store.
pub(crate) fn asks_store(request: &Request) -> bool
    ensures { result ≡ asks_store (request_asks request.now) }
{
    matches!(
        request,
        Request::Invalidate { .. } | Request::Clean { .. } | Request::Flush
    )
}

impl<D, K: Keeper> Parts<D, K> {
    /// Serves a request that may call the state store, and enters it in the history unless a limit would be passed or memory is wanting: then
    /// nothing changes. It makes at most one call, before anything else changes.
    pub fn keep_asked(&mut self, by: By, now: u64, request: Request) -> Reply
        requires asks { asks_store (request_asks request) ≡ true }
        requires bound { self.old.first + spent_in self.old + 2 < 2 ^ 64 }
        requires rules { AreRuled (self.old.first + length self.old.history.items) self.old }
        requires reserves { HasReserves self.old }
        ensures { (point : Point) → StandFor self.old point → IsPoint point → IsRoomy self.old.base.limits point → AsksSo point by now (request_asks request) self.old self.new (told_store ⟦<K as Keeper>⟧ self.old.keeper) (told_store ⟦<K as Keeper>⟧ self.new.keeper) result }
    {
        match request {
            Request::Invalidate { command, path } => {
                return self.invalidate(by, now, command, path);
            }
            Request::Clean { cutoff, mode } => return self.clean(by, now, cutoff, mode),
            Request::Flush => return self.flush(by, now),
            _ => unreachable!(),
        }
    }
}
