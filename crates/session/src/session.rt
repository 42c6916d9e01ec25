// A session: a key, a lent log, and the order that stands.
ghost use Rattle.std.specs.Prelude.{◌≡◌, ◌+◌, ◌≤◌, length};
ghost use Rattle.scheme.specs.Sessions.{capacity_of};
ghost use Rattle.session.specs.Statuses.{orders};

use crate::status::Status;
use key::Key;

mod calls;
mod open;
mod state;
mod transition;

// While an order stands, its hash lies in the first n/4 bytes of `hash`. The log has room for every signature that
// may still be issued, the standing order's included.
#[derive(Drop)]
pub struct Session<'k, 'l> {
    key: &'k Key,
    log: &'l mut [u8],
    capacity: usize,
    issued: usize,
    status: Status,
    hash: [u8; 256],
    ghost room: { capacity ≡ capacity_of key.now.class (length log.now) },
    ghost free: { issued + orders status ≤ capacity },
}
