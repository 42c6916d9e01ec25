// Opening a session.
ghost use Rattle.std.specs.Prelude.{◌≡◌};
ghost use Rattle.key.specs.Held.{basis_of};
ghost use Rattle.runs.specs.Sealed.{Sealed};
ghost use Rattle.scheme.specs.Sessions.{opened};
ghost use Rattle.session.specs.Held.{state_of};

use crate::session::Session;
use crate::status::Status;
use key::Key;
use ring::filled;

impl<'k, 'l> Session<'k, 'l> {
    // Opens a session on a key and a log. Nothing is written. `sealed` is what holds of every run of it: issued
    // signatures are accepted, no hash is signed twice, and no list of calls shows which key with this form it holds.
    pub fn open(key: &'k Key, log: &'l mut [u8]) -> Session<'k, 'l>
        ensures state { state_of result ≡ opened key.now.class log.old }
        ensures key { result.key.now ≡ key.now }
        ensures lender { result.log.ghost_name ≡ log.entry.ghost_name }
        ensures sealed { Sealed key.now.class (basis_of key.now) log.old }
    {
        let capacity = (log.len() / key.class().hash_length()).min(65535);
        Session {
            key,
            log,
            capacity,
            issued: 0,
            status: Status::Idle,
            hash: filled(0),
        }
    }
}
