// What a session reads of its own state, and the two ways in which it changes it.
ghost use Rattle.std.specs.Prelude.{◌≡◌, ◌<◌, length, take, Some};
ghost use Rattle.ring.specs.Classes.{hash_length_of};
ghost use Rattle.scheme.specs.Steps.{appended, listed, number_in, with_order};
ghost use Rattle.session.specs.Held.{SameLoans, state_of};
ghost use Rattle.session.specs.declared.status.Status.TheVariants.{Standing as StandingStatus};

use crate::log::{holds, write_entry};
use crate::session::Session;
use crate::status::Status;

impl Session<'_, '_> {
    // The number of the order that stands, or of the next one.
    #[tactic(auto, using(crate::proofs::Entries::length_chunks))]
    pub(crate) fn number(&self) -> u32
        ensures { result ≡ number_in (state_of self.now) }
    {
        self.issued as u32 + 1
    }

    // Whether a hash is an entry of the log.
    pub(crate) fn lists(&self, hash: &[u8]) -> bool
        ensures { result ≡ listed (state_of self.now).entries hash.now }
    {
        holds(self.log, self.issued, self.key.class().hash_length(), hash)
    }

    // The hash of the standing order.
    pub(crate) fn kept(&self) -> &[u8]
        ensures value { result.now ≡ take (hash_length_of self.now.key.now.class) self.now.hash }
        ensures len { length result.now ≡ hash_length_of self.now.key.now.class }
    {
        &self.hash[..self.key.class().hash_length()]
    }

    // Keeps a hash as that of the standing order.
    pub(crate) fn keep(&mut self, hash: &[u8])
        requires free { self.old.issued < self.old.capacity }
        requires long { length hash.now ≡ hash_length_of self.old.key.now.class }
        ensures state { state_of self.new ≡ with_order (state_of self.old) (Some hash.now) }
        ensures loans { SameLoans self.old self.new }
    {
        // `..` in place of `0..` gets no proof here: the field lies beside a lent log.
        self.hash[0..hash.len()].copy_from_slice(hash);
        self.status = Status::Standing;
    }

    // The hash of the standing order becomes an entry of the log, and the order ends.
    pub(crate) fn append(&mut self)
        requires { self.old.status ≡ StandingStatus }
        ensures state { state_of self.new ≡ appended self.old.key.now.class (state_of self.old) }
        ensures loans { SameLoans self.old self.new }
    {
        let size = self.key.class().hash_length();
        let place = self.issued * size;
        let Session { log, hash, .. } = self;
        write_entry(log, place, &hash[..size]);
        self.status = Status::Idle;
        self.issued += 1;
    }
}
