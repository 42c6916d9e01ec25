// The transition of a session: its state and a call are matched together, in place.
ghost use Rattle.std.specs.Prelude.{◌≡◌, true, [], ◌∷◌, length};
ghost use Rattle.ring.specs.Faults.{Answers};
ghost use Rattle.scheme.specs.Refusals.{session_fault};
ghost use Rattle.scheme.specs.Sessions.{announce as announce_call};
ghost use Rattle.scheme.specs.Steps.{order_test, signature_given, target_given};
ghost use Rattle.session.specs.Answers.{answer_of, gives};
ghost use Rattle.session.specs.Asks.{call_of, fitting};
ghost use Rattle.session.specs.Held.{SameLoans, state_of, step_of};
ghost use Rattle.session.specs.declared.status.Status.TheVariants.{Idle as IdleStatus, Standing as StandingStatus};

use crate::ask::{Ask, Reply};
use crate::order::Order;
use crate::session::Session;
use crate::status::Status;
use scheme::SessionFault;
use signing::{sign_sample, write_target};

impl Session<'_, '_> {
    // Whether the lists of a call have the lengths of the key's class.
    fn suits(&self, ask: Ask<'_>, target: &[u8], signature: &[i32], scratch: &[i64]) -> bool
        ensures { result ≡ fitting self.now.key.now.class (call_of ask.entry target.now signature.now (length scratch.now)) }
    {
        let n = self.key.class().size();
        let scratch_fits = scratch.len() == 4 * n;
        match ask {
            Ask::Announce(hash) => hash.len() == self.key.class().hash_length(),
            Ask::Target(_) => target.len() == 2 * n && scratch_fits,
            Ask::Sign(_, sample) => sample.len() == 2 * n
                && signature.len() == 2 * n
                && scratch_fits,
            Ask::Withdraw(_) => true,
        }
    }

    // Whether the standing order is this one.
    fn serves(&self, order: &Order) -> Result<(), SessionFault>
        requires { self.now.status ≡ StandingStatus }
        ensures { Answers session_fault (order_test (state_of self.now) order.now.number ∷ []) (λ _. Unit {0}) result }
    {
        if order.number != self.number() {
            return Err(SessionFault::Order);
        }
        Ok(())
    }

    // Announces a hash of the right length where no order stands.
    fn admit(&mut self, hash: &[u8]) -> Result<Reply, SessionFault>
        requires idle { self.old.status ≡ IdleStatus }
        requires long { fitting self.old.key.now.class (announce_call hash.now) ≡ true }
        ensures step { gives (answer_of result) [] [] (state_of self.new) ≡ step_of self.old (announce_call hash.now) }
        ensures loans { SameLoans self.old self.new }
    {
        if self.issued >= self.capacity {
            return Err(SessionFault::Full);
        }
        if self.lists(hash) {
            return Err(SessionFault::Logged);
        }
        self.keep(hash);
        Ok(Reply::Ordered(self.number()))
    }

    pub(crate) fn transition(
        &mut self,
        ask: Ask<'_>,
        target: &mut [u8],
        signature: &mut [i32],
        scratch: &mut [i64],
    ) -> Result<Reply, SessionFault>
        requires target { target.old ≡ target_given (call_of ask target.old signature.old (length scratch.old)) }
        requires signature { signature.old ≡ signature_given (call_of ask target.old signature.old (length scratch.old)) }
        ensures step { gives (answer_of result) target.new signature.new (state_of self.new) ≡ step_of self.old (call_of ask.entry target.old signature.old (length scratch.old)) }
        ensures loans { SameLoans self.old self.new }
    {
        if !self.suits(ask, target, signature, scratch) {
            return Err(SessionFault::Length);
        }
        match (self.status, ask) {
            (Status::Idle, Ask::Announce(hash)) => self.admit(hash),
            (Status::Standing, Ask::Announce(_)) => Err(SessionFault::Standing),
            (Status::Idle, Ask::Target(_)) => Err(SessionFault::Order),
            (Status::Standing, Ask::Target(order)) => {
                self.serves(order)?;
                write_target(self.key, self.kept(), target, scratch)?;
                Ok(Reply::Aimed)
            }
            (Status::Idle, Ask::Sign(_, _)) => Err(SessionFault::Order),
            (Status::Standing, Ask::Sign(order, sample)) => {
                self.serves(order)?;
                let (length, changed) = sign_sample(
                    self.key,
                    self.kept(),
                    sample,
                    signature,
                    scratch,
                )?;
                self.append();
                Ok(Reply::Signed(length, changed))
            }
            (Status::Idle, Ask::Withdraw(_)) => Err(SessionFault::Order),
            (Status::Standing, Ask::Withdraw(order)) => {
                self.serves(order)?;
                self.status = Status::Idle;
                Ok(Reply::Withdrawn)
            }
        }
    }
}
