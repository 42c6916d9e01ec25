// The calls of a session. Each does what `step` of the scheme says: its answer, its area and the state after it. That
// key and log stay is a relation of before and after, which no type says: each call says it.
ghost use Rattle.std.specs.Prelude.{◌≡◌, [], length, replicate, pos, IfErr};
ghost use Rattle.scheme.specs.Sessions.{announce as announce_call, target as target_call, sign as sign_call, withdraw as withdraw_call, count as count_call};
ghost use Rattle.session.specs.Answers.{announced, counts, ended, gives, issued as issued_answer, targeted};
ghost use Rattle.session.specs.Held.{state_of, step_of};

use crate::ask::{Ask, Reply};
use crate::order::{Count, Order, Returned};
use crate::session::Session;
use crate::status::Status;
use key::Guard;
use scheme::SessionFault;

impl Session<'_, '_> {
    // Keeps a hash as the standing order and answers the order.
    pub fn announce(&mut self, hash: &[u8]) -> Result<Order, SessionFault>
        ensures step { gives (announced result) [] [] (state_of self.new) ≡ step_of self.old (announce_call hash.now) }
        ensures key { self.new.key.now ≡ self.old.key.now }
        ensures lender { self.new.log.ghost_name ≡ self.old.log.ghost_name }
    {
        let reply = self.transition(Ask::Announce(hash), &mut [], &mut [], &mut [])?;
        let Reply::Ordered(number) = reply else {
            unreachable!()
        };
        Ok(Order { number })
    }

    // Writes the target of the standing order's hash: B·h modulo 2, a byte for each of its 2n bits.
    pub fn target(
        &mut self,
        order: &Order,
        area: &mut [u8],
        scratch: &mut [i64],
    ) -> Result<(), SessionFault>
        ensures step { gives (targeted result) area.new [] (state_of self.new) ≡ step_of self.old (target_call order.now.number area.old (length scratch.old)) }
        ensures wiped { scratch.new ≡ replicate (length scratch.old) (pos 0) }
        ensures key { self.new.key.now ≡ self.old.key.now }
        ensures lender { self.new.log.ghost_name ≡ self.old.log.ghost_name }
    {
        let guard = Guard { words: scratch };
        self.transition(Ask::Target(order), area, &mut [], guard.words)?;
        Ok(())
    }

    // Signs the standing order's hash with a sample: writes the signature, appends the hash to the log and ends
    // the order. Answers the squared length of the sample, and whether the sign changed: the
    // product fixes this pair.
    pub fn sign(
        &mut self,
        order: Order,
        sample: &[i16],
        area: &mut [i32],
        scratch: &mut [i64],
    ) -> Result<(u32, bool), Returned>
        ensures step { gives (issued_answer result) [] area.new (state_of self.new) ≡ step_of self.old (sign_call order.number sample.now area.old (length scratch.old)) }
        ensures back { IfErr result (λ e. e.order ≡ order) }
        ensures wiped { scratch.new ≡ replicate (length scratch.old) (pos 0) }
        ensures key { self.new.key.now ≡ self.old.key.now }
        ensures lender { self.new.log.ghost_name ≡ self.old.log.ghost_name }
    {
        let guard = Guard { words: scratch };
        match self.transition(Ask::Sign(&order, sample), &mut [], area, guard.words) {
            Ok(reply) => {
                order.end();
                let Reply::Signed(length, changed) = reply else {
                    unreachable!()
                };
                Ok((length, changed))
            }
            Err(fault) => Err(Returned { fault, order }),
        }
    }

    // Ends the order; its hash may be announced again.
    pub fn withdraw(&mut self, order: Order) -> Result<(), Returned>
        ensures step { gives (ended result) [] [] (state_of self.new) ≡ step_of self.old (withdraw_call order.number) }
        ensures back { IfErr result (λ e. e.order ≡ order) }
        ensures key { self.new.key.now ≡ self.old.key.now }
        ensures lender { self.new.log.ghost_name ≡ self.old.log.ghost_name }
    {
        match self.transition(Ask::Withdraw(&order), &mut [], &mut [], &mut []) {
            Ok(_) => {
                order.end();
                Ok(())
            }
            Err(fault) => Err(Returned { fault, order }),
        }
    }

    // How many signatures are issued, how many may be, and whether an order stands.
    pub fn count(&self) -> Count
        ensures { gives (counts result) [] [] (state_of self.now) ≡ step_of self.now count_call }
    {
        Count {
            issued: self.issued as u32,
            capacity: self.capacity as u32,
            standing: self.status == Status::Standing,
        }
    }
}
