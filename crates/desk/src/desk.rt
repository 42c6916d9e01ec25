// A session with its own order in hand.
ghost use Rattle.std.specs.Prelude.{◌≡◌, true, [], length, replicate, pos, Some, None};
ghost use Rattle.scheme.specs.Sessions.{announce as announce_call, target as target_call, sign as sign_call, withdraw as withdraw_call, aimed, signed, withdrawn};
ghost use Rattle.session.specs.Answers.{gives};
ghost use Rattle.session.specs.Held.{SameLoans, state_of, step_of};
ghost use Rattle.desk.specs.Hands.{matched, numbered, takes, by_hand, answered, leaves};

use crate::hand;
use scheme::SessionFault;
use session::{Order, Session};

// An order in hand is the one that stands.
pub struct Desk<'k, 'l> {
    pub session: Session<'k, 'l>,
    pub hand: Option<Order>,
    pub ghost own: { matched hand (state_of session) ≡ true },
}

impl<'k, 'l> Desk<'k, 'l> {
    // A session with an empty hand.
    pub fn new(session: Session<'k, 'l>) -> Desk<'k, 'l>
        ensures session { result.session ≡ session.entry }
        ensures hand { result.hand ≡ None }
    {
        let hand = None;
        Desk { session, hand }
    }

    // Announces a hash and takes its order in hand; answers the order's number. While it stands, the session refuses
    // a second one by itself.
    pub fn announce(&mut self, hash: &[u8]) -> Result<u32, SessionFault>
        ensures step { gives (numbered result) [] [] (state_of self.new.session) ≡ step_of self.old.session (announce_call hash.now) }
        ensures rest { self.new.hand ≡ takes result self.old.hand }
        ensures loans { SameLoans self.old.session self.new.session }
    {
        hand::announce(&mut self.session, &mut self.hand, hash)
    }

    // Writes the target of the order in hand.
    pub fn target(
        &mut self,
        area: &mut [u8],
        scratch: &mut [i64],
    ) -> Option<Result<(), SessionFault>>
        ensures answer { answered (λ _. aimed) result ≡ by_hand self.old.hand None (λ number. Some (step_of self.old.session (target_call number area.old (length scratch.old))).answer) }
        ensures state { state_of self.new.session ≡ state_of self.old.session }
        ensures area { area.new ≡ by_hand self.old.hand area.old (λ number. (step_of self.old.session (target_call number area.old (length scratch.old))).target_area) }
        ensures rest { self.new.hand ≡ self.old.hand }
        ensures wiped { scratch.new ≡ replicate (length scratch.old) (pos 0) }
        ensures loans { SameLoans self.old.session self.new.session }
    {
        hand::target(&mut self.session, &self.hand, area, scratch)
    }

    // Signs with the order in hand and a sample.
    pub fn sign(
        &mut self,
        sample: &[i16],
        area: &mut [i32],
        scratch: &mut [i64],
    ) -> Option<Result<(u32, bool), SessionFault>>
        ensures answer { answered (λ a. signed a.0 a.1) result ≡ by_hand self.old.hand None (λ number. Some (step_of self.old.session (sign_call number sample.now area.old (length scratch.old))).answer) }
        ensures state { state_of self.new.session ≡ by_hand self.old.hand (state_of self.old.session) (λ number. (step_of self.old.session (sign_call number sample.now area.old (length scratch.old))).after) }
        ensures area { area.new ≡ by_hand self.old.hand area.old (λ number. (step_of self.old.session (sign_call number sample.now area.old (length scratch.old))).signature_area) }
        ensures rest { self.new.hand ≡ leaves result self.old.hand }
        ensures wiped { scratch.new ≡ replicate (length scratch.old) (pos 0) }
        ensures loans { SameLoans self.old.session self.new.session }
    {
        hand::sign(&mut self.session, &mut self.hand, sample, area, scratch)
    }

    // Withdraws the order in hand.
    pub fn withdraw(&mut self) -> Option<Result<(), SessionFault>>
        ensures answer { answered (λ _. withdrawn) result ≡ by_hand self.old.hand None (λ number. Some (step_of self.old.session (withdraw_call number)).answer) }
        ensures state { state_of self.new.session ≡ by_hand self.old.hand (state_of self.old.session) (λ number. (step_of self.old.session (withdraw_call number)).after) }
        ensures rest { self.new.hand ≡ leaves result self.old.hand }
        ensures loans { SameLoans self.old.session self.new.session }
    {
        hand::withdraw(&mut self.session, &mut self.hand)
    }

    // Withdraws what is in hand and gives the session back.
    pub fn close(self) -> Session<'k, 'l>
        ensures state { state_of result ≡ by_hand self.entry.hand (state_of self.entry.session) (λ number. (step_of self.entry.session (withdraw_call number)).after) }
        ensures loans { SameLoans self.entry.session result }
    {
        let Desk { mut session, hand } = self;
        match hand::close(&mut session, hand) {
            None => session,
            Some(_) => unreachable!(),
        }
    }
}
