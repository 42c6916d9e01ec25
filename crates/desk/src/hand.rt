// Calls with any order in hand, so that session and hand stand apart: it may be another session's order. `Desk` is the
// type whose hand is its own; here that is a clause, `own`. That key and log stay is a relation of before and after,
// which no type says: each public call says it, in clauses that keep their names.
ghost use Rattle.std.specs.Prelude.{◌≡◌, true, length, replicate, pos, Some, None};
ghost use Rattle.scheme.specs.Sessions.{announce as announce_call, target as target_call, sign as sign_call, withdraw as withdraw_call, aimed, signed, withdrawn};
ghost use Rattle.scheme.specs.Steps.{with_order};
ghost use Rattle.session.specs.Held.{SameLoans, state_of, step_of};
ghost use Rattle.desk.specs.Hands.{matched, numbered, hand_answer, hand_state, takes, by_hand, answered, leaves, unspent};

use key::Guard;
use scheme::SessionFault;
use session::{Order, Returned, Session};

// Puts an order into an empty hand.
fn put(hand: &mut Option<Order>, order: Order)
    requires { hand.old ≡ None }
    ensures { hand.new ≡ Some order }
{
    match hand.replace(order) {
        None => {}
        Some(_) => unreachable!(),
    }
}

// Withdraws an order that stands.
fn undo(session: &mut Session<'_, '_>, order: Order)
    requires { matched (Some order) (state_of session.old) ≡ true }
    ensures state { state_of session.new ≡ with_order (state_of session.old) None }
    ensures loans { SameLoans session.old session.new }
{
    match session.withdraw(order) {
        Ok(()) => {}
        Err(_) => unreachable!(),
    }
}

// Announces a hash and takes its order in hand; answers the order's number. A full hand takes no second order.
pub fn announce(
    session: &mut Session<'_, '_>,
    hand: &mut Option<Order>,
    hash: &[u8],
) -> Result<u32, SessionFault>
    ensures answer { numbered result ≡ hand_answer hand.old (step_of session.old (announce_call hash.now)) }
    ensures state { state_of session.new ≡ hand_state hand.old (state_of session.old) (step_of session.old (announce_call hash.now)) }
    ensures rest { hand.new ≡ takes result hand.old }
    ensures own { matched hand.old (state_of session.old) ≡ true → matched hand.new (state_of session.new) ≡ true }
    ensures key { session.new.key.now ≡ session.old.key.now }
    ensures lender { session.new.log.ghost_name ≡ session.old.log.ghost_name }
{
    let order = session.announce(hash)?;
    if hand.is_some() {
        undo(session, order);
        return Err(SessionFault::Standing);
    }
    let number = order.number();
    put(hand, order);
    Ok(number)
}

// Writes the target of the order in hand. Nothing is written with an empty hand; the answer is `None` then.
pub fn target(
    session: &mut Session<'_, '_>,
    hand: &Option<Order>,
    area: &mut [u8],
    scratch: &mut [i64],
) -> Option<Result<(), SessionFault>>
    ensures answer { answered (λ _. aimed) result ≡ by_hand hand.now None (λ number. Some (step_of session.old (target_call number area.old (length scratch.old))).answer) }
    ensures state { state_of session.new ≡ state_of session.old }
    ensures area { area.new ≡ by_hand hand.now area.old (λ number. (step_of session.old (target_call number area.old (length scratch.old))).target_area) }
    ensures wiped { scratch.new ≡ replicate (length scratch.old) (pos 0) }
    ensures own { matched hand.now (state_of session.old) ≡ true → matched hand.now (state_of session.new) ≡ true }
    ensures key { session.new.key.now ≡ session.old.key.now }
    ensures lender { session.new.log.ghost_name ≡ session.old.log.ghost_name }
{
    let guard = Guard { words: scratch };
    match hand {
        None => None,
        Some(order) => Some(session.target(order, area, guard.words)),
    }
}

// Signs with the order in hand and a sample. Nothing happens with an empty hand; the answer is `None` then.
pub fn sign(
    session: &mut Session<'_, '_>,
    hand: &mut Option<Order>,
    sample: &[i16],
    area: &mut [i32],
    scratch: &mut [i64],
) -> Option<Result<(u32, bool), SessionFault>>
    ensures answer { answered (λ a. signed a.0 a.1) result ≡ by_hand hand.old None (λ number. Some (step_of session.old (sign_call number sample.now area.old (length scratch.old))).answer) }
    ensures state { state_of session.new ≡ by_hand hand.old (state_of session.old) (λ number. (step_of session.old (sign_call number sample.now area.old (length scratch.old))).after) }
    ensures area { area.new ≡ by_hand hand.old area.old (λ number. (step_of session.old (sign_call number sample.now area.old (length scratch.old))).signature_area) }
    ensures rest { hand.new ≡ leaves result hand.old }
    ensures wiped { scratch.new ≡ replicate (length scratch.old) (pos 0) }
    ensures own { matched hand.old (state_of session.old) ≡ true → matched hand.new (state_of session.new) ≡ true }
    ensures key { session.new.key.now ≡ session.old.key.now }
    ensures lender { session.new.log.ghost_name ≡ session.old.log.ghost_name }
{
    let guard = Guard { words: scratch };
    let order = hand.take()?;
    match session.sign(order, sample, area, guard.words) {
        Ok(answer) => Some(Ok(answer)),
        Err(Returned { fault, order }) => {
            put(hand, order);
            Some(Err(fault))
        }
    }
}

// Withdraws the order in hand. Nothing happens with an empty hand; the answer is `None` then.
pub fn withdraw(
    session: &mut Session<'_, '_>,
    hand: &mut Option<Order>,
) -> Option<Result<(), SessionFault>>
    ensures answer { answered (λ _. withdrawn) result ≡ by_hand hand.old None (λ number. Some (step_of session.old (withdraw_call number)).answer) }
    ensures state { state_of session.new ≡ by_hand hand.old (state_of session.old) (λ number. (step_of session.old (withdraw_call number)).after) }
    ensures rest { hand.new ≡ leaves result hand.old }
    ensures own { matched hand.old (state_of session.old) ≡ true → matched hand.new (state_of session.new) ≡ true }
    ensures key { session.new.key.now ≡ session.old.key.now }
    ensures lender { session.new.log.ghost_name ≡ session.old.log.ghost_name }
{
    let order = hand.take()?;
    match session.withdraw(order) {
        Ok(()) => Some(Ok(())),
        Err(Returned { fault, order }) => {
            put(hand, order);
            Some(Err(fault))
        }
    }
}

// Ends what is in hand by a withdrawal. An order that the session does not take is given back; an order that
// stands is taken.
pub fn close(session: &mut Session<'_, '_>, hand: Option<Order>) -> Option<Order>
    ensures answer { result ≡ by_hand hand None (λ number. unspent hand (step_of session.old (withdraw_call number)).answer) }
    ensures state { state_of session.new ≡ by_hand hand (state_of session.old) (λ number. (step_of session.old (withdraw_call number)).after) }
    ensures own { matched hand (state_of session.old) ≡ true → result ≡ None }
    ensures key { session.new.key.now ≡ session.old.key.now }
    ensures lender { session.new.log.ghost_name ≡ session.old.log.ghost_name }
{
    let order = hand?;
    match session.withdraw(order) {
        Ok(()) => None,
        Err(Returned { fault: _, order }) => Some(order),
    }
}
