// Orders of another session: made in a session of class 1 and ended there.
ghost use Rattle.std.specs.Prelude.{◌≡◌, true, false};
ghost use Rattle.session.specs.Held.{state_of};
ghost use Rattle.desk.specs.Hands.{matched};

use desk::Desk;
use key::Key;
use scheme::SessionFault;
use session::{Order, Session};

// Announces a hash of one byte and signs it with its target as the sample.
fn issue(desk: &mut Desk<'_, '_>, hash: u8) {
    let mut area = [0u8; 8];
    let _ = desk.announce(&[hash]);
    let _ = desk.target(&mut area, &mut [0; 16]);
    let sample = area.map(i16::from);
    let _ = desk.sign(&sample, &mut [0; 8], &mut [0; 16]);
}

// A session of its own with the order of this number in hand: it issues signatures until that one is the next.
fn with_order<'k, 'l>(key: &'k Key, log: &'l mut [u8], number: u8) -> Desk<'k, 'l> {
    let mut desk = Desk::new(Session::open(key, log));
    for i in 1..number {
        issue(&mut desk, 16 | (i % 16));
    }
    let _ = desk.announce(&[32]);
    desk
}

// Whether there is an order in hand that the session would not take.
fn differs(session: &Session<'_, '_>, hand: &Option<Order>) -> bool
    ensures { result ≡ true → matched hand.now (state_of session.now) ≡ false }
{
    let Some(order) = hand else {
        return false;
    };
    let count = session.count();
    let stands = count.standing && u64::from(order.number()) == u64::from(count.issued) + 1;
    !stands
}

// Nothing is done with an order that the session would take; that is no order of another session then. The three calls
// are written out: with one function that takes the call as a closure, nothing says that the session's state stays.
pub(crate) fn target(
    session: &mut Session<'_, '_>,
    number: u8,
    area: &mut [u8],
    scratch: &mut [i64],
) -> Option<Result<(), SessionFault>>
    ensures { state_of session.new ≡ state_of session.old }
{
    let key = Key::resting();
    let mut log = [0u8; 8];
    let other = with_order(&key, &mut log, number);
    let answer = desk::target(session, &other.hand, area, scratch);
    other.close();
    answer
}

pub(crate) fn sign(
    session: &mut Session<'_, '_>,
    number: u8,
    sample: &[i16],
    area: &mut [i32],
    scratch: &mut [i64],
) -> Option<Result<(u32, bool), SessionFault>>
    ensures { state_of session.new ≡ state_of session.old }
{
    let key = Key::resting();
    let mut log = [0u8; 8];
    let mut other = with_order(&key, &mut log, number);
    let answer = if differs(session, &other.hand) {
        desk::sign(session, &mut other.hand, sample, area, scratch)
    } else {
        None
    };
    other.close();
    answer
}

pub(crate) fn withdraw(
    session: &mut Session<'_, '_>,
    number: u8,
) -> Option<Result<(), SessionFault>>
    ensures { state_of session.new ≡ state_of session.old }
{
    let key = Key::resting();
    let mut log = [0u8; 8];
    let mut other = with_order(&key, &mut log, number);
    let answer = if differs(session, &other.hand) {
        desk::withdraw(session, &mut other.hand)
    } else {
        None
    };
    other.close();
    answer
}
