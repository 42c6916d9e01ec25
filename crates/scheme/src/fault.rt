// What verification and sessions refuse.
ghost use Rattle.std.specs.Prelude.{◌≡◌};
ghost use Rattle.scheme.specs.Refusals.{check_fault, session_fault};

use ring::{Fault, Layer};

#[derive(Clone, Copy, PartialEq, Eq, Debug)]
pub enum CheckFault {
    // A hash, a signature or a scratch of another length than the form's class asks.
    Length,
    // A number of the signature is outside ±524,287.
    Range,
    // A number of u is outside ±1,048,576, or N is negative or above L.
    Bound,
    // v1 is all zero, or its first nonzero coefficient is negative.
    Sign,
}

// The numbers of refusals stand where a fault becomes one.
impl From<CheckFault> for Fault {
    ghost from_gives = { λ e r. r ≡ check_fault e };

    fn from(e: CheckFault) -> Fault {
        let number = match e {
            CheckFault::Length => 1,
            CheckFault::Range => 3,
            CheckFault::Bound => 8,
            CheckFault::Sign => 9,
        };
        Fault {
            number,
            layer: Layer::Check,
            place: 0,
        }
    }
}

#[derive(Clone, Copy, PartialEq, Eq, Debug)]
pub enum SessionFault {
    // A hash, a sample, an area or a scratch of another length than the key's class asks.
    Length,
    // The sample is not B·h modulo 2.
    Coset,
    // The squared length of the sample is above L.
    Bound,
    // v1 is all zero.
    Zero,
    // An order stands already.
    Standing,
    // No order stands, or its number is another.
    Order,
    // As many signatures are issued as the capacity.
    Full,
    // This hash is an entry of the session's log.
    Logged,
}

// As above.
impl From<SessionFault> for Fault {
    ghost from_gives = { λ e r. r ≡ session_fault e };

    fn from(e: SessionFault) -> Fault {
        let number = match e {
            SessionFault::Length => 1,
            SessionFault::Coset => 7,
            SessionFault::Bound => 8,
            SessionFault::Zero => 9,
            SessionFault::Standing => 20,
            SessionFault::Order => 21,
            SessionFault::Full => 22,
            SessionFault::Logged => 23,
        };
        Fault {
            number,
            layer: Layer::Session,
            place: 0,
        }
    }
}
