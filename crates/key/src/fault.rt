// What keys and forms refuse.
ghost use Rattle.std.specs.Prelude.{◌≡◌};
ghost use Rattle.key.specs.Refusals.{key_fault, of_slip, form_fault, of_form_slip};

use ring::{Fault, Layer};
use slip::SlipFault;

#[derive(Clone, Copy, PartialEq, Eq, Debug)]
pub enum KeyFault {
    // The slip's own fault, as it came.
    Slip(SlipFault),
    // A scratch that is not of 4n words.
    Scratch,
    EvenF,
    EvenG,
    // f·G − g·F is not 1, first at this power.
    Determinant(usize),
}

impl From<SlipFault> for KeyFault {
    ghost from_gives = { λ e r. r ≡ of_slip e };

    fn from(e: SlipFault) -> KeyFault {
        KeyFault::Slip(e)
    }
}

impl From<KeyFault> for Fault {
    ghost from_gives = { λ e r. r ≡ key_fault e };

    fn from(e: KeyFault) -> Fault {
        let (number, place) = match e {
            KeyFault::Slip(slip) => return slip.into(),
            KeyFault::Scratch => (1, 0),
            KeyFault::EvenF => (4, 0),
            KeyFault::EvenG => (4, 1),
            KeyFault::Determinant(power) => (5, power),
        };
        Fault {
            number,
            layer: Layer::Key,
            place,
        }
    }
}

// Two layers refuse, each with faults of its own: one enum would let a form refuse an even sum.
#[derive(Clone, Copy, PartialEq, Eq, Debug)]
pub enum FormFault {
    // The slip's own fault, as it came.
    Slip(SlipFault),
    // A scratch that is not of 4n words.
    Scratch,
    // q00 or q11 differs from its adjoint, first at this power; q11's powers are counted from n.
    Adjoint(usize),
}

impl From<SlipFault> for FormFault {
    ghost from_gives = { λ e r. r ≡ of_form_slip e };

    fn from(e: SlipFault) -> FormFault {
        FormFault::Slip(e)
    }
}

impl From<FormFault> for Fault {
    ghost from_gives = { λ e r. r ≡ form_fault e };

    fn from(e: FormFault) -> Fault {
        let (number, place) = match e {
            FormFault::Slip(slip) => return slip.into(),
            FormFault::Scratch => (1, 0),
            FormFault::Adjoint(power) => (6, power),
        };
        Fault {
            number,
            layer: Layer::Form,
            place,
        }
    }
}
