// Refusals: number, layer and place.
ghost use Rattle.std.specs.Prelude.{◌≡◌};
ghost use Rattle.ring.specs.Faults.{ring_fault};

// The part of the product that refuses.
#[derive(Clone, Copy, PartialEq, Eq, Debug)]
pub enum Layer {
    Ring,
    Slip,
    Key,
    Form,
    Session,
    Check,
}

#[derive(Clone, Copy, PartialEq, Eq, Debug)]
pub struct Fault {
    pub number: u8,
    pub layer: Layer,
    pub place: usize,
}

// What sums, products, adjoints and strips refuse.
#[derive(Clone, Copy, PartialEq, Eq, Debug)]
pub enum RingFault {
    // A list that is not of a class's n, or lists of two lengths.
    Length,
    // A turn, or the number of a coefficient, that is n or more.
    Range,
}

// The numbers of refusals stand where a fault becomes one.
impl From<RingFault> for Fault {
    ghost from_gives = { λ e r. r ≡ ring_fault e };

    fn from(e: RingFault) -> Fault {
        let number = match e {
            RingFault::Length => 1,
            RingFault::Range => 3,
        };
        Fault {
            number,
            layer: Layer::Ring,
            place: 0,
        }
    }
}
