// What readers and writers of slips refuse.
ghost use Rattle.std.specs.Prelude.{◌≡◌};
ghost use Rattle.slip.specs.Refusals.{slip_fault};

use ring::{Fault, Layer};

// A field's and a number's place is that of its first byte in the file. `AreaLength` and `ListLength` are one refusal;
// the variant says which list is wrong.
#[derive(Clone, Copy, PartialEq, Eq, Debug)]
pub enum SlipFault {
    // A file that is too short, with its length.
    FileLength(usize),
    KindField(usize),
    ClassField(usize),
    SectionsField(usize),
    BackField(usize),
    // A lent area of another length than the slip's.
    AreaLength,
    // A list of numbers of another length than the class's.
    ListLength,
    // A number out of range.
    Range(usize),
}

impl From<SlipFault> for Fault {
    ghost from_gives = { λ e r. r ≡ slip_fault e };

    fn from(e: SlipFault) -> Fault {
        let (number, place) = match e {
            SlipFault::FileLength(length) => (1, length),
            SlipFault::KindField(place)
            | SlipFault::ClassField(place)
            | SlipFault::SectionsField(place)
            | SlipFault::BackField(place) => (2, place),
            SlipFault::AreaLength | SlipFault::ListLength => (1, 0),
            SlipFault::Range(place) => (3, place),
        };
        Fault {
            number,
            layer: Layer::Slip,
            place,
        }
    }
}
