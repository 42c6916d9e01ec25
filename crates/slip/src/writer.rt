// Writing a slip's trailer.
ghost use Rattle.std.specs.Prelude.{◌≡◌, ℕ, ◌-◌, ◌≤◌, List, ◌++◌, length, OnErr, OnOk};
ghost use Rattle.ring.specs.Faults.{Answers};
ghost use Rattle.slip.specs.Refusals.{slip_fault};
ghost use Rattle.slip.specs.Trailers.{Holds, Passes};
ghost use Rattle.slip.specs.Writes.{written, room_tests, trailer_of};

use crate::fault::SlipFault;
use crate::kind::Kind;
use crate::numbers::put;
use crate::reader::TRAILER;
use ring::Class;

pub(crate) fn put_trailer(kind: Kind, class: Class, area: &mut [u8])
    requires { 8 ≤ length area.old }
    ensures { area.new ≡ written (length area.old - 8) (trailer_of kind class) area.old }
{
    let place = area.len() - TRAILER;
    let [s0, s1] = (kind.sections() as u16).to_be_bytes();
    let [b0, b1, b2, b3] = ((kind.body_length(class) + TRAILER) as u32).to_be_bytes();
    let trailer = [kind.byte(), class.code(), s0, s1, b0, b1, b2, b3];
    put(area, place, &trailer);
}

// Writes the trailer of a slip of that kind and class into the area's last 8 bytes.
// A file that ends with the area and has the slip's length then passes the slip's tests.
pub fn write_trailer(kind: Kind, class: Class, area: &mut [u8]) -> Result<(), SlipFault>
    ensures answer { Answers slip_fault (room_tests 8 area.old) (λ _. area.new ≡ written (length area.old - 8) (trailer_of kind class) area.old) result }
    ensures kept { OnErr result (area.new ≡ area.old) }
    ensures passes { OnOk result ((before : List ℕ) → Holds kind class (before ++ area.new) → Passes kind class (before ++ area.new)) }
{
    if area.len() < TRAILER {
        return Err(SlipFault::AreaLength);
    }
    put_trailer(kind, class, area);
    Ok(())
}
