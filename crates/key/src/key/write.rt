// Writing a key slip.
ghost use Rattle.std.specs.Prelude.{◌≡◌, ◌+◌, ◌*◌, length, OnErr, OnOk};
ghost use Rattle.ring.specs.Classes.{size_of};
ghost use Rattle.ring.specs.Faults.{Answers};
ghost use Rattle.slip.specs.Refusals.{slip_fault};
ghost use Rattle.slip.specs.Writes.{same_tests};
ghost use Rattle.key.specs.Held.{basis_of};
ghost use Rattle.key.specs.Writing.{key_slip, ReadsAsKey};

use crate::key::Key;
use slip::{Kind, SlipFault, write_numbers, write_trailer};

impl Key {
    // Writes the key as a slip over the whole area. The slip loads as this key.
    pub fn write(&self, area: &mut [u8]) -> Result<(), SlipFault>
        ensures answer { Answers slip_fault (same_tests (length area.old) (4 * size_of self.now.class + 8)) (λ _. area.new ≡ key_slip self.now.class (basis_of self.now)) result }
        ensures kept { OnErr result (area.new ≡ area.old) }
        ensures back { OnOk result (ReadsAsKey area.new self.now) }
    {
        let n = self.class.size();
        if area.len() != 4 * n + 8 {
            return Err(SlipFault::AreaLength);
        }
        // The area has room for each section, so no write is refused; a loop over four slices is no plainer.
        let _ = write_numbers(self.f(), area, 0);
        let _ = write_numbers(self.g(), area, n);
        let _ = write_numbers(self.cap_f(), area, 2 * n);
        let _ = write_numbers(self.cap_g(), area, 3 * n);
        let _ = write_trailer(Kind::Key, self.class, area);
        Ok(())
    }
}
