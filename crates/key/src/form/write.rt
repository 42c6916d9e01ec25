// Writing a form slip.
ghost use Rattle.std.specs.Prelude.{◌≡◌, ◌+◌, ◌*◌, length, OnErr, OnOk};
ghost use Rattle.ring.specs.Classes.{size_of};
ghost use Rattle.ring.specs.Faults.{Answers};
ghost use Rattle.slip.specs.Refusals.{slip_fault};
ghost use Rattle.slip.specs.Writes.{same_tests};
ghost use Rattle.key.specs.Gramheld.{gram_of};
ghost use Rattle.key.specs.Writing.{form_slip, ReadsAsForm};

use crate::form::Form;
use crate::memory::used;
use slip::{Kind, SlipFault, write_numbers, write_trailer};

impl Form {
    // Writes the form as a slip over the whole area. The slip loads as this form.
    pub fn write(&self, area: &mut [u8]) -> Result<(), SlipFault>
        ensures answer { Answers slip_fault (same_tests (length area.old) (12 * size_of self.now.class + 8)) (λ _. area.new ≡ form_slip self.now.class (gram_of self.now)) result }
        ensures kept { OnErr result (area.new ≡ area.old) }
        ensures back { OnOk result (ReadsAsForm area.new self.now) }
    {
        let part = Kind::Form.section_length(self.class);
        if area.len() != 3 * part + 8 {
            return Err(SlipFault::AreaLength);
        }
        // The area has room for each section, so no write is refused; a loop over three slices is no plainer.
        let _ = write_numbers(used(&self.q00, self.class), area, 0);
        let _ = write_numbers(used(&self.q01, self.class), area, part);
        let _ = write_numbers(used(&self.q11, self.class), area, 2 * part);
        let _ = write_trailer(Kind::Form, self.class, area);
        Ok(())
    }
}
