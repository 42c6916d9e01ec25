// Sections of a slip in fixed memory.
ghost use Rattle.std.specs.Prelude.{◌≡◌, ◌<◌, [], ◌∷◌, map};
ghost use Rattle.ring.specs.Classes.{size_of};
ghost use Rattle.ring.specs.Faults.{Answers};
ghost use Rattle.slip.specs.Kinds.{sections_of, width_of};
ghost use Rattle.slip.specs.Refusals.{slip_fault};
ghost use Rattle.key.specs.Taking.{bytes_at, limit_test, place_at, InMemory};

use crate::memory::used;
use ring::{Number, filled};
use scheme::first_outside;
use slip::{Slip, SlipFault, SlipNumber, read_numbers};

// The numbers of section i, and zeros behind them.
pub(crate) fn stored<const WIDTH: usize, N: SlipNumber<WIDTH> + Default>(
    slip: &Slip<'_>,
    i: usize,
) -> [N; 1024]
    requires width { width_of slip.now.kind ≡ WIDTH }
    requires there { i < sections_of slip.now.kind }
    ensures { InMemory N.is_default (size_of slip.now.class) (N.numbers (bytes_at slip.now i)) result }
{
    let part = slip.section(i).unwrap();
    let mut memory = filled(N::default());
    let (numbers, _) = memory.split_at_mut(slip.class().size());
    // The bytes are those of so many numbers, so nothing is refused.
    let _ = read_numbers(part.bytes, numbers);
    memory
}

// Whether every number of section i, which the memory holds, is within the limit. It stands beside `stored`: an array
// in a `Result` is copied at each return.
pub(crate) fn tested<const WIDTH: usize, N: SlipNumber<WIDTH> + Number + Default>(
    slip: &Slip<'_>,
    i: usize,
    limit: u32,
    memory: &[N; 1024],
) -> Result<(), SlipFault>
    requires width { width_of slip.now.kind ≡ WIDTH }
    requires there { i < sections_of slip.now.kind }
    requires held { InMemory N.is_default (size_of slip.now.class) (N.numbers (bytes_at slip.now i)) memory.now }
    ensures { Answers slip_fault (limit_test limit WIDTH (place_at slip.now i) (map N.value (N.numbers (bytes_at slip.now i))) ∷ []) (λ _. Unit {0}) result }
{
    let part = slip.section(i).unwrap();
    match first_outside(limit, used(memory, slip.class())) {
        Some(k) => Err(SlipFault::Range(part.place + WIDTH * k)),
        None => Ok(()),
    }
}
