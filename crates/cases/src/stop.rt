// Why a case is not run to its end.
ghost use Rattle.std.specs.Prelude.{◌≡◌};
ghost use Rattle.cases.specs.Stops.{no_memory};

use std::alloc::{AllocError, AllocFailed};

#[derive(Debug, Drop)]
pub enum Stop {
    NoMemory,
    // A case that cannot be read.
    Unreadable,
}

impl From<AllocError> for Stop {
    ghost from_gives = { λ _ r. r ≡ no_memory };

    fn from(_e: AllocError) -> Stop {
        Stop::NoMemory
    }
}

impl<T: Drop> From<AllocFailed<T>> for Stop {
    ghost from_gives = { λ _ r. r ≡ no_memory };

    fn from(_e: AllocFailed<T>) -> Stop {
        Stop::NoMemory
    }
}
