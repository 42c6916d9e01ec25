// Limits on the size of numbers.
ghost use Rattle.std.specs.Prelude.{◌≡◌, ◌<◌, true, false, map, length, MatchOption};
ghost use Rattle.std.specs.List.{prefix_len};
ghost use Rattle.scheme.specs.Keys.{within, all_within};

use ring::Number;

// Whether a number is at most the limit in size.
pub fn within<S: Number>(limit: u32, number: S) -> bool
    ensures { result ≡ within limit (S.value number) }
{
    number.word().unsigned_abs() <= u64::from(limit)
}

// Whether every number is at most the limit in size.
pub fn all_within<S: Number>(limit: u32, numbers: &[S]) -> bool
    ensures { result ≡ all_within limit (map S.value numbers.now) }
{
    numbers.iter().all(|number| within(limit, *number))
}

// The place of the first number that is above the limit in size.
pub fn first_outside<S: Number>(limit: u32, numbers: &[S]) -> Option<usize>
    ensures { MatchOption result (all_within limit (map S.value numbers.now) ≡ true) (λ i. (all_within limit (map S.value numbers.now) ≡ false) × (i ≡ prefix_len (within limit) (map S.value numbers.now)) × (i < length numbers.now)) }
{
    numbers.iter().position(|number| !within(limit, *number))
}
