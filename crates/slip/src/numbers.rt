// Signed numbers as bytes, highest byte first.
ghost use Rattle.std.specs.Prelude.{◌≡◌, ℕ, ◌+◌, ◌*◌, ◌^◌, ◌<◌, ◌≤◌, List, [], ◌∷◌, ◌++◌, length, OnErr, OnOk};
ghost use Rattle.std.proofs.Common.{◌∙◌, sym, lit<, one-mul};
ghost use Rattle.ring.specs.Faults.{Answers};
ghost use Rattle.slip.specs.Refusals.{slip_fault};
ghost use Rattle.slip.specs.Numbers.{bytes8, bytes32, numbers8, numbers32};
ghost use Rattle.slip.specs.Writes.{written, room_tests, same_tests};
ghost use Rattle.slip.specs.Laws.{length_bytes8, length_bytes32, bytes8_append, bytes32_append, numbers8_append, numbers32_append};

use crate::fault::SlipFault;

// A signed number that a slip holds in that many bytes.
pub trait SlipNumber<const WIDTH: usize>: Copy {
    // The bytes of numbers, and the numbers that bytes stand for.
    ghost bytes: { List Self → List ℕ };

    ghost numbers: { List ℕ → List Self };

    fn to_bytes(self) -> [u8; WIDTH]
        ensures bytes { result ≡ bytes (self ∷ []) }
        ensures back { numbers result ≡ self ∷ [] };

    fn from_bytes(word: &[u8; WIDTH]) -> Self
        ensures { numbers word.now ≡ result ∷ [] };

    // A number has bytes, and they fit in memory.
    ghost wide: { 0 < WIDTH };

    ghost narrow: { WIDTH < 2 ^ 63 };

    // Lists of numbers: how many bytes they have, and that one list behind another is written and read behind it.
    ghost bytes_length: { (xs : List Self) → length (bytes xs) ≡ WIDTH * length xs };

    ghost bytes_append: { (xs ys : List Self) → bytes (xs ++ ys) ≡ bytes xs ++ bytes ys };

    ghost numbers_append: { (n : ℕ) (xs ys : List ℕ) → length xs ≡ WIDTH * n → numbers (xs ++ ys) ≡ numbers xs ++ numbers ys };
}

impl SlipNumber<1> for i8 {
    ghost bytes = { bytes8 };

    ghost numbers = { numbers8 };

    ghost wide = { lit< tt };

    ghost narrow = { lit< tt };

    ghost bytes_length = { λ xs. length_bytes8 xs ∙ sym (one-mul (length xs)) };

    ghost bytes_append = { bytes8_append };

    ghost numbers_append = { numbers8_append };

    fn to_bytes(self) -> [u8; 1] {
        i8::to_be_bytes(self)
    }

    fn from_bytes(word: &[u8; 1]) -> i8 {
        i8::from_be_bytes(*word)
    }
}

impl SlipNumber<4> for i32 {
    ghost bytes = { bytes32 };

    ghost numbers = { numbers32 };

    ghost wide = { lit< tt };

    ghost narrow = { lit< tt };

    ghost bytes_length = { length_bytes32 };

    ghost bytes_append = { bytes32_append };

    ghost numbers_append = { numbers32_append };

    fn to_bytes(self) -> [u8; 4] {
        i32::to_be_bytes(self)
    }

    fn from_bytes(word: &[u8; 4]) -> i32 {
        i32::from_be_bytes(*word)
    }
}

pub(crate) fn put(area: &mut [u8], place: usize, bytes: &[u8])
    requires { place + length bytes.now ≤ length area.old }
    ensures { area.new ≡ written place bytes.now area.old }
{
    area[place..place + bytes.len()].copy_from_slice(bytes);
}

pub(crate) fn put_numbers<N: SlipNumber<WIDTH>, const WIDTH: usize>(
    numbers: &[N],
    area: &mut [u8],
    place: usize,
)
    requires { place + WIDTH * length numbers.now ≤ length area.old }
    ensures after { area.new ≡ written place (N.bytes numbers.now) area.old }
    ensures back { N.numbers (N.bytes numbers.now) ≡ numbers.now }
{
    // After a loop over `numbers.iter().zip(area.chunks_exact_mut(WIDTH))` nothing is known of the area.
    for (i, x) in numbers.iter().enumerate() {
        put(area, place + WIDTH * i, &x.to_bytes());
    }
}

pub(crate) fn get_numbers<N: SlipNumber<WIDTH>, const WIDTH: usize>(bytes: &[u8], numbers: &mut [N])
    requires { length bytes.now ≡ WIDTH * length numbers.old }
    ensures { numbers.new ≡ N.numbers bytes.now }
{
    let (words, _) = bytes.as_chunks::<WIDTH>();
    // After a loop over `numbers.iter_mut().zip(words)` nothing is known of the numbers.
    for (i, word) in words.iter().enumerate() {
        numbers[i] = N::from_bytes(word);
    }
}

// Writes the numbers into the area from a place on. The bytes read as the numbers.
pub fn write_numbers<N: SlipNumber<WIDTH>, const WIDTH: usize>(
    numbers: &[N],
    area: &mut [u8],
    place: usize,
) -> Result<(), SlipFault>
    ensures answer { Answers slip_fault (room_tests (place + WIDTH * length numbers.now) area.old) (λ _. area.new ≡ written place (N.bytes numbers.now) area.old) result }
    ensures kept { OnErr result (area.new ≡ area.old) }
    ensures back { OnOk result (N.numbers (N.bytes numbers.now) ≡ numbers.now) }
{
    if area.len() < place || (area.len() - place) / WIDTH < numbers.len() {
        return Err(SlipFault::AreaLength);
    }
    put_numbers(numbers, area, place);
    Ok(())
}

// Reads the numbers that the bytes stand for.
pub fn read_numbers<N: SlipNumber<WIDTH>, const WIDTH: usize>(
    bytes: &[u8],
    numbers: &mut [N],
) -> Result<(), SlipFault>
    ensures answer { Answers slip_fault (same_tests (WIDTH * length numbers.old) (length bytes.now)) (λ _. numbers.new ≡ N.numbers bytes.now) result }
    ensures kept { OnErr result (numbers.new ≡ numbers.old) }
{
    if bytes.len() % WIDTH != 0 || bytes.len() / WIDTH != numbers.len() {
        return Err(SlipFault::ListLength);
    }
    get_numbers(bytes, numbers);
    Ok(())
}
