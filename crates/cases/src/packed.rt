// Numbers in a fixed number of bytes each, highest byte first. Those of slips have a trait of their own, whose laws speak
// of lists and whose widths are two.
ghost use Rattle.std.specs.Prelude.{◌≡◌, ℕ, ◌<◌, List, ◌++◌, length, Some, vec_items, IfOk, OnOk};
ghost use Rattle.std.specs.Int.{w32, w64};
ghost use Rattle.std.specs.List.{flat_map};
ghost use Rattle.ring.specs.Kinds.{word_value, bit_value};
ghost use Rattle.std.proofs.Common.{rules};
ghost use Rattle.cases.specs.Packed.{unpacked, signed_in, signed_bytes, bit_in};
ghost use Rattle.cases.specs.Rings.{word_bytes, bit_bytes};
ghost use Rattle.cases.specs.Stops.{Gives};

use crate::stop::Stop;
use ring::Bit;
use std::alloc::{AllocError, Global};

pub(crate) trait Packed: Copy {
    // The bytes of a number.
    const WIDTH: usize;

    ghost WIDTH: { ℕ };

    ghost read: { List ℕ → Self };

    ghost packed: { Self → List ℕ };

    fn from_bytes(bytes: &[u8]) -> Self
        requires { length bytes.now ≡ WIDTH }
        ensures { result ≡ read bytes.now };

    // Appends the bytes of this number.
    fn append_to(self, bytes: &mut Vec<u8>) -> Result<(), AllocError>
        ensures { OnOk result (bytes.new.items ≡ bytes.old.items ++ packed self) };

    ghost some: { 0 < WIDTH };
}

impl Packed for i32 {
    const WIDTH: usize = 4;

    ghost WIDTH = { 4 };

    ghost read = { signed_in w32 };

    ghost packed = { signed_bytes w32 };

    ghost some = { Prim.search rules };

    fn from_bytes(bytes: &[u8]) -> i32 {
        i32::from_be_bytes(*bytes.first_chunk().unwrap())
    }

    fn append_to(self, bytes: &mut Vec<u8>) -> Result<(), AllocError> {
        bytes.extend_from_slice(&self.to_be_bytes())
    }
}

impl Packed for i64 {
    const WIDTH: usize = 8;

    ghost WIDTH = { 8 };

    ghost read = { signed_in w64 };

    ghost packed = { λ z. word_bytes (word_value z) };

    ghost some = { Prim.search rules };

    fn from_bytes(bytes: &[u8]) -> i64 {
        i64::from_be_bytes(*bytes.first_chunk().unwrap())
    }

    fn append_to(self, bytes: &mut Vec<u8>) -> Result<(), AllocError> {
        bytes.extend_from_slice(&self.to_be_bytes())
    }
}

// 01 is a set bit, every other byte is none.
impl Packed for Bit {
    const WIDTH: usize = 1;

    ghost WIDTH = { 1 };

    ghost read = { bit_in };

    ghost packed = { λ b. bit_bytes (bit_value b) };

    ghost some = { Prim.search rules };

    fn from_bytes(bytes: &[u8]) -> Bit {
        Bit(bytes[0] == 1)
    }

    fn append_to(self, bytes: &mut Vec<u8>) -> Result<(), AllocError> {
        bytes.push(u8::from(self.0))?;
        Ok(())
    }
}

// The numbers that bytes hold; what is left over is no number.
pub(crate) fn numbers<T: Packed>(heap: Global, bytes: &[u8]) -> Result<Vec<T>, Stop>
    ensures { Gives vec_items (Some (unpacked T.WIDTH T.read bytes.now)) result }
{
    let chunks = bytes.chunks_exact(T::WIDTH);
    Ok(chunks.map(|chunk| T::from_bytes(chunk)).collect(heap)?)
}

// The bytes of numbers.
pub(crate) fn bytes_of<T: Packed>(heap: Global, numbers: &[T]) -> Result<Vec<u8>, AllocError>
    ensures { IfOk result (λ v. v.items ≡ flat_map T.packed numbers.now) }
{
    let mut bytes = Vec::new(heap);
    for n in numbers {
        n.append_to(&mut bytes)?;
    }
    Ok(bytes)
}
