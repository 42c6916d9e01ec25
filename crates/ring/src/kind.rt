// Kinds of number: what an element's coefficients are made of.
ghost use Rattle.std.specs.Prelude.{◌≡◌, ℕ, ◌^◌, ◌<◌, ◌≤◌, true, false, pos, ◌+ℤ◌, ◌*ℤ◌, neg_ℤ};
ghost use Rattle.ring.specs.Kinds.{rest, bit_value, word_value};
ghost use Rattle.ring.specs.Below.{rest_below, word_nought, word_positive, word_unity};
ghost use Rattle.std.proofs.Common.{rules};

// A kind of number. A number means its residue modulo the kind's modulus, and each operation gives
// the residue of the true result.
pub trait Coefficient: Copy {
    ghost modulus: { ℕ };

    ghost residue: { Self → ℕ };

    ghost ZERO: { Self };

    const ZERO: Self;

    ghost ONE: { Self };

    const ONE: Self;

    fn plus(self, other: Self) -> Self
        ensures { residue result ≡ rest modulus (pos (residue self) +ℤ pos (residue other)) };

    fn negated(self) -> Self
        ensures { residue result ≡ rest modulus (neg_ℤ (pos (residue self))) };

    fn times(self, other: Self) -> Self
        ensures { residue result ≡ rest modulus (pos (residue self) *ℤ pos (residue other)) };

    ghost several: { 2 ≤ modulus };

    ghost nought: { residue ZERO ≡ 0 };

    ghost unity: { residue ONE ≡ 1 };

    ghost below: { (x : Self) → residue x < modulus };
}

// Words: whole numbers modulo 2^64, read as signed.
impl Coefficient for i64 {
    ghost modulus = { 2 ^ 64 };

    ghost residue = { word_value };

    ghost ZERO = { pos 0 };

    const ZERO: i64 = 0;

    ghost ONE = { pos 1 };

    const ONE: i64 = 1;

    ghost several = { Prim.search rules };

    ghost nought = { word_nought };

    ghost unity = { word_unity };

    ghost below = { λ x. rest_below (2 ^ 64) x word_positive };

    fn plus(self, other: i64) -> i64 {
        self.wrapping_add(other)
    }

    fn negated(self) -> i64 {
        self.wrapping_neg()
    }

    fn times(self, other: i64) -> i64 {
        self.wrapping_mul(other)
    }
}

// A whole number modulo 2.
#[derive(Clone, Copy, PartialEq, Eq, Debug)]
pub struct Bit(pub bool);

impl Coefficient for Bit {
    ghost modulus = { 2 };

    ghost residue = { bit_value };

    ghost ZERO = { record { 0 = false } };

    const ZERO: Bit = Bit(false);

    ghost ONE = { record { 0 = true } };

    const ONE: Bit = Bit(true);

    ghost several = { Prim.search rules };

    ghost nought = { Prim.search rules };

    ghost unity = { Prim.search rules };

    ghost below = { Prim.search rules };

    fn plus(self, other: Bit) -> Bit {
        Bit(self.0 ^ other.0)
    }

    fn negated(self) -> Bit {
        Bit(self.0)
    }

    fn times(self, other: Bit) -> Bit {
        Bit(self.0 & other.0)
    }
}
