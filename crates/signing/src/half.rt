// Halves of a signature: (h − v) / 2, where v may change sign.
ghost use Rattle.std.specs.Prelude.{◌≡◌, ◌+◌, ◌^◌, ◌<◌, ◌≤◌, length, ◌-ℤ◌, neg_ℤ, if◌then◌else◌, unsigned_abs};
ghost use Rattle.scheme.specs.Hashes.{hash_bit as bit_of};
ghost use Rattle.scheme.specs.Pairs.{half};
ghost use Rattle.signing.specs.Rows.{half_from};

use crate::rows::Row;
use scheme::hash_bit;

// The bits of a hash from a place on, and whether v changes sign.
#[derive(Clone, Copy)]
pub(crate) struct Half<'a> {
    pub(crate) hash: &'a [u8],
    pub(crate) from: usize,
    pub(crate) changed: bool,
}

impl Half<'_> {
    // Coefficient k, where v is that of the row.
    fn at(&self, k: usize, v: i64) -> i32
        requires within { self.now.from + k < 2 ^ 64 }
        requires small { unsigned_abs v ≤ 2 ^ 26 }
        ensures { result ≡ half (bit_of self.now.hash.now (self.now.from + k) -ℤ (if self.now.changed then neg_ℤ v else v)) }
    {
        let turned = if self.changed { -v } else { v };
        (i64::from(hash_bit(self.hash, self.from + k)) - turned).div_euclid(2) as i32
    }

    // The half of a row.
    pub(crate) fn write(&self, row: &Row, area: &mut [i32])
        requires long { length area.old ≡ length row.now }
        requires within { self.now.from + length area.old < 2 ^ 64 }
        ensures { area.new ≡ half_from self.now.hash.now self.now.from self.now.changed row.now }
    {
        for (k, number) in area.iter_mut().enumerate() {
            *number = self.at(k, row.at(k));
        }
    }
}
