// The bits of a hash.
ghost use Rattle.std.specs.Prelude.{◌≡◌, pos};
ghost use Rattle.scheme.specs.Hashes.{hash_bit};

// Bit i: bit i mod 8, lowest first, of byte i div 8; 0 behind the end. A number, since signatures reckon with it.
pub fn hash_bit(hash: &[u8], i: usize) -> u8
    ensures { pos result ≡ hash_bit hash.now i }
{
    match hash.get(i / 8) {
        Some(byte) => (byte >> (i % 8)) % 2,
        None => 0,
    }
}
