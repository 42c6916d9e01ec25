// The four classes of keys: number, size of an element, bound on a squared length, length of a hash.
ghost use Rattle.std.specs.Prelude.{◌≡◌};
ghost use Rattle.ring.specs.Classes.{code_of, size_of, bound_of, hash_length_of, with_code, with_size};

#[derive(Clone, Copy, PartialEq, Eq, Debug)]
pub enum Class {
    One,
    Two,
    Three,
    Four,
}

// Each table, the codes among them, has numbers of its own; one table of all would be no plainer. A class is found by its code and by its
// size, both numbers, so that `TryFrom` would not say which is meant.
impl Class {
    // The number in a slip's trailer.
    pub fn code(self) -> u8
        ensures { result ≡ code_of self }
    {
        match self {
            Class::One => 1,
            Class::Two => 2,
            Class::Three => 3,
            Class::Four => 4,
        }
    }

    // n, the number of coefficients of an element.
    pub fn size(self) -> usize
        ensures { result ≡ size_of self }
    {
        match self {
            Class::One => 4,
            Class::Two => 256,
            Class::Three => 512,
            Class::Four => 1024,
        }
    }

    // L, the largest squared length of a sample.
    pub fn bound(self) -> u32
        ensures { result ≡ bound_of self }
    {
        match self {
            Class::One => 16,
            Class::Two => 2215,
            Class::Three => 8317,
            Class::Four => 20243,
        }
    }

    // The bytes of a hash: n / 4, for 2n bits.
    pub fn hash_length(self) -> usize
        ensures { result ≡ hash_length_of self }
    {
        self.size() / 4
    }

    pub fn with_code(code: u8) -> Option<Class>
        ensures { result ≡ with_code code }
    {
        match code {
            1 => Some(Class::One),
            2 => Some(Class::Two),
            3 => Some(Class::Three),
            4 => Some(Class::Four),
            _ => None,
        }
    }

    // The class whose elements have n coefficients.
    pub fn with_size(n: usize) -> Option<Class>
        ensures { result ≡ with_size n }
    {
        match n {
            4 => Some(Class::One),
            256 => Some(Class::Two),
            512 => Some(Class::Three),
            1024 => Some(Class::Four),
            _ => None,
        }
    }
}
