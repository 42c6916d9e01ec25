// A key: four elements in fixed memory, with what holds of every key in its type.
ghost use Rattle.std.specs.Prelude.{◌≡◌, true, pos};
ghost use Rattle.ring.specs.Classes.{size_of};
ghost use Rattle.ring.specs.Elements.{total, constant};
ghost use Rattle.scheme.specs.Keys.{basis, all_within, odd, determinant, key_limit, IsKey};
ghost use Rattle.key.specs.Stored.{front};

use ring::Class;

mod elements;
mod load;
mod resting;
mod words;
mod write;

// f, g, F and G; the basis has the rows (f, F) and (g, G).
#[derive(Drop)]
pub struct Key {
    pub(crate) class: Class,
    pub(crate) f: [i8; 1024],
    pub(crate) g: [i8; 1024],
    pub(crate) cap_f: [i8; 1024],
    pub(crate) cap_g: [i8; 1024],
    ghost small_f: { all_within key_limit (front class f) ≡ true },
    ghost small_g: { all_within key_limit (front class g) ≡ true },
    ghost small_cap_f: { all_within key_limit (front class cap_f) ≡ true },
    ghost small_cap_g: { all_within key_limit (front class cap_g) ≡ true },
    ghost odd_f: { odd (total (front class f)) ≡ true },
    ghost odd_g: { odd (total (front class g)) ≡ true },
    ghost unit_determinant: { determinant (basis (front class f) (front class g) (front class cap_f) (front class cap_g)) ≡ constant (size_of class) (pos 1) },
}

impl Key {
    // The class. Numbers within ±127, odd sums of f and g, and fG − gF = 1 hold of the key asked.
    pub fn class(&self) -> Class
        ensures class { result ≡ self.now.class }
        ensures sound { IsKey (size_of self.now.class) (basis (front self.now.class self.now.f) (front self.now.class self.now.g) (front self.now.class self.now.cap_f) (front self.now.class self.now.cap_g)) }
    {
        self.class
    }
}
