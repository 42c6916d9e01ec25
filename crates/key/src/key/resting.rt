// The resting key, with which a key place starts: class 1, f = g = G = 1 and F = 0.
ghost use Rattle.std.specs.Prelude.{◌≡◌};
ghost use Rattle.ring.specs.declared.class.Class.TheVariants.{One};
ghost use Rattle.key.specs.Held.{basis_of};
ghost use Rattle.key.specs.Loading.{Holds};
ghost use Rattle.key.specs.Resting.{resting_basis};

use crate::key::Key;
use crate::memory::constant;
use ring::{Class, filled};

impl Key {
    pub fn resting() -> Key
        ensures class { result.class ≡ One }
        ensures basis { basis_of result ≡ resting_basis }
        ensures held { Holds result One resting_basis.f resting_basis.g resting_basis.F resting_basis.G }
    {
        Key {
            class: Class::One,
            f: constant(0, 1),
            g: constant(0, 1),
            cap_f: filled(0),
            cap_g: constant(0, 1),
        }
    }
}
