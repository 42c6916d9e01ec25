// The elements of a key.
ghost use Rattle.std.specs.Prelude.{◌≡◌, length};
ghost use Rattle.ring.specs.Classes.{size_of};
ghost use Rattle.key.specs.Held.{basis_of};

use crate::key::Key;
use crate::memory::used;

// One accessor for an element: a macro or an index would be no plainer than four lines.
impl Key {
    pub fn f(&self) -> &[i8]
        ensures value { result.now ≡ (basis_of self.now).f }
        ensures len { length result.now ≡ size_of self.now.class }
    {
        used(&self.f, self.class)
    }

    pub fn g(&self) -> &[i8]
        ensures value { result.now ≡ (basis_of self.now).g }
        ensures len { length result.now ≡ size_of self.now.class }
    {
        used(&self.g, self.class)
    }

    // F.
    pub fn cap_f(&self) -> &[i8]
        ensures value { result.now ≡ (basis_of self.now).F }
        ensures len { length result.now ≡ size_of self.now.class }
    {
        used(&self.cap_f, self.class)
    }

    // G.
    pub fn cap_g(&self) -> &[i8]
        ensures value { result.now ≡ (basis_of self.now).G }
        ensures len { length result.now ≡ size_of self.now.class }
    {
        used(&self.cap_g, self.class)
    }
}
