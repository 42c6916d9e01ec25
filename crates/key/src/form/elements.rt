// The elements of a form.
ghost use Rattle.std.specs.Prelude.{◌≡◌, length};
ghost use Rattle.ring.specs.Classes.{size_of};
ghost use Rattle.key.specs.Gramheld.{gram_of};

use crate::form::Form;
use crate::memory::used;

// One accessor for an element, as for keys.
impl Form {
    pub fn q00(&self) -> &[i32]
        ensures value { result.now ≡ (gram_of self.now).q00 }
        ensures len { length result.now ≡ size_of self.now.class }
    {
        used(&self.q00, self.class)
    }

    pub fn q01(&self) -> &[i32]
        ensures value { result.now ≡ (gram_of self.now).q01 }
        ensures len { length result.now ≡ size_of self.now.class }
    {
        used(&self.q01, self.class)
    }

    pub fn q11(&self) -> &[i32]
        ensures value { result.now ≡ (gram_of self.now).q11 }
        ensures len { length result.now ≡ size_of self.now.class }
    {
        used(&self.q11, self.class)
    }
}
