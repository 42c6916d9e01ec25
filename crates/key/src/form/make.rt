// Making the form of a key.
ghost use Rattle.std.specs.Prelude.{◌≡◌, ◌*◌, ◌≤◌, true, [], ◌∷◌, length, replicate, pos, ◌+ℤ◌, OnErr};
ghost use Rattle.ring.specs.Calls.{of_class};
ghost use Rattle.ring.specs.Classes.{size_of};
ghost use Rattle.ring.specs.Elements.{adjoint, coefficient};
ghost use Rattle.ring.specs.Faults.{Answers};
ghost use Rattle.scheme.specs.Keys.{all_within, key_limit};
ghost use Rattle.key.specs.Loading.{scratch_test};
ghost use Rattle.key.specs.Making.{starred, Made, Known};
ghost use Rattle.key.specs.Refusals.{key_fault};
ghost use Rattle.key.specs.Stored.{padded, room_of};

use crate::fault::KeyFault;
use crate::form::Form;
use crate::key::Key;
use crate::product::Product;
use crate::scratch::Guard;
use ring::filled;

// A column of a key's basis: (f, g) or (F, G).
#[derive(Clone, Copy)]
struct Column<'a> {
    top: &'a [i8],
    bottom: &'a [i8],
    ghost class: { of_class (length top.now) ≡ true },
    ghost few: { length top.now ≤ room_of },
    ghost long: { length bottom.now ≡ length top.now },
    ghost small_top: { all_within key_limit top.now ≡ true },
    ghost small_bottom: { all_within key_limit bottom.now ≡ true },
}

// Coefficient k of the sum of two products.
fn sum_at(top: &Product<'_, '_>, bottom: &Product<'_, '_>, k: usize) -> i32
    ensures { result ≡ coefficient (adjoint top.now.a.now) top.now.b.now k +ℤ coefficient (adjoint bottom.now.a.now) bottom.now.b.now k }
{
    (top.at(k) + bottom.at(k)) as i32
}

// The sums of two products, as far as an element goes.
fn write_sums(top: &Product<'_, '_>, bottom: &Product<'_, '_>, numbers: &mut [i32])
    requires long { length numbers.old ≡ length top.now.a.now }
    requires same { length bottom.now.a.now ≡ length top.now.a.now }
    ensures { numbers.new ≡ starred top.now.a.now top.now.b.now bottom.now.a.now bottom.now.b.now }
{
    for (k, number) in numbers.iter_mut().enumerate() {
        *number = sum_at(top, bottom, k);
    }
}

// left*·right, the sum of both products, in fixed memory.
fn entry<'a>(left: Column<'a>, right: Column<'a>, words: &mut [i64]) -> [i32; 1024]
    requires same { length right.top.now ≡ length left.top.now }
    requires long { length words.old ≡ 4 * length left.top.now }
    ensures { result ≡ padded (starred left.entry.top.now right.entry.top.now left.entry.bottom.now right.entry.bottom.now) }
{
    let n = left.top.len();
    let (top_words, bottom_words) = words.split_at_mut(2 * n);
    let top = Product::new(left.top, right.top, top_words);
    let bottom = Product::new(left.bottom, right.bottom, bottom_words);
    let mut memory = filled(0);
    let (numbers, _) = memory.split_at_mut(n);
    write_sums(&top, &bottom, numbers);
    memory
}

// The form of a key.
fn formed(key: &Key, words: &mut [i64]) -> Form
    requires { length words.old ≡ 4 * size_of key.now.class }
    ensures made { Made key.now result }
    ensures known { Known key.now }
{
    let first = Column {
        top: key.f(),
        bottom: key.g(),
    };
    let second = Column {
        top: key.cap_f(),
        bottom: key.cap_g(),
    };
    let q00 = entry(first, first, words);
    let q01 = entry(first, second, words);
    let q11 = entry(second, second, words);
    Form {
        class: key.class,
        q00,
        q01,
        q11,
    }
}

impl Key {
    // Replaces the form by that of the key, or refuses and leaves it.
    pub fn make_form(&self, form: &mut Form, scratch: &mut [i64]) -> Result<(), KeyFault>
        ensures answer { Answers key_fault (scratch_test (size_of self.now.class) (length scratch.old) ∷ []) (λ _. Made self.now form.new × Known self.now) result }
        ensures kept { OnErr result (form.new ≡ form.old) }
        ensures wiped { scratch.new ≡ replicate (length scratch.old) (pos 0) }
    {
        let guard = Guard { words: scratch };
        if guard.words.len() != 4 * self.class.size() {
            return Err(KeyFault::Scratch);
        }
        let made = formed(self, guard.words);
        *form = made;
        Ok(())
    }
}
