// Loading a key slip.
ghost use Rattle.std.specs.Prelude.{◌≡◌, ◌*◌, length, replicate, pos, OnErr};
ghost use Rattle.ring.specs.Classes.{size_of};
ghost use Rattle.ring.specs.Faults.{Answers};
ghost use Rattle.slip.specs.declared.kind.Kind.TheVariants.{Key as KeyKind};
ghost use Rattle.key.specs.Loading.{body_tests, key_tests, Loaded};
ghost use Rattle.key.specs.Refusals.{key_fault};

use crate::fault::KeyFault;
use crate::key::Key;
use crate::key::words::Words;
use crate::memory::used;
use crate::scratch::Guard;
use crate::section::{stored, tested};
use slip::{Kind, Slip};

// The largest number of a key, in size.
const KEY_LIMIT: u32 = 127;

// The key that a slip holds.
fn decoded(slip: &Slip<'_>, words: &mut [i64]) -> Result<Key, KeyFault>
    requires kind { slip.now.kind ≡ KeyKind }
    requires long { length words.old ≡ 4 * size_of slip.now.class }
    ensures { Answers key_fault (body_tests slip.now.file.now) (λ k. Loaded slip.now.file.now k) result }
{
    let class = slip.class();
    let f = stored(slip, 0);
    tested(slip, 0, KEY_LIMIT, &f)?;
    let g = stored(slip, 1);
    tested(slip, 1, KEY_LIMIT, &g)?;
    let cap_f = stored(slip, 2);
    tested(slip, 2, KEY_LIMIT, &cap_f)?;
    let cap_g = stored(slip, 3);
    tested(slip, 3, KEY_LIMIT, &cap_g)?;
    let elements = Words::new(
        used(&f, class),
        used(&g, class),
        used(&cap_f, class),
        used(&cap_g, class),
        words,
    );
    elements.sound()?;
    Ok(Key {
        class,
        f,
        g,
        cap_f,
        cap_g,
    })
}

// `Form::load` is alike; one load for both would have to be told how to decode.
impl Key {
    // Replaces the key by that of a slip, or refuses and leaves it.
    pub fn load(&mut self, file: &[u8], scratch: &mut [i64]) -> Result<(), KeyFault>
        ensures answer { Answers key_fault (key_tests file.now (length scratch.old)) (λ _. Loaded file.now self.new) result }
        ensures kept { OnErr result (self.new ≡ self.old) }
        ensures wiped { scratch.new ≡ replicate (length scratch.old) (pos 0) }
    {
        let guard = Guard { words: scratch };
        let slip = Slip::read(file, Kind::Key)?;
        if guard.words.len() != 4 * slip.class().size() {
            return Err(KeyFault::Scratch);
        }
        let key = decoded(&slip, guard.words)?;
        *self = key;
        Ok(())
    }
}
