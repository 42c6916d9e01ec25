// A place for a key or a form: what their cases have in common.
ghost use Rattle.std.specs.Prelude.{◌≡◌, ℕ, List, length, replicate, pos, Some, OnErr};
ghost use Rattle.ring.specs.declared.class.Class.{Class};
ghost use Rattle.ring.specs.Classes.{code_of, size_of};
ghost use Rattle.ring.specs.Faults.{Answers, Test};
ghost use Rattle.slip.specs.Refusals.{slip_fault};
ghost use Rattle.slip.specs.Slips.{class_named};
ghost use Rattle.slip.specs.Writes.{same_tests};
ghost use Rattle.key.specs.Held.{basis_of};
ghost use Rattle.key.specs.Gramheld.{gram_of};
ghost use Rattle.key.specs.Loading.{Loaded, key_tests};
ghost use Rattle.key.specs.FormLoading.{FormLoaded, form_tests};
ghost use Rattle.key.specs.Writing.{key_slip, form_slip};
ghost use Rattle.cases.specs.Places.{key_words, form_words, key_needed, form_needed, key_slip_in, form_slip_in};
ghost use Rattle.cases.specs.Holding.{key_named, form_named, key_held, form_held};

use key::{Form, Key};
use ring::Fault;
use slip::SlipFault;

pub(crate) trait Place: Drop {
    // What is asked of a file and of a scratch of so many words.
    ghost tests: { List ℕ → ℕ → List Test };

    // It holds what is in a file.
    ghost Holds: { List ℕ → Self → Type 0 };

    ghost class_of: { Self → Class };

    ghost slip_of: { Self → List ℕ };

    ghost slip_in: { List ℕ → List ℕ };

    // The words of the scratch, by the length of a file, and the bytes of a slip, by n.
    ghost words: { ℕ → ℕ };

    ghost needed: { ℕ → ℕ };

    fn at_rest() -> Self;

    // The scratch that a file of this length takes.
    fn scratch_for(length: usize) -> usize
        ensures { result ≡ words length };

    fn fill(&mut self, file: &[u8], scratch: &mut [i64]) -> Result<(), Fault>
        ensures answer { Answers (λ e. e) (tests file.now (length scratch.old)) (λ _. Holds file.now self.new) result }
        ensures wiped { scratch.new ≡ replicate (length scratch.old) (pos 0) };

    fn class_code(&self) -> u8
        ensures { result ≡ code_of (class_of self.now) };

    fn put(&self, area: &mut [u8]) -> Result<(), SlipFault>
        ensures answer { Answers slip_fault (same_tests (length area.old) (needed (size_of (class_of self.now)))) (λ _. area.new ≡ slip_of self.now) result }
        ensures kept { OnErr result (area.new ≡ area.old) };

    ghost named: { (file : List ℕ) (x : Self) → Holds file x → class_named file ≡ Some (class_of x) };

    ghost held: { (file : List ℕ) (x : Self) → Holds file x → slip_of x ≡ slip_in file };
}

impl Place for Key {
    ghost tests = { key_tests };

    ghost Holds = { λ file key. Loaded file key };

    ghost class_of = { λ key. key.class };

    ghost slip_of = { λ key. key_slip key.class (basis_of key) };

    ghost slip_in = { key_slip_in };

    ghost words = { key_words };

    ghost needed = { key_needed };

    ghost named = { key_named };

    ghost held = { key_held };

    fn at_rest() -> Key {
        Key::resting()
    }

    fn scratch_for(length: usize) -> usize {
        length.saturating_sub(8)
    }

    fn fill(&mut self, file: &[u8], scratch: &mut [i64]) -> Result<(), Fault> {
        Ok(self.load(file, scratch)?)
    }

    fn class_code(&self) -> u8 {
        self.class().code()
    }

    fn put(&self, area: &mut [u8]) -> Result<(), SlipFault> {
        self.write(area)
    }
}

impl Place for Form {
    ghost tests = { form_tests };

    ghost Holds = { λ file form. FormLoaded file form };

    ghost class_of = { λ form. form.class };

    ghost slip_of = { λ form. form_slip form.class (gram_of form) };

    ghost slip_in = { form_slip_in };

    ghost words = { form_words };

    ghost needed = { form_needed };

    ghost named = { form_named };

    ghost held = { form_held };

    fn at_rest() -> Form {
        Form::resting()
    }

    fn scratch_for(length: usize) -> usize {
        length.saturating_sub(8) / 3
    }

    fn fill(&mut self, file: &[u8], scratch: &mut [i64]) -> Result<(), Fault> {
        Ok(self.load(file, scratch)?)
    }

    fn class_code(&self) -> u8 {
        self.class().code()
    }

    fn put(&self, area: &mut [u8]) -> Result<(), SlipFault> {
        self.write(area)
    }
}
