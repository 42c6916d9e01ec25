// A form: three elements in fixed memory, with what holds of every form in its type.
ghost use Rattle.std.specs.Prelude.{◌≡◌, true};
ghost use Rattle.ring.specs.Elements.{adjoint};
ghost use Rattle.scheme.specs.Keys.{all_within, form_limit};
ghost use Rattle.key.specs.Stored.{front};

use ring::Class;

mod elements;
mod load;
mod make;
mod resting;
mod write;

// q00, q01 and q11; the matrix B*·B has the rows (q00, q01) and (q01*, q11).
#[derive(Drop)]
pub struct Form {
    pub(crate) class: Class,
    pub(crate) q00: [i32; 1024],
    pub(crate) q01: [i32; 1024],
    pub(crate) q11: [i32; 1024],
    ghost small_q00: { all_within form_limit (front class q00) ≡ true },
    ghost small_q01: { all_within form_limit (front class q01) ≡ true },
    ghost small_q11: { all_within form_limit (front class q11) ≡ true },
    ghost selfadjoint_q00: { front class q00 ≡ adjoint (front class q00) },
    ghost selfadjoint_q11: { front class q11 ≡ adjoint (front class q11) },
}
