// The algebra of keys. The functions here do nothing: their contracts are the theorems, and specs/ says each in full.
#![tactic(auto)]

ghost use Rattle.algebra.specs.Laws.{ElementLaws};
ghost use Rattle.algebra.specs.Isometries.{BasesAreMatrices, OneFormOneJoiner, InvertibleModuloTwo};
ghost use Rattle.algebra.specs.Counting.{FormsOfKeys, Exactly4n};

/// Z[X]/(X^n + 1) over lists of n integers is a commutative ring with one, X^n is −1, and the adjoint keeps sums and products.
pub fn element_laws()
    ensures { ElementLaws }
{}

/// A basis of determinant one has its inverse on both sides, and its form gives squared lengths.
pub fn matrix_laws()
    ensures { BasesAreMatrices }
{}

/// Two keys with one form are joined by one matrix, which only moves numbers and flips signs.
pub fn one_joiner()
    ensures { OneFormOneJoiner }
{}

/// The form of a key has small numbers, and q00 and q11 are their own adjoints.
pub fn forms_of_keys()
    ensures { FormsOfKeys }
{}

/// The form of a key belongs to exactly 4n keys.
pub fn exactly_siblings()
    ensures { Exactly4n }
{}

/// A key is invertible modulo 2: the key times h, modulo 2, determines h modulo 2.
pub fn modulo_two()
    ensures { InvertibleModuloTwo }
{}
