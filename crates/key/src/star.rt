// The adjoint of an element, in words.
ghost use Rattle.std.specs.Prelude.{◌≡◌, true, map, length};
ghost use Rattle.ring.specs.Calls.{of_class};
ghost use Rattle.ring.specs.Elements.{adjoint as adjoint_of};
ghost use Rattle.ring.specs.Kinds.{word_value};

use ring::{Number, adjoint, widen};

// Writes the element and its adjoint over lent words.
pub(crate) fn star<S: Number>(numbers: &[S], element: &mut [i64], mirror: &mut [i64])
    requires class { of_class (length numbers.now) ≡ true }
    requires element { length element.old ≡ length numbers.now }
    requires mirror { length mirror.old ≡ length numbers.now }
    ensures element { element.new ≡ map S.value numbers.now }
    ensures mirror { map word_value mirror.new ≡ map word_value (adjoint_of (map S.value numbers.now)) }
{
    widen(numbers, element);
    // Both lists have a class's size, so nothing is refused.
    let _ = adjoint(element, mirror);
}
