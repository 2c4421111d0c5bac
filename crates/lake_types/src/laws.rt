//! What holds of values. Each function's contract is a law, and its body is empty.

ghost use Rattle.lake_types.specs.Laws.{Flips, HasOneValue, IsTransitive, OnlyEqualsTie};

/// A text is that of one value of a type, so `value_of` gives back the value whose text `text_of` gave.
pub fn each_text_has_one_value()
    ensures { HasOneValue }
{}

/// The order that `compare` tells is a total order on the values of one variant, and only equal values tie.
pub fn values_are_ordered()
    ensures flips { Flips }
    ensures transitive { IsTransitive }
    ensures ties { OnlyEqualsTie }
{}
