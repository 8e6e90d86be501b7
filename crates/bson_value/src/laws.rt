//! Laws of the definitions, each as the contract of a function that does nothing.
ghost use Rattle.std.specs.Prelude.{◌↔◌};
ghost use Rattle.bson_value.specs.Alike.{◌~◌};
ghost use Rattle.bson_value.specs.Place.{LooksTheSame};
ghost use Rattle.bson_value.specs.declared.value.Value.{Value as Datum};

/// Two values are equal up to the order of fields exactly where the same stands at every place of
/// both: the same kind of value, or the same leaf, or nothing. The scope of a code has places too.
pub fn alike_looks_the_same()
    ensures { (a b : Datum) → (a ~ b) ↔ LooksTheSame a b }
{}
