ghost use Rattle.std.specs.Prelude.{◌≡◌, ◌++◌, List, ℕ};
ghost use Rattle.std.specs.List.{AllByRecursion};
ghost use Rattle.row_types.specs.declared.values.Value.{Value};
ghost use Rattle.row_types.specs.Faults.{TextIsShort};
ghost use Rattle.row_digest.specs.Encoding.{encoded, encoded_value, IsEncodable, ValueIsInRange};

/// A law: the spelling of no value begins that of another, so that values can be read back one by one.
pub fn no_spelling_begins_another()
    ensures { (a b : Value) (after_a after_b : List ℕ)
        → TextIsShort a → TextIsShort b → ValueIsInRange a → ValueIsInRange b
        → encoded_value a ++ after_a ≡ encoded_value b ++ after_b
        → (a ≡ b) × (after_a ≡ after_b) }
{}

/// A law: rows with equal encodings are equal.
pub fn encodings_tell_rows_apart()
    ensures { (a b : List Value) → IsEncodable a → IsEncodable b → AllByRecursion ValueIsInRange a → AllByRecursion ValueIsInRange b → encoded a ≡ encoded b → a ≡ b }
{}
