//! What the definitions mean.

ghost use Rattle.std.specs.Prelude.{◌≡◌, ℕ, List, length};
ghost use Rattle.std.specs.Str.{encode_utf8_all};
ghost use Rattle.fault_places.specs.Positions.{characters};

/// Law: in a text of UTF-8, as many characters are counted as it has.
pub fn columns_count_characters()
    ensures { (cs : List ℕ) → characters (encode_utf8_all cs) ≡ length cs }
{}
