//! Laws of the definitions.
ghost use Rattle.std.specs.Prelude.{◌≡◌, ℕ, List};
ghost use Rattle.line_stream.specs.Lines.{AreLines};

/// All bytes are lines, and in one way alone.
pub fn one_list_of_lines()
    ensures some { (bytes : List ℕ) → (lines : List (List ℕ)) × AreLines bytes lines }
    ensures one { (bytes : List ℕ) (a b : List (List ℕ)) → AreLines bytes a → AreLines bytes b →
        a ≡ b }
{}
