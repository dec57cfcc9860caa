//! Laws of the definitions.

ghost use Rattle.std.specs.Prelude.{◌≡◌, ◌++◌, ◌⊎◌, ◌∷◌, [], ℕ, List};
ghost use Rattle.base.specs.Bytes.{line_feed};
ghost use Rattle.instants_stream.specs.Answers.{output};

/// Where the first stream is empty or ends in a line feed, the output of two streams joined is their outputs joined,
/// whatever answers the lines and whatever the limit is.
pub fn joined_streams()
    ensures { (answer : List ℕ → List ℕ) (limit : ℕ) (first second : List ℕ)
        → ((first ≡ []) ⊎ ((prefix : List ℕ) × (first ≡ prefix ++ line_feed ∷ [])))
        → output answer limit (first ++ second)
        ≡ output answer limit first ++ output answer limit second }
{}
