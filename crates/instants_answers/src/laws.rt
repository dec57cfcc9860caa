//! What holds of the lines of moments: laws, each the contract of a function.
ghost use Rattle.std.specs.Prelude.{◌≡◌, ◌↔◌};
ghost use Rattle.std.specs.Ordering.{nat_cmp, int_cmp};
ghost use Rattle.std.specs.Cmp.Lexicographic.{slice_cmp};
ghost use Rattle.datetime_wall.specs.Wall.{Shown, instant};
ghost use Rattle.instants_answers.specs.Text.{moment_text};
ghost use Rattle.instants_answers.specs.Written.{IsWritten};

/// Lines of moments that are shown at one offset are ordered as bytes exactly as their instants, and are equal exactly
/// where these are.
pub fn order_of_lines()
    ensures order { (a b : Shown)
        → IsWritten a → IsWritten b → a.offset ≡ b.offset → slice_cmp nat_cmp (moment_text a)
        (moment_text b) ≡ int_cmp (instant a) (instant b) }
    ensures equality { (a b : Shown)
        → IsWritten a → IsWritten b → a.offset ≡ b.offset → (moment_text a ≡ moment_text b)
        ↔ (instant a ≡ instant b) }
{}
