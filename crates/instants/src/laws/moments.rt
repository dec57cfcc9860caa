//! Laws of the moments at which lines are placed.
ghost use Rattle.std.specs.Prelude.{◌≡◌, ◌↔◌, ℕ, List, Some, Ok, ◌+ℤ◌, ◌-ℤ◌, IsSome, IfSome};
ghost use Rattle.calendar.specs.Duration.{IsDuration};
ghost use Rattle.datetime_wall.specs.Wall.{Shown, instant, IsWallClock};
ghost use Rattle.instants_answers.specs.Text.{moment_text};
ghost use Rattle.instants_timeline.specs.Place.{Setting, place_of, answer_to};

use datetime_types::OffsetDateTime;

/// The difference of two moments at one offset is a duration, and leads from the wall clock of the second to that of the
/// first.
pub fn difference()
    ensures duration { (a b : Shown)
        → a.offset ≡ b.offset → IsWallClock a.wall → IsWallClock b.wall
        → IsDuration (instant a -ℤ instant b) }
    ensures sum { (a b : Shown)
        → a.offset ≡ b.offset → b.wall +ℤ (instant a -ℤ instant b) ≡ a.wall }
{}

/// The second moment moved by the difference of both. Of places of lines at one target it is the first one, and has its
/// line.
pub fn difference_added(a: OffsetDateTime, b: OffsetDateTime) -> Option<OffsetDateTime>
    ensures some { IsSome result ↔ IsWallClock (b.wall +ℤ (instant a -ℤ instant b)) }
    ensures sum { IfSome result (λ m. m
        ≡ record { wall = b.wall +ℤ (instant a -ℤ instant b); offset = b.offset }) }
    ensures one_offset { a.offset ≡ b.offset → result ≡ Some a }
    ensures places { (one other : Setting) (line another : List ℕ)
        → one.target ≡ other.target → place_of one line ≡ Ok a → place_of other another ≡ Ok b
        → result ≡ Some a }
    ensures line { (one other : Setting) (line another : List ℕ)
        → one.target ≡ other.target → place_of one line ≡ Ok a → place_of other another ≡ Ok b
        → IfSome result (λ m. moment_text m ≡ answer_to one line) }
{
    // its range comes with this call
    let _ = a.date();
    b.checked_add(a - b)
}
