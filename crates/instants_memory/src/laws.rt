//! What follows for calls over the blocks of an input.
ghost use Rattle.std.specs.Prelude.{◌≡◌, ◌≢◌, ◌<◌, ◌⊎◌, ◌∷◌, ◌++◌, ◌+ℤ◌, ◌*ℤ◌, [], ℕ, List, Ok, map, pos};
ghost use Rattle.std.specs.List.{All, flat_map};
ghost use Rattle.base.specs.Bytes.{line_feed};
ghost use Rattle.calendar_count.specs.ComponentRange.{component_name};
ghost use Rattle.calendar_count.specs.declared.component_range.ComponentName.{ComponentName};
ghost use Rattle.datetime_wall.specs.Wall.{Shown, instant, second_nanos};
ghost use Rattle.instants_stream.specs.Answers.{answered, output};
ghost use Rattle.instants_stream.specs.Lines.{lines};
ghost use Rattle.instants_timeline.specs.Place.{Setting, answer_to, place_of};
ghost use Rattle.instants_memory.specs.Numbers.{entry_of, name_number, numbers_of};
ghost use Rattle.instants_memory.specs.OutputFor.{IsOutputFor};
ghost use Rattle.instants_memory.specs.Printed.{HasNumber, entry_line};

use crate::answers::LINE_ROOM;

/// The room that always suffices for a line's answer and the line feed after it: `2021-01-02T03:04:05.000000000+01:00` has 35
/// bytes.
pub fn line_room() -> usize
    ensures { result ≡ 36 }
{
    LINE_ROOM
}

/// Words and an input have one output.
pub fn one_output()
    ensures { (words : List (List ℕ)) (input one other : List ℕ)
        → IsOutputFor words input one → IsOutputFor words input other → one ≡ other }
{}

/// Where a block is empty or ends in a line feed, its output and that of the bytes after it, one after the other, are the
/// output of both together.
pub fn joined_blocks()
    ensures { (words : List (List ℕ)) (first second one other : List ℕ)
        → ((first ≡ []) ⊎ ((prefix : List ℕ) × (first ≡ prefix ++ line_feed ∷ [])))
        → IsOutputFor words first one → IsOutputFor words second other
        → IsOutputFor words (first ++ second) (one ++ other) }
{}

/// The numbers of a moment are its instant: seconds, rounded down, and nanoseconds below a second.
pub fn exact_numbers()
    ensures instant { (moment : Shown) → (numbers_of (Ok moment)).seconds *ℤ pos second_nanos
        +ℤ pos (numbers_of (Ok moment)).nanoseconds ≡ instant moment }
    ensures within { (moment : Shown) → (numbers_of (Ok moment)).nanoseconds < second_nanos }
{}

/// The text of a line's entry is the answer to the line, where the component that a fault names has a number.
pub fn printed_entries()
    ensures line { (setting : Setting) (limit : ℕ) (line : List ℕ) → HasNumber (place_of setting line)
        → answered (answer_to setting) limit line
        ≡ entry_line setting.target (entry_of setting limit line) }
    ensures output { (setting : Setting) (limit : ℕ) (input : List ℕ)
        → All (λ line. HasNumber (place_of setting line)) (lines input)
        → output (answer_to setting) limit input
        ≡ flat_map (entry_line setting.target) (map (entry_of setting limit) (lines input)) }
{}

/// Each component that can be out of range has a number.
pub fn numbered_ranges()
    ensures { (component : ComponentName) → name_number (component_name component) ≢ 0 }
{}
