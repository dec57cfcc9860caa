//! Laws of the answers to lines.
ghost use Rattle.std.specs.Prelude.{◌≡◌, ◌<◌, ◌≤◌, ◌↔◌, ℕ, List, [], ◌∷◌, ◌++◌, Option, Ok, Err, length, ℤ};
ghost use Rattle.std.specs.Ordering.{nat_cmp, int_cmp};
ghost use Rattle.std.specs.Cmp.Lexicographic.{slice_cmp};
ghost use Rattle.base.specs.Bytes.{line_feed};
ghost use Rattle.calendar.specs.UtcOffset.{IsClockOffset};
ghost use Rattle.datetime_wall.specs.Wall.{Shown, instant};
ghost use Rattle.parsing_combinator.specs.Fault.{Fault};
ghost use Rattle.instants_answers.specs.Text.{moment_text};
ghost use Rattle.instants_answers.specs.Written.{IsWritten};
ghost use Rattle.instants_sources.specs.Grammar.{Grammar};
ghost use Rattle.instants_sources.specs.Grammar as grammar;
ghost use Rattle.instants_sources.specs.Named.{named};
ghost use Rattle.instants_stream.specs.Answers.{answered, output};
ghost use Rattle.instants_timeline.specs.Place.{Setting, first_named, shown_or_refused, place_text, answer_to};
ghost use Rattle.instants.specs.Answered.{IsAnswered, with_target};
ghost use Rattle.instants.specs.Appended.{with_source};
ghost use Rattle.instants.specs.FixedPoint.{ReadsLines, alone};
ghost use Rattle.instants.specs.Output.{IsAnsweredIn, written};

/// One source more, after the others, leaves the answer to each line for which another one has a moment, also where the
/// answer is `! year`. Any other line gets the new source's date-time or `! year`, or it keeps its fault. A line that is
/// longer than the limit stays `! long`.
pub fn appended()
    ensures kept { (setting : Setting) (grammar : Grammar) (line : List ℕ) (moment : Shown)
        → first_named setting.assumed setting.sources line ≡ Ok moment
        → answer_to (with_source setting grammar) line ≡ answer_to setting line }
    ensures gained { (setting : Setting) (grammar : Grammar) (line : List ℕ) (fault : Fault)
        (moment : Shown)
        → first_named setting.assumed setting.sources line ≡ Err fault
        → named setting.assumed grammar line ≡ Ok moment
        → answer_to (with_source setting grammar) line
        ≡ place_text (shown_or_refused setting.target (Ok moment)) }
    ensures refused { (setting : Setting) (grammar : Grammar) (line : List ℕ) (fault other : Fault)
        → 0 < length setting.sources
        → first_named setting.assumed setting.sources line ≡ Err fault
        → named setting.assumed grammar line ≡ Err other
        → answer_to (with_source setting grammar) line ≡ answer_to setting line }
    ensures long { (setting : Setting) (grammar : Grammar) (limit : ℕ) (line : List ℕ)
        → limit < length line
        → answered (answer_to (with_source setting grammar)) limit line
        ≡ answered (answer_to setting) limit line }
{}

/// Lines that are answered by date-times at one target, from whatever sources and with whatever offset assumed, are
/// ordered as bytes exactly as the instants that the sources name, and are equal exactly where these are. So are they in
/// what is written for any streams, where each stands after the answers to the lines before it, with a line feed.
pub fn embedding()
    ensures order { (one other : Setting) (line another : List ℕ) (m n : Shown)
        → one.target ≡ other.target → IsAnswered one line m → IsAnswered other another n
        → slice_cmp nat_cmp (answer_to one line) (answer_to other another)
        ≡ int_cmp (instant m) (instant n) }
    ensures equality { (one other : Setting) (line another : List ℕ) (m n : Shown)
        → one.target ≡ other.target → IsAnswered one line m → IsAnswered other another n
        → (answer_to one line ≡ answer_to other another) ↔ (instant m ≡ instant n) }
    ensures output { (setting : Setting) (limit : ℕ) (stream line : List ℕ)
        (before after : List (List ℕ)) (m : Shown)
        → IsAnsweredIn setting limit stream before line after m
        → output (answer_to setting) limit stream
        ≡ written setting limit before
        ++ ((answer_to setting line ++ line_feed ∷ []) ++ written setting limit after) }
{}

/// The line of a moment, read by RFC 3339 alone or by ISO 8601 alone, names that moment, whatever offset is assumed. The
/// line of any moment has at most 35 bytes.
pub fn lines_read_again()
    ensures rfc3339 { (m : Shown) → IsWritten m → IsClockOffset m.offset → (assumed : Option ℤ)
        → named assumed grammar.Rfc3339 (moment_text m) ≡ Ok m }
    ensures iso8601 { (m : Shown) → IsWritten m → IsClockOffset m.offset → (assumed : Option ℤ)
        → named assumed grammar.Iso8601 (moment_text m) ≡ Ok m }
    ensures length { (m : Shown) → length (moment_text m) ≤ 35 }
{}

/// A written line, read again by RFC 3339 alone or by ISO 8601 alone, with any offset assumed or none and a limit of at
/// least 35, is answered at every target as the line that it was written for is answered there, `! year` included. So at
/// its own target it is written as itself.
pub fn fixed_point()
    ensures answer { (setting : Setting) (grammar : Grammar) (assumed : Option ℤ) (target : ℤ)
        (limit bound : ℕ) (line : List ℕ) (m : Shown)
        → IsClockOffset setting.target → IsAnswered setting line m → length line ≤ bound
        → ReadsLines grammar → 35 ≤ limit
        → answered (answer_to (alone grammar target assumed)) limit (answer_to setting line)
        ≡ answered (answer_to (with_target setting target)) bound line }
    ensures itself { (setting : Setting) (grammar : Grammar) (assumed : Option ℤ) (limit : ℕ)
        (line : List ℕ) (m : Shown)
        → IsClockOffset setting.target → IsAnswered setting line m → ReadsLines grammar → 35 ≤ limit
        → answered (answer_to (alone grammar setting.target assumed)) limit (answer_to setting line)
        ≡ answer_to setting line ++ line_feed ∷ [] }
{}

/// Lines that are answered by date-times at each of two targets have the same order, and the same equality, at both.
pub fn two_targets()
    ensures order { (one other : Setting) (target : ℤ) (line another : List ℕ) (m n : Shown)
        → one.target ≡ other.target → IsAnswered one line m → IsAnswered other another n
        → IsAnswered (with_target one target) line m
        → IsAnswered (with_target other target) another n
        → slice_cmp nat_cmp (answer_to one line) (answer_to other another)
        ≡ slice_cmp nat_cmp (answer_to (with_target one target) line)
        (answer_to (with_target other target) another) }
    ensures equality { (one other : Setting) (target : ℤ) (line another : List ℕ) (m n : Shown)
        → one.target ≡ other.target → IsAnswered one line m → IsAnswered other another n
        → IsAnswered (with_target one target) line m
        → IsAnswered (with_target other target) another n
        → (answer_to one line ≡ answer_to other another)
        ↔ (answer_to (with_target one target) line ≡ answer_to (with_target other target) another) }
{}
