//! Laws of what is written, each the contract of a function.
ghost use Rattle.std.specs.Prelude.{◌≡◌, ◌<◌, ◌≤◌, ◌↔◌, ◌+◌, ℕ, ℤ, true, false, Option, List, [], ◌∷◌, ◌++◌, Some, None, Ok, Err, length, take, drop, map, decimal, IsOk};
ghost use Rattle.std.specs.Ordering.{nat_cmp, int_cmp};
ghost use Rattle.std.specs.Cmp.Lexicographic.{slice_cmp};
ghost use Rattle.base.specs.Bytes.{tab, line_feed};
ghost use Rattle.datetime_wall.specs.Wall.{Shown, instant};
ghost use Rattle.instants_answers.specs.Text.{moment_text};
ghost use Rattle.instants_edges.specs.Beside.{has_another_offset, has_half_after};
ghost use Rattle.instants_prefixes.specs.Lengths.{lengths};
ghost use Rattle.instants_prefixes.specs.Reading.{is_likely, may_begin, record_at, text_for};
ghost use Rattle.instants_prefixes.specs.declared.given.Years.TheVariants.{Unknown};
ghost use Rattle.instants_found.specs.declared.found.Found.{Found};
ghost use Rattle.instants_found.specs.declared.found.Finding.{Finding};
ghost use Rattle.instants_found.specs.declared.found.Finding.TheVariants.{Doubtful, There};
ghost use Rattle.instants_sources.specs.Grammar.{Grammar};
ghost use Rattle.instants_sources.specs.Named.{named};
ghost use Rattle.instants_stream.specs.Lines.{whole_lines, last_part, lines};
ghost use Rattle.instants_stream.specs.Steps.{line_said, line_next, after, output};
ghost use Rattle.instants_timeline.specs.Place.{Setting, first_named, answer_to};
ghost use Rattle.instants_faults.specs.Refusal.{Refusal};
ghost use Rattle.instants_lines.specs.Dates.{Search, date_in, place_of_date, key_of_date, replaced, says_no_offset};
ghost use Rattle.instants_lines.specs.Explained.{IsFirstToName, explained};
ghost use Rattle.instants_lines.specs.Fields.{IsLabel, is_field, without_fields};
ghost use Rattle.instants_lines.specs.Going.{Going, IsKeyed, below, beginning, depth, goes_on, is_explain, key_of_line, lines_steps, near, text_in};
ghost use Rattle.instants_lines.specs.Joining.{AreJoined, IsEnded};
ghost use Rattle.instants_lines.specs.Parts.{PartSaid, text_of_part};
ghost use Rattle.instants_lines_words.specs.declared.mode.Mode.{Mode};
ghost use Rattle.instants_lines_words.specs.declared.mode.Mode.TheVariants.{Carry, Replace, Explain};

pub use instants_lines_words::laws::words_in_full;
use parsing_parsable::laws::{two_roads_of_rfc2822, two_roads_of_rfc3339};

/// What stands before and after the date of a line is unchanged where it is replaced, and between them stands the
/// date-time, if its year is written. The date has a byte at least and lies within the line, also where it is looked for in a part
/// of it. All other lines stay, and so does one whose date is in doubt.
pub fn outside_unchanged()
    ensures within { (search : Search) (line : List ℕ) (date : Found)
        → date_in search line ≡ Some (There date)
        → (date.start < date.end) × (date.end ≤ length line) }
    ensures written { (search : Search) (line : List ℕ) (date : Found) (moment : Shown)
        → date_in search line ≡ Some (There date)
        → place_of_date search.setting date ≡ Ok moment
        → replaced search line
        ≡ take date.start line ++ (moment_text moment ++ drop date.end line) }
    ensures unwritten { (search : Search) (line : List ℕ) (date : Found) (refusal : Refusal)
        → date_in search line ≡ Some (There date)
        → place_of_date search.setting date ≡ Err refusal
        → replaced search line ≡ line }
    ensures doubtful { (search : Search) (line : List ℕ) (place : ℕ)
        → date_in search line ≡ Some (Doubtful place) → replaced search line ≡ line }
    ensures undated { (search : Search) (line : List ℕ)
        → date_in search line ≡ None → replaced search line ≡ line }
{}

/// Replacing twice is replacing once, where the date of the written line is the date-time that was written, and names the
/// same instant there. What is given for dates that lack it may be another the second time.
pub fn replaced_twice()
    ensures { (search below : Search) (line : List ℕ) (date again : Found) (moment : Shown)
        → below.setting ≡ search.setting
        → date_in search line ≡ Some (There date)
        → place_of_date search.setting date ≡ Ok moment
        → date_in below (replaced search line) ≡ Some (There again)
        → again.start ≡ date.start → again.end ≡ date.start + length (moment_text moment)
        → instant again.moment ≡ instant date.moment
        → replaced below (replaced search line) ≡ replaced search line }
{}

/// A line for which its one source names a moment has its answer as its key: where dates are looked for in whole lines, what the
/// source is given of the line is all of it, and its date begins where the line does. A number of Unix time has to be likely for it,
/// and a line of RFC 2822 to begin with its weekday or its day. In mode `carry` the line does not go on with the one above. The source
/// names the moment whether the offset is assumed or not; or it reads no offset, as `%F %T` in the line `2024-05-01 10:00:00`, and the
/// line says neither another one than that which is assumed nor a half of the day after its date.
pub fn whole_line()
    ensures alike { (going : Going) (grammar : Grammar) (line : List ℕ) (moment : Shown)
        → going.search.part ≡ None
        → going.search.setting.sources ≡ grammar ∷ []
        → goes_on going.mode going.indent line ≡ false
        → named None grammar line ≡ Ok moment
        → named going.search.setting.assumed grammar line ≡ Ok moment
        → 0 < going.search.limit → 0 < length line
        → text_for grammar line ≡ line → may_begin grammar line ≡ true
        → is_likely (record_at grammar line).unix_timestamp_nanos ≡ true → (lengths grammar line []).begins ≡ 0
        → key_of_line going line ≡ answer_to going.search.setting line }
    ensures assumed { (going : Going) (source : Grammar) (line : List ℕ) (moment : Shown)
        (offset : ℤ)
        → going.search.part ≡ None
        → going.search.setting.sources ≡ source ∷ []
        → goes_on going.mode going.indent line ≡ false
        → going.search.setting.assumed ≡ Some offset → going.search.given.offset ≡ Some offset
        → going.search.given.zone ≡ None
        → named (Some offset) source line ≡ Ok moment
        → says_no_offset (record_at source line) ≡ true
        → has_another_offset line 0 (lengths source line []).ends offset ≡ false
        → has_half_after line (lengths source line []).ends ≡ false
        → 0 < going.search.limit → 0 < length line
        → text_for source line ≡ line → may_begin source line ≡ true
        → is_likely (record_at source line).unix_timestamp_nanos ≡ true
        → (lengths source line []).begins ≡ 0 → key_of_line going line ≡ answer_to going.search.setting line }
{
    two_roads_of_rfc3339();
    two_roads_of_rfc2822();
}

/// Where dates are looked for in a part of each line, what stands beside that changes no key: lines whose parts have the same bytes
/// have one key, and so have lines without such a part. In mode `carry` both or neither go on with the line above.
pub fn beside_part()
    ensures { (going : Going) (part : PartSaid) (one other : List ℕ)
        → going.search.part ≡ Some part
        → text_of_part part one ≡ text_of_part part other
        → goes_on going.mode going.indent one ≡ goes_on going.mode going.indent other
        → key_of_line going one ≡ key_of_line going other }
{}

/// Keys that are date-times at one target, from whatever sources and with whatever offset assumed, are ordered as bytes
/// exactly as the instants that the dates name, and are equal exactly where these are.
pub fn order_of_keys()
    ensures order { (one other : Setting) (date another : Found) → one.target ≡ other.target
        → IsOk (place_of_date one date) → IsOk (place_of_date other another)
        → slice_cmp nat_cmp (key_of_date one date) (key_of_date other another)
        ≡ int_cmp (instant date.moment) (instant another.moment) }
    ensures equality { (one other : Setting) (date another : Found) → one.target ≡ other.target
        → IsOk (place_of_date one date) → IsOk (place_of_date other another)
        → (key_of_date one date ≡ key_of_date other another)
        ↔ (instant date.moment ≡ instant another.moment) }
{}

/// Where the first of two streams is empty or ends in a line feed, the output of both joined is the output of the first,
/// and after it the output of the second with what is kept of the lines of the first. Nothing is kept where lines are
/// explained, and in modes `key` and `replace` where no year is given; and in mode `carry`, where none is, what is kept
/// counts for nothing if the second stream begins with a line at the margin in which a date is found, be it in doubt.
pub fn joined_streams()
    ensures joined { (going : Going) (limit : ℕ) (first second : List ℕ) → IsEnded first
        → AreJoined going (after lines_steps limit going (whole_lines first)) limit first second }
    ensures others { (going : Going) (limit : ℕ) (first second : List ℕ)
        → (going.mode ≡ Carry → ⊥) → going.search.given.years ≡ Unknown → IsEnded first
        → AreJoined going going limit first second }
    ensures explained { (going : Going) (limit : ℕ) (first second : List ℕ)
        → going.mode ≡ Explain → IsEnded first → AreJoined going going limit first second }
    ensures carry { (going : Going) (first second line : List ℕ) (others : List (List ℕ))
        (finding : Finding)
        → going.mode ≡ Carry → going.search.given.years ≡ Unknown → IsEnded first
        → lines second ≡ line ∷ others → depth line ≡ 0
        → date_in going.search line ≡ Some finding
        → AreJoined going going (near going.mode going.search) first second }
{}

/// Where a source names a moment for a line, mode `explain` gives the number of the first one that does, the least, and the
/// answer of `instants` to the line.
pub fn explained_answer()
    ensures { (setting : Setting) (line : List ℕ) (moment : Shown)
        → first_named setting.assumed setting.sources line ≡ Ok moment
        → (first : IsFirstToName setting line moment)
        × (explained setting line
        ≡ (decimal (length first.before + 1) ++ tab ∷ []) ++ answer_to setting line) }
{}

/// Where lines are not explained, what is written for a line of any length is its text and a line feed, as if it had been looked at
/// whole, and so is what is kept for the lines below it.
pub fn handed_on()
    ensures said { (going : Going) (line : List ℕ) → is_explain going.mode ≡ false
        → line_said lines_steps (near going.mode going.search) going line
        ≡ text_in going.mode going line ++ line_feed ∷ [] }
    ensures next { (going : Going) (line : List ℕ) → is_explain going.mode ≡ false
        → line_next lines_steps (near going.mode going.search) going line
        ≡ below going line }
{}

/// In mode `replace` the output has as many line feeds as the stream, and a last line without one stays so.
pub fn lines_stay()
    ensures fed { (going : Going) (stream : List ℕ) → going.mode ≡ Replace
        → length (whole_lines (output lines_steps going (near going.mode going.search) stream))
        ≡ length (whole_lines stream) }
    ensures last { (going : Going) (stream : List ℕ) → going.mode ≡ Replace
        → (last_part (output lines_steps going (near going.mode going.search) stream) ≡ [])
        ↔ (last_part stream ≡ []) }
{}

/// In modes `key` and `carry` the lines of the output, without what stands before each one's first tab, and without the label
/// where there is one, are the lines of the stream.
pub fn without_keys()
    ensures from_beginning { (mode : Mode) (label : Option (List ℕ)) (search : Search)
        (stream : List ℕ) → IsKeyed mode → IsLabel label
        → map (without_fields label)
        (lines (output lines_steps (beginning mode label search) (near mode search) stream))
        ≡ lines stream }
    ensures from_anywhere { (going : Going) (stream : List ℕ)
        → IsKeyed going.mode → IsLabel going.label
        → is_field going.key ≡ true
        → map (without_fields going.label)
        (lines (output lines_steps going (near going.mode going.search) stream))
        ≡ lines stream }
{}
