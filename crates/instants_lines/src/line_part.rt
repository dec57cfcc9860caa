//! The part of a line in which its date is looked for, and what is found there.
ghost use Rattle.std.specs.Prelude.{◌≡◌, ◌≤◌, ◌+◌, ◌^◌, ◌<◌, length, IfSome};
ghost use Rattle.instants_lines.specs.Parts.{has_escape, lies_at, moved, place_of_part};
ghost use Rattle.instants_lines_words.specs.Part.{part_of};

use instants_fields::{Member, column, first_escape, json_member};
use instants_found::Found;
use instants_lines_words::LinePart;

/// A line with more bytes has no part.
pub(crate) const LONGEST: usize = 1_048_576;

// How many bytes after a date an escape puts it in doubt.
const NEAR: usize = 16;

// Where a part lies in a line.
fn lies_at(part: &LinePart<'_>, line: &[u8]) -> Option<Member>
    ensures place { result ≡ lies_at (part_of part.now) line.now }
    ensures within { IfSome result (λ place. (place.start ≤ place.end) × (place.end ≤ length line.now)) }
{
    match part {
        LinePart::Field(name) => json_member(line, name.as_bytes()),
        LinePart::Column { number, separator } => {
            let column = column(line, *number, *separator)?;
            Some(Member {
                start: column.start,
                end: column.end,
                repeats: false,
            })
        }
    }
}

/// Where a part lies in a line, which has none where it is too long.
#[tactic(auto, unfolding(crate::specs::Parts::place_of_part))]
pub(crate) fn place_of_part(part: &LinePart<'_>, line: &[u8]) -> Option<Member>
    ensures place { result ≡ place_of_part (part_of part.now) line.now }
    ensures within { IfSome result (λ place. (place.start ≤ place.end) × (place.end ≤ length line.now)) }
{
    if line.len() > LONGEST {
        return None;
    }
    lies_at(part, line)
}

/// Whether a date is in doubt in the text of a part, since an escape begins in it or near behind it.
#[tactic(auto, using(crate::proofs::Escapes::escape_within))]
pub(crate) fn has_escape(part: &LinePart<'_>, text: &[u8], date: &Found) -> bool
    requires start { date.now.start ≤ length text.now }
    requires end { date.now.end ≤ length text.now }
    ensures { result ≡ has_escape (part_of part.now) text.now date.now }
{
    let LinePart::Field(_) = part else {
        return false;
    };
    match first_escape(&text[date.start..]) {
        Some(place) => date.start + place < date.end + NEAR,
        None => false,
    }
}

/// A date by the places of a line in which its part begins at this one.
pub(crate) fn moved(at: usize, date: Found) -> Found
    requires start { at + date.start < 2 ^ 64 }
    requires end { at + date.end < 2 ^ 64 }
    ensures { result ≡ moved at date }
{
    let mut date = date;
    date.start += at;
    date.end += at;
    date
}
