//! Prefixes of RFC 3339 as whole texts: where such a date ends, its first bytes show.
ghost use Rattle.std.specs.Prelude.{◌≡◌, ◌<◌, ◌≤◌, [], length, IfSome};
ghost use Rattle.parsing_values.specs.Moment.{moment_of};
ghost use Rattle.parsing_parsable.specs.Staged.{reads_rfc3339};
ghost use Rattle.parsing_record.specs.Prefix.{NamesPrefix};
ghost use Rattle.parsing_record.specs.Record.{empty};

use instants_edges::byte_at;
use parsing_parsable::laws::two_roads_of_rfc3339;
use parsing_values::Fields;

// The bytes of a date and a time of day to the second.
const SECONDS_END: usize = 19;

// The place after the digits that stand from a place on.
#[inline(always)]
fn end_of_digits(bytes: &[u8], from: usize) -> usize
    requires { from ≤ length bytes.now }
    ensures { result ≤ length bytes.now }
{
    for at in from..bytes.len() {
        if !bytes[at].is_ascii_digit() {
            return at;
        }
    }
    bytes.len()
}

// How many bytes a date of RFC 3339 at the start has, by the digits of its fraction and by how its offset begins.
#[inline(always)]
fn length_of_date(bytes: &[u8]) -> Option<usize>
    ensures { IfSome result (λ count. count ≤ length bytes.now) }
{
    if bytes.len() <= SECONDS_END {
        return None;
    }
    let offset = if bytes[SECONDS_END] == b'.' {
        end_of_digits(bytes, SECONDS_END + 1)
    } else {
        SECONDS_END
    };
    let count = match byte_at(bytes, offset) {
        b'Z' => offset + 1,
        b'+' | b'-' => offset + 6,
        _ => return None,
    };
    if count > bytes.len() {
        return None;
    }
    Some(count)
}

/// The fields of a date of RFC 3339 at the start of bytes, and what stands after it, where the fast way reads it: `None`
/// says nothing of the bytes.
#[inline(always)]
pub(crate) fn fast_prefix(bytes: &[u8]) -> Option<(Fields, &[u8])>
    ensures { IfSome result
        (λ x. NamesPrefix reads_rfc3339 empty bytes.now x.1.now (moment_of x.0)) }
{
    two_roads_of_rfc3339();
    let count = length_of_date(bytes)?;
    let fields = parsing_rfc3339::read_fields(&bytes[..count])?;
    Some((fields, &bytes[count..]))
}

// No date has more bytes that the fast way reads.
const LONGEST: usize = 64;

/// The fields of a text that is a date of RFC 3339 and nothing else, where the fast way reads it: `None` says nothing of
/// the text.
#[inline(always)]
pub(crate) fn fast_whole(text: &[u8]) -> Option<Fields>
    ensures names { IfSome result
        (λ fields. NamesPrefix reads_rfc3339 empty text.now [] (moment_of fields)) }
    ensures some { IfSome result (λ _. 0 < length text.now) }
    ensures short { IfSome result (λ _. length text.now ≤ 64) }
{
    two_roads_of_rfc3339();
    if text.is_empty() || text.len() > LONGEST {
        return None;
    }
    let Some(fields) = parsing_rfc3339::read_fields(text) else {
        return None;
    };
    Some(fields)
}
