//! What the first bytes of a line show of the well-known formats.
ghost use Rattle.std.specs.Prelude.{◌≡◌, true, None};
ghost use Rattle.std.specs.Result.{result_ok};
ghost use Rattle.parsing_components.specs.declared.fields.Record.{Record};
ghost use Rattle.parsing_rfc2822.specs.Direct as rfc2822;
ghost use Rattle.parsing_rfc3339.specs.Direct as rfc3339;
ghost use Rattle.parsing_parsable.specs.Staged.{reads_iso8601};

/// Whether a line has no hyphen after its first four bytes, so that RFC 3339 names no moment for it.
#[inline(always)]
pub(crate) fn has_no_hyphen(line: &[u8]) -> bool
    ensures { result ≡ true → result_ok (rfc3339.direct line.now) ≡ None }
{
    if line.len() < 5 {
        return true;
    }
    line[4] != b'-'
}

/// Whether neither white space nor a comment stands after the one digit or the two that begin a line, so that RFC 2822 names
/// no moment for it.
#[inline(always)]
pub(crate) fn has_no_space(line: &[u8]) -> bool
    ensures { result ≡ true → result_ok (rfc2822.direct line.now) ≡ None }
{
    if line.len() < 3 || !line[0].is_ascii_digit() {
        return false;
    }
    if line[1].is_ascii_digit() {
        line[2] > b'('
    } else {
        line[1] > b'('
    }
}

/// Whether a line is empty, or begins after the digits and with no comma after three bytes, as one stands after a weekday,
/// so that RFC 2822 names no moment for it.
#[inline(always)]
pub(crate) fn begins_no_day(line: &[u8]) -> bool
    ensures { result ≡ true → result_ok (rfc2822.direct line.now) ≡ None }
{
    match line {
        [first, _, _, after, ..] => *first > b'9' && *after != b',',
        [first, ..] => *first > b'9',
        [] => true,
    }
}

/// Whether a line is empty or begins after the digits, and with neither a `T` nor a `Z`, so that ISO 8601 reads no part
/// of it.
#[inline(always)]
pub(crate) fn begins_no_part(line: &[u8]) -> bool
    ensures { result ≡ true → (r : Record) → result_ok (reads_iso8601 r line.now) ≡ None }
{
    match line {
        [first, ..] => *first > b'9' && *first != b'T' && *first != b'Z',
        [] => true,
    }
}
