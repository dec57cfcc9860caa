//! How an offset is written.
ghost use Rattle.std.specs.Prelude.{◌≡◌, ◌==◌, true};
ghost use Rattle.parsing_places.specs.Tail.{is_written, is_zulu};

/// How the offset at the end of a text is written.
#[derive(Clone, Copy)]
pub enum Ending {
    /// `Z`, for UTC.
    Zulu,
    /// A sign, hours and minutes, as `+0530`.
    Plain,
    /// The same with a colon, as `+05:30`.
    Colon,
}

/// How the offset can be written that a byte ends, with a colon or without.
#[inline(always)]
pub fn ending_of(last: u8, has_colon: bool) -> Ending
    ensures written { is_written has_colon result ≡ true }
    ensures zulu { is_zulu result ≡ (last == 90) }
{
    if last == b'Z' {
        return Ending::Zulu;
    }
    if has_colon {
        Ending::Colon
    } else {
        Ending::Plain
    }
}
