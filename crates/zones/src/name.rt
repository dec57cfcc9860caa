//! Names of zones, which are looked up as paths below a folder.
ghost use Rattle.std.specs.Prelude.{◌≡◌, ◌↔◌, IsTrue};
ghost use Rattle.zones.specs.Name.{is_name_byte, IsZoneName};

/// The most bytes that a zone's name may have.
pub const NAME_LIMIT: usize = 64;

// A letter, a digit, `_`, `+`, `-` or `/`.
fn is_name_byte(byte: u8) -> bool
    ensures { result ≡ is_name_byte byte }
{
    matches!(byte, b'a'..=b'z' | b'A'..=b'Z' | b'0'..=b'9' | b'_' | b'+' | b'-' | b'/')
}

/// Whether a text can be a zone's name, as `Europe/Berlin`. None leads out of a folder: a name has no point, and does not
/// begin with `/`.
pub fn is_zone_name(text: &[u8]) -> bool
    ensures { IsTrue result ↔ IsZoneName text.now }
{
    !text.is_empty()
        && text.len() <= NAME_LIMIT
        && text[0] != b'/'
        && text.iter().all(|byte| is_name_byte(*byte))
}
