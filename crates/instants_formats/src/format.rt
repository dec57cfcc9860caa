//! What a format is.

/// What the lines of a format do not say of their date-times.
#[derive(Clone, Copy, Debug, PartialEq, Eq)]
pub enum Lacking {
    /// They say all.
    Nothing,
    /// Their text says UTC, which has the offset +00:00 and no other.
    Utc,
    /// They say no offset from UTC.
    Offset,
    /// They say no year, and no offset.
    YearAndOffset,
    /// They say no time of day, and no offset.
    TimeAndOffset,
}

/// A format with a name, which stands for two words: a language and a description in it.
#[derive(Clone, Copy, Debug, PartialEq, Eq)]
pub struct Format {
    /// Its name: small letters, with hyphens between words.
    pub name: &'static str,
    /// The language of its description: `v3` or `strftime`.
    pub language: &'static str,
    /// The description of its date-times.
    pub description: &'static str,
    /// What its lines do not say.
    pub lacks: Lacking,
}
