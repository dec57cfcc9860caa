//! The versions of the language of descriptions.

ghost use Rattle.std.specs.Prelude.{◌≡◌};
ghost use Rattle.description_lexer.specs.Version.{is_one, is_three};

/// The version of the language that a description is written in.
#[derive(Clone, Copy, Debug, PartialEq, Eq)]
pub enum DescriptionVersion {
    /// The first: `[[` is a bracket, and the case of letters in brackets says nothing.
    One,
    /// The second: a backslash takes a bracket or a backslash as it stands, and the case of letters in brackets says
    /// nothing.
    Two,
    /// The third: as the second, but names, keys and values are written in small letters, and descriptions nest.
    Three,
}

impl DescriptionVersion {
    /// Whether it is the first version.
    #[inline(always)]
    pub fn is_one(self) -> bool
        ensures value { result ≡ is_one self }
    {
        match self {
            DescriptionVersion::One => true,
            DescriptionVersion::Two | DescriptionVersion::Three => false,
        }
    }

    /// Whether it is the third version.
    #[inline(always)]
    pub fn is_three(self) -> bool
        ensures value { result ≡ is_three self }
    {
        match self {
            DescriptionVersion::One | DescriptionVersion::Two => false,
            DescriptionVersion::Three => true,
        }
    }
}
