//! The kind of a text, handed from part to part.
ghost use Rattle.std.specs.Prelude.{◌≡◌, Ok};
ghost use Rattle.parsing_combinator.specs.FaultOf.{Gives, reading_fault};
ghost use Rattle.parsing_combinator.specs.Pieces.{cut_view};
ghost use Rattle.parsing_iso8601.specs.Kinds as Kinds;

use parsing_combinator::{ParseFromDescription, byte};

/// How a text separates its numbers: the basic kind by nothing, the extended kind by hyphens and colons.
#[derive(Clone, Copy, Debug, PartialEq, Eq)]
pub enum Kind {
    /// Not known yet: nothing has separated two numbers.
    Unknown,
    /// As `20030701T105237`.
    Basic,
    /// As `2003-07-01T10:52:37`.
    Extended,
}

/// The kind that a hyphen after the year, or its absence, decides.
#[tactic(auto, unfolding(crate::specs::Kinds::kind_of_date))]
#[inline(always)]
pub fn kind_of_date(bytes: &[u8]) -> (Kind, &[u8])
    ensures { Kinds.kind_of_date bytes.now ≡ Ok (result.0, result.1.now) }
{
    match byte(b'-', bytes) {
        Some(rest) => (Kind::Extended, rest),
        None => (Kind::Basic, bytes),
    }
}

/// Past the hyphen between two numbers of a date, which the extended kind alone has: `InvalidLiteral` where it is not
/// there.
#[inline(always)]
pub fn dash(kind: Kind, bytes: &[u8]) -> Result<&[u8], ParseFromDescription>
    ensures { Gives (λ rest. (tt, rest.now)) reading_fault result (Kinds.dash kind bytes.now) }
{
    match kind {
        Kind::Unknown | Kind::Basic => Ok(bytes),
        Kind::Extended => byte(b'-', bytes).ok_or(ParseFromDescription::InvalidLiteral),
    }
}

/// The kind that a colon after the hour, or its absence, decides.
#[tactic(auto, unfolding(crate::specs::Kinds::kind_of_time))]
#[inline(always)]
pub fn kind_of_time(kind: Kind, bytes: &[u8]) -> Option<(Kind, &[u8])>
    ensures { cut_view result ≡ Kinds.kind_of_time kind bytes.now }
{
    let Some(rest) = byte(b':', bytes) else {
        return Some((kind, bytes));
    };
    match kind {
        Kind::Unknown | Kind::Extended => Some((Kind::Extended, rest)),
        Kind::Basic => None,
    }
}

impl Kind {
    /// The kind of a time whose minutes were read: basic, if it isn't known to be extended.
    #[inline(always)]
    pub fn settled(self) -> Kind
        ensures { result ≡ Kinds.settled self }
    {
        match self {
            Kind::Unknown | Kind::Basic => Kind::Basic,
            Kind::Extended => Kind::Extended,
        }
    }
}
