//! The names of weekdays, months and zones, in any case.
//!
//! Three letters stand in one number, the first one highest: one comparison takes a name.
ghost use Rattle.std.specs.Prelude.{◌≡◌, ◌≤◌, IfSome, length};
ghost use Rattle.parsing_combinator.specs.Pieces.{cut_view};
ghost use Rattle.parsing_rfc2822.specs.Names as Names;
ghost use Rattle.parsing_rfc2822.specs.Words.{word_of};

use calendar_count::{Month, Weekday};

// Three letters as one number, in lower case: no other byte becomes a letter by the bit.
#[tactic(auto, using(std::proofs::lemmas::Nat::or_of_8), unfolding(crate::specs::Words::word_of))]
#[inline(always)]
fn word(text: &[u8]) -> u32
    requires { length text.now ≡ 3 }
    ensures { result ≡ word_of text.now }
{
    let (first, second, third) = (text[0] | 0x20, text[1] | 0x20, text[2] | 0x20);
    u32::from(first) * 0x1_0000 + u32::from(second) * 0x100 + u32::from(third)
}

// The weekday of three letters.
#[tactic(auto, using(crate::proofs::WordLemmas::weekday_by_word))]
#[inline(always)]
fn weekday_of(text: &[u8]) -> Option<Weekday>
    requires { length text.now ≡ 3 }
    ensures { result ≡ Names.weekday_of text.now }
{
    match word(text) {
        // mon, tue, wed, thu, fri, sat, sun
        0x6d_6f6e => Some(Weekday::Monday),
        0x74_7565 => Some(Weekday::Tuesday),
        0x77_6564 => Some(Weekday::Wednesday),
        0x74_6875 => Some(Weekday::Thursday),
        0x66_7269 => Some(Weekday::Friday),
        0x73_6174 => Some(Weekday::Saturday),
        0x73_756e => Some(Weekday::Sunday),
        _ => None,
    }
}

/// A weekday's first three letters.
#[tactic(auto, unfolding(crate::specs::Names::weekday))]
#[inline(always)]
pub(crate) fn weekday(bytes: &[u8]) -> Option<(Weekday, &[u8])>
    ensures { cut_view result ≡ Names.weekday bytes.now }
{
    if bytes.len() < 3 {
        return None;
    }
    let (text, rest) = bytes.split_at(3);
    Some((weekday_of(text)?, rest))
}

// The month of three letters.
#[tactic(auto, using(crate::proofs::WordLemmas::month_by_word))]
#[inline(always)]
fn month_of(text: &[u8]) -> Option<Month>
    requires { length text.now ≡ 3 }
    ensures { result ≡ Names.month_of text.now }
{
    match word(text) {
        // jan, feb, mar, apr, may, jun
        0x6a_616e => Some(Month::January),
        0x66_6562 => Some(Month::February),
        0x6d_6172 => Some(Month::March),
        0x61_7072 => Some(Month::April),
        0x6d_6179 => Some(Month::May),
        0x6a_756e => Some(Month::June),
        // jul, aug, sep, oct, nov, dec
        0x6a_756c => Some(Month::July),
        0x61_7567 => Some(Month::August),
        0x73_6570 => Some(Month::September),
        0x6f_6374 => Some(Month::October),
        0x6e_6f76 => Some(Month::November),
        0x64_6563 => Some(Month::December),
        _ => None,
    }
}

/// A month's first three letters.
#[tactic(auto, unfolding(crate::specs::Names::month))]
#[inline(always)]
pub(crate) fn month(bytes: &[u8]) -> Option<(Month, &[u8])>
    ensures { cut_view result ≡ Names.month bytes.now }
{
    if bytes.len() < 3 {
        return None;
    }
    let (text, rest) = bytes.split_at(3);
    Some((month_of(text)?, rest))
}

/// The hours west of Greenwich that three letters name.
#[tactic(auto, using(crate::proofs::WordLemmas::zone_by_word))]
#[inline(always)]
pub fn zone_of(text: &[u8]) -> Option<u8>
    requires { length text.now ≡ 3 }
    ensures meaning { result ≡ Names.zone_of text.now }
    ensures bound { IfSome result (λ hours. hours ≤ 8) }
{
    match word(text) {
        // est, edt, cst, cdt, mst, mdt, pst, pdt, gmt
        0x65_7374 => Some(5),
        0x65_6474 => Some(4),
        0x63_7374 => Some(6),
        0x63_6474 => Some(5),
        0x6d_7374 => Some(7),
        0x6d_6474 => Some(6),
        0x70_7374 => Some(8),
        0x70_6474 => Some(7),
        0x67_6d74 => Some(0),
        _ => None,
    }
}

// `UT`, or one letter other than `J` and `j`.
#[tactic(auto, unfolding(crate::specs::Names::short_zone, crate::specs::Names::military_zone, parsing_combinator::specs::Pieces::byte_of))]
#[cold]
fn short_zone(bytes: &[u8]) -> Option<(u8, &[u8])>
    ensures cut { cut_view result ≡ Names.short_zone bytes.now }
    ensures bound { IfSome result (λ x. x.0 ≤ 8) }
{
    if bytes.eq_ignore_ascii_case(b"ut") {
        return Some((0, b"".as_slice()));
    }
    match bytes {
        [b, rest @ ..] if b.is_ascii_alphabetic() && b.to_ascii_lowercase() != b'j' => {
            Some((0, rest))
        }
        _ => None,
    }
}

/// A zone's name: its hours west of Greenwich.
///
/// `UT` and single letters are names only where fewer than three bytes are left.
#[tactic(auto, unfolding(crate::specs::Names::zone_name))]
#[inline(always)]
pub(crate) fn zone_name(bytes: &[u8]) -> Option<(u8, &[u8])>
    ensures cut { cut_view result ≡ Names.zone_name bytes.now }
    ensures bound { IfSome result (λ x. x.0 ≤ 8) }
{
    if bytes.len() < 3 {
        return short_zone(bytes);
    }
    let (text, rest) = bytes.split_at(3);
    Some((zone_of(text)?, rest))
}
