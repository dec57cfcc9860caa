//! Rules as text, POSIX.1-2024, section 8.3, `TZ`, with the times of RFC 9636, section 3.3.
ghost use Rattle.std.specs.Prelude.{◌≡◌, ◌≤◌, ◌*◌, ◌+◌, IfSome, option_map};
ghost use Rattle.zones_rule.specs.Offsets.{IsWithin, AreOffsets};
ghost use Rattle.zones_rule.specs.Pieces as Pieces;
ghost use Rattle.zones_rule.specs.Grammar as Grammar;

use crate::cut::{byte, letters, number, quoted_bytes};
use crate::rule::{Change, Day, Rule, Summer};

/// What a text says: a rule, and the names of its standard and its summer time, where a rule without summer time has
/// none.
#[derive(Clone, Copy)]
pub struct Footer<'a> {
    pub rule: Rule,
    pub standard_name: &'a [u8],
    pub summer_name: &'a [u8],
}

// A name.
#[tactic(auto, unfolding(crate::specs::Grammar::name, crate::specs::Grammar::quoted, crate::specs::Pieces::after_byte))]
fn read_name(text: &[u8]) -> Option<(&[u8], &[u8])>
    ensures { Pieces.run_view result ≡ Grammar.name text.now }
{
    match text {
        [b'<', rest @ ..] => {
            let (name, rest) = quoted_bytes(rest)?;
            Some((name, byte(b'>', rest)?))
        }
        _ => letters(text),
    }
}

// Minutes or seconds after a colon, if one is there.
#[tactic(auto, unfolding(crate::specs::Pieces::after_byte))]
fn read_sixty(text: &[u8]) -> Option<(u16, &[u8])>
    ensures cut { Pieces.cut_view result ≡ Grammar.sixty text.now }
    ensures bound { IfSome result (λ p. p.0 ≤ 59) }
{
    match text {
        [b':', rest @ ..] => number(0, 59, rest),
        _ => Some((0, text)),
    }
}

// `hh[:mm[:ss]]` in seconds.
#[tactic(auto, unfolding(crate::specs::Grammar::seconds))]
fn read_seconds(most_hours: u16, text: &[u8]) -> Option<(i32, &[u8])>
    requires { most_hours ≤ 167 }
    ensures cut { Pieces.cut_view result ≡ Grammar.seconds most_hours text.now }
    ensures bound { IfSome result (λ p. IsWithin (most_hours * 3600 + 3600) p.0) }
{
    let (hours, text) = number(0, most_hours, text)?;
    let (minutes, text) = read_sixty(text)?;
    let (seconds, text) = read_sixty(text)?;
    Some((
        i32::from(hours) * 3600 + i32::from(minutes) * 60 + i32::from(seconds),
        text,
    ))
}

// The same after a sign, or none.
#[tactic(auto, unfolding(crate::specs::Grammar::signed, crate::specs::Pieces::after_byte))]
fn read_signed(most_hours: u16, text: &[u8]) -> Option<(i32, &[u8])>
    requires { most_hours ≤ 167 }
    ensures cut { Pieces.cut_view result ≡ Grammar.signed most_hours text.now }
    ensures bound { IfSome result (λ p. IsWithin (most_hours * 3600 + 3600) p.0) }
{
    match text {
        [b'-', rest @ ..] => {
            let (time, rest) = read_seconds(most_hours, rest)?;
            Some((-time, rest))
        }
        [b'+', rest @ ..] => read_seconds(most_hours, rest),
        _ => read_seconds(most_hours, text),
    }
}

// An offset, which a text counts to the west.
#[tactic(auto, unfolding(crate::specs::Grammar::offset))]
fn read_offset(text: &[u8]) -> Option<(i32, &[u8])>
    ensures cut { Pieces.cut_view result ≡ Grammar.offset text.now }
    ensures bound { IfSome result (λ p. IsWithin 90_000 p.0) }
{
    let (west, rest) = read_signed(24, text)?;
    Some((-west, rest))
}

// `m.w.d` after an `M`.
#[tactic(auto, unfolding(crate::specs::Grammar::weekday))]
fn read_weekday(text: &[u8]) -> Option<(Day, &[u8])>
    ensures { Pieces.cut_view result ≡ Grammar.weekday text.now }
{
    let (month, rest) = number(1, 12, text)?;
    let rest = byte(b'.', rest)?;
    let (week, rest) = number(1, 5, rest)?;
    let rest = byte(b'.', rest)?;
    let (weekday, rest) = number(0, 6, rest)?;
    Some((Day::Weekday(month as u8, week as u8, weekday as u8), rest))
}

// A day.
#[tactic(auto, unfolding(crate::specs::Grammar::day, crate::specs::Grammar::julian, crate::specs::Grammar::numbered, crate::specs::Pieces::after_byte))]
fn read_day(text: &[u8]) -> Option<(Day, &[u8])>
    ensures { Pieces.cut_view result ≡ Grammar.day text.now }
{
    match text {
        [b'J', rest @ ..] => {
            let (number, rest) = number(1, 365, rest)?;
            Some((Day::Julian(number), rest))
        }
        [b'M', rest @ ..] => read_weekday(rest),
        _ => {
            let (number, rest) = number(0, 365, text)?;
            Some((Day::Numbered(number), rest))
        }
    }
}

// The time of day after a slash, and else two o'clock.
#[tactic(auto, unfolding(crate::specs::Grammar::time, crate::specs::Pieces::after_byte))]
fn read_time(text: &[u8]) -> Option<(i32, &[u8])>
    ensures { Pieces.cut_view result ≡ Grammar.time text.now }
{
    match text {
        [b'/', rest @ ..] => read_signed(167, rest),
        _ => Some((7200, text)),
    }
}

// `,day[/time]`
#[tactic(auto, unfolding(crate::specs::Grammar::change))]
fn read_change(text: &[u8]) -> Option<(Change, &[u8])>
    ensures { Pieces.cut_view result ≡ Grammar.change text.now }
{
    let rest = byte(b',', text)?;
    let (day, rest) = read_day(rest)?;
    let (time, rest) = read_time(rest)?;
    Some((Change { day, time }, rest))
}

// The offset of summer time, an hour ahead of standard time where none is given.
#[tactic(auto, unfolding(crate::specs::Grammar::summer_offset, crate::specs::Pieces::at_byte))]
fn read_summer_offset(standard: i32, text: &[u8]) -> Option<(i32, &[u8])>
    requires { IsWithin 90_000 standard }
    ensures cut { Pieces.cut_view result ≡ Grammar.summer_offset standard text.now }
    ensures bound { IfSome result (λ p. IsWithin 93_600 p.0) }
{
    match text {
        [b',', ..] => Some((standard + 3600, text)),
        _ => read_offset(text),
    }
}

// Summer time after its name.
#[tactic(auto, unfolding(crate::specs::Grammar::summer))]
fn read_summer(standard: i32, text: &[u8]) -> Option<(Summer, &[u8])>
    requires { IsWithin 90_000 standard }
    ensures cut { Pieces.cut_view result ≡ Grammar.summer standard text.now }
    ensures bound { IfSome result (λ p. IsWithin 93_600 p.0.offset) }
{
    let (offset, rest) = read_summer_offset(standard, text)?;
    let (start, rest) = read_change(rest)?;
    let (end, rest) = read_change(rest)?;
    Some((Summer { offset, start, end }, rest))
}

// The rule of a text whose standard time was read, and whose rest is its summer time.
#[tactic(auto, unfolding(crate::specs::Grammar::with_summer))]
fn read_with_summer<'a>(
    standard_name: &'a [u8],
    standard: i32,
    text: &'a [u8],
) -> Option<Footer<'a>>
    requires { IsWithin 90_000 standard }
    ensures read { option_map Grammar.footer_view result
        ≡ Pieces.whole (Grammar.with_summer standard_name.now standard text.now) }
    ensures offsets { IfSome result (λ footer. AreOffsets footer.rule) }
{
    let (summer_name, rest) = read_name(text)?;
    let (summer, rest) = read_summer(standard, rest)?;
    let [] = rest else {
        return None;
    };
    let rule = Rule {
        standard,
        summer: Some(summer),
    };
    Some(Footer {
        rule,
        standard_name,
        summer_name,
    })
}

/// The rule that a whole text is, without line ends: `stdoffset` or `stdoffsetdst[offset],start[/time],end[/time]`. The
/// hours of a time may be up to 167 and have a sign. Any other text is none, also one with summer time but not the days
/// of its changes.
#[tactic(auto, unfolding(crate::specs::Grammar::rule, crate::specs::Pieces::at_end))]
pub fn read_rule(text: &[u8]) -> Option<Footer<'_>>
    ensures read { option_map Grammar.footer_view result ≡ Grammar.rule_of text.now }
    ensures offsets { IfSome result (λ footer. AreOffsets footer.rule) }
{
    let (standard_name, rest) = read_name(text)?;
    let (standard, rest) = read_offset(rest)?;
    let [_, ..] = rest else {
        let rule = Rule {
            standard,
            summer: None,
        };
        return Some(Footer {
            rule,
            standard_name,
            summer_name: rest,
        });
    };
    read_with_summer(standard_name, standard, rest)
}
