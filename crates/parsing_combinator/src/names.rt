//! Names.
ghost use Rattle.std.specs.Prelude.{◌≡◌, ◌≤◌, Some, None, false, drop, length, option_map, if◌then◌else◌};
ghost use Rattle.parsing_combinator.specs.Pieces.{cut_view};
ghost use Rattle.parsing_combinator.specs.Shape.{taken};
ghost use Rattle.parsing_combinator.specs.Names as Names;

use calendar_count::{Month, Weekday};

// What follows the name, long or short, where the bytes begin with it. Exact are names whose case counts.
#[inline(always)]
#[tactic(auto, unfolding(crate::specs::Names::begins), using(crate::proofs::NameLemmas::short_text))]
fn after<'a>(name: &[u8], is_long: bool, exact: bool, bytes: &'a [u8]) -> Option<&'a [u8]>
    requires { is_long ≡ false → 3 ≤ length name.now }
    ensures { option_map (λ rest. rest.now) result
        ≡ (if Names.begins exact (Names.form is_long name.now) bytes.now
        then Some (drop (length (Names.form is_long name.now)) bytes.now) else None) }
{
    let name = if is_long { name } else { &name[..3] };
    if bytes.len() < name.len() {
        return None;
    }
    let (prefix, rest) = bytes.split_at(name.len());
    let same = if exact {
        prefix == name
    } else {
        prefix.eq_ignore_ascii_case(name)
    };
    if same { Some(rest) } else { None }
}

// The first three letters in lower case, in one number, the first one lowest, and 0 where there are fewer.
#[inline(always)]
fn letters(bytes: &[u8]) -> u32
    ensures { result ≡ Names.letters bytes.now }
{
    match bytes {
        [a, b, c, ..] => u32::from_le_bytes([*a | 0x20, *b | 0x20, *c | 0x20, 0]),
        _ => 0,
    }
}

// The month whose name begins with these letters, where that name is at the start, and what follows it.
#[inline(always)]
fn month_of(letters: u32, is_long: bool, exact: bool, bytes: &[u8]) -> Option<(Month, &[u8])>
    ensures { cut_view result ≡ Names.said exact is_long (Names.with_letters letters Names.long_months) bytes.now }
{
    match letters {
        0x6e_616a => Some((Month::January, after(b"January", is_long, exact, bytes)?)),
        0x62_6566 => Some((Month::February, after(b"February", is_long, exact, bytes)?)),
        0x72_616d => Some((Month::March, after(b"March", is_long, exact, bytes)?)),
        0x72_7061 => Some((Month::April, after(b"April", is_long, exact, bytes)?)),
        0x79_616d => Some((Month::May, after(b"May", is_long, exact, bytes)?)),
        0x6e_756a => Some((Month::June, after(b"June", is_long, exact, bytes)?)),
        0x6c_756a => Some((Month::July, after(b"July", is_long, exact, bytes)?)),
        0x67_7561 => Some((Month::August, after(b"August", is_long, exact, bytes)?)),
        0x70_6573 => Some((
            Month::September,
            after(b"September", is_long, exact, bytes)?,
        )),
        0x74_636f => Some((Month::October, after(b"October", is_long, exact, bytes)?)),
        0x76_6f6e => Some((Month::November, after(b"November", is_long, exact, bytes)?)),
        0x63_6564 => Some((Month::December, after(b"December", is_long, exact, bytes)?)),
        _ => None,
    }
}

// The day of the week whose name begins with these letters, where that name is at the start, and what follows it.
#[inline(always)]
fn weekday_of(letters: u32, is_long: bool, exact: bool, bytes: &[u8]) -> Option<(Weekday, &[u8])>
    ensures { cut_view result ≡ Names.said exact is_long (Names.with_letters letters Names.long_weekdays) bytes.now }
{
    match letters {
        0x6e_6f6d => Some((Weekday::Monday, after(b"Monday", is_long, exact, bytes)?)),
        0x65_7574 => Some((Weekday::Tuesday, after(b"Tuesday", is_long, exact, bytes)?)),
        0x64_6577 => Some((
            Weekday::Wednesday,
            after(b"Wednesday", is_long, exact, bytes)?,
        )),
        0x75_6874 => Some((
            Weekday::Thursday,
            after(b"Thursday", is_long, exact, bytes)?,
        )),
        0x69_7266 => Some((Weekday::Friday, after(b"Friday", is_long, exact, bytes)?)),
        0x74_6173 => Some((
            Weekday::Saturday,
            after(b"Saturday", is_long, exact, bytes)?,
        )),
        0x6e_7573 => Some((Weekday::Sunday, after(b"Sunday", is_long, exact, bytes)?)),
        _ => None,
    }
}

/// The English name of a month.
#[tactic(auto, using(crate::proofs::NameLemmas::taken_long_month))]
pub fn long_month(case_sensitive: bool, bytes: &[u8]) -> Option<(Month, &[u8])>
    ensures { cut_view result ≡ taken (Names.named case_sensitive Names.long_months) bytes.now }
{
    month_of(letters(bytes), true, case_sensitive, bytes)
}

/// The first three letters of the English name of a month.
#[tactic(auto, using(crate::proofs::NameLemmas::taken_short_month))]
pub fn short_month(case_sensitive: bool, bytes: &[u8]) -> Option<(Month, &[u8])>
    ensures { cut_view result ≡ taken (Names.named case_sensitive Names.short_months) bytes.now }
{
    month_of(letters(bytes), false, case_sensitive, bytes)
}

/// The English name of a day of the week.
#[tactic(auto, using(crate::proofs::NameLemmas::taken_long_weekday))]
pub fn long_weekday(case_sensitive: bool, bytes: &[u8]) -> Option<(Weekday, &[u8])>
    ensures { cut_view result ≡ taken (Names.named case_sensitive Names.long_weekdays) bytes.now }
{
    weekday_of(letters(bytes), true, case_sensitive, bytes)
}

/// The first three letters of the English name of a day of the week.
#[tactic(auto, using(crate::proofs::NameLemmas::taken_short_weekday))]
pub fn short_weekday(case_sensitive: bool, bytes: &[u8]) -> Option<(Weekday, &[u8])>
    ensures { cut_view result ≡ taken (Names.named case_sensitive Names.short_weekdays) bytes.now }
{
    weekday_of(letters(bytes), false, case_sensitive, bytes)
}

/// The half of the day, `AM` or `PM`: whether it is the later one. The case of its letters counts only where both
/// flags are set.
#[tactic(auto, using(crate::proofs::NameLemmas::taken_period), unfolding(crate::specs::Names::named, crate::specs::Names::begins))]
pub fn period(is_uppercase: bool, case_sensitive: bool, bytes: &[u8]) -> Option<(bool, &[u8])>
    ensures { cut_view result ≡ taken (Names.period is_uppercase case_sensitive) bytes.now }
{
    let exact = is_uppercase && case_sensitive;
    if let Some(rest) = after(b"AM", true, exact, bytes) {
        return Some((false, rest));
    }
    Some((true, after(b"PM", true, exact, bytes)?))
}
