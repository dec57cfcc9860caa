//! The form of the texts of each component.
ghost use Rattle.std.specs.Prelude.{◌≡◌, ℕ, List};
ghost use Rattle.parsing_item_layouts.specs.Forms.{HasForm, IsPiece, century_form, form_of, form_of_time, form_of_year, fraction_part, full_year, hour_form, padded_bytes, padded_part, signed_form, some_digits, timestamp_form, year_form};
ghost use Rattle.parsing_layout.specs.Stretch.{IsCut};

use description_items::Component;
use description_items::modifier::{Padding, SubsecondDigits};
use parsing_layout::{Field, Kind, Names, Part, Stretch};

/// What stands in a text.
#[derive(Clone, Copy)]
pub enum Piece {
    /// A part, whose number the text says.
    Part(Part),
    /// Bytes of which no part speaks.
    Bytes(Stretch),
}

/// The form of the texts of a component.
#[derive(Clone, Copy)]
pub enum Form {
    /// A piece.
    Bare(Piece),
    /// A piece after a sign.
    Signed(Piece),
    /// A piece after a sign, or another without one.
    Either { signed: Piece, bare: Piece },
}

// A number of two digits under a padding.
fn padded_part(padding: Padding, field: Field) -> Part
    ensures { result ≡ padded_part padding field }
{
    match padding {
        Padding::Zero => Part::Digits(field, 2),
        Padding::Space => Part::Spaced(field),
        Padding::None => Part::Bare(field),
    }
}

// A padded number that no field is the name of: so many bytes where it is padded, and whether it has no more.
fn padded_bytes(padding: Padding, least: usize, is_whole: bool) -> Piece
    ensures { result ≡ padded_bytes padding least is_whole }
{
    Piece::Bytes(match padding {
        Padding::Zero => Stretch {
            kind: Kind::Digit,
            least,
            is_whole,
        },
        Padding::Space => Stretch {
            kind: Kind::DigitOrSpace,
            least,
            is_whole,
        },
        Padding::None => Stretch::from(Kind::Digit, 1),
    })
}

// The digits of a fraction.
fn fraction_part(digits: SubsecondDigits) -> Part
    ensures { result ≡ fraction_part digits }
{
    match digits {
        SubsecondDigits::One => Part::Fraction(1),
        SubsecondDigits::Two => Part::Fraction(2),
        SubsecondDigits::Three => Part::Fraction(3),
        SubsecondDigits::Four => Part::Fraction(4),
        SubsecondDigits::Five => Part::Fraction(5),
        SubsecondDigits::Six => Part::Fraction(6),
        SubsecondDigits::Seven => Part::Fraction(7),
        SubsecondDigits::Eight => Part::Fraction(8),
        SubsecondDigits::Nine => Part::Fraction(9),
        SubsecondDigits::OneOrMore => Part::OpenFraction,
    }
}

// A piece after a sign, or where the sign is not mandatory, another without one.
fn signed_form(is_mandatory: bool, signed: Piece, bare: Piece) -> Form
    ensures { result ≡ signed_form is_mandatory signed bare }
{
    if is_mandatory {
        Form::Signed(signed)
    } else {
        Form::Either { signed, bare }
    }
}

// A year of four digits without a sign.
fn full_year(padding: Padding) -> Piece
    ensures { result ≡ full_year padding }
{
    match padding {
        Padding::Zero => Piece::Part(Part::Digits(Field::Year, 4)),
        _ => padded_bytes(padding, 4, true),
    }
}

// A year, which is extended after a sign alone.
fn year_form(padding: Padding, is_mandatory: bool, is_extended: bool, bare: Piece) -> Form
    ensures { result ≡ year_form padding is_mandatory is_extended bare }
{
    signed_form(is_mandatory, padded_bytes(padding, 4, !is_extended), bare)
}

// A century.
fn century_form(padding: Padding, is_mandatory: bool, is_extended: bool) -> Form
    ensures { result ≡ century_form padding is_mandatory is_extended }
{
    let signed = padded_bytes(padding, 2, !is_extended);
    signed_form(is_mandatory, signed, padded_bytes(padding, 1, false))
}

/// The form of all texts that a component reads, in all versions.
#[tactic(auto, using(crate::proofs::FormLemmas::component_formed, crate::proofs::FormLemmas::component_formed_v3))]
pub fn form_of(component: &Component) -> Form
    ensures form { result ≡ form_of component.now }
    ensures all { HasForm component.now result }
{
    form_of_date(component)
}

// The form of the texts of a component.
fn form_of_date(component: &Component) -> Form
    ensures { result ≡ form_of component.now }
{
    let part = match component {
        Component::Day(m) => padded_part(m.padding, Field::Day),
        Component::MonthNumerical(m) => padded_part(m.padding, Field::Month),
        Component::MonthShort(m) => Part::Name(Names::ShortMonth, m.case_sensitive),
        Component::MonthLong(m) => Part::Name(Names::LongMonth, m.case_sensitive),
        Component::WeekdayShort(m) => Part::Name(Names::ShortWeekday, m.case_sensitive),
        Component::WeekdayLong(m) => Part::Name(Names::LongWeekday, m.case_sensitive),
        Component::WeekNumberIso(m) => padded_part(m.padding, Field::IsoWeek),
        Component::Ordinal(m) => return Form::Bare(padded_bytes(m.padding, 3, true)),
        Component::WeekNumberSunday(m) => return Form::Bare(padded_bytes(m.padding, 2, true)),
        Component::WeekNumberMonday(m) => return Form::Bare(padded_bytes(m.padding, 2, true)),
        Component::WeekdaySunday(_) | Component::WeekdayMonday(_) => {
            return Form::Bare(Piece::Bytes(Stretch::of(Kind::Digit, 1)));
        }
        _ => return form_of_year(component),
    };
    Form::Bare(Piece::Part(part))
}

// The form of the texts of a year, a part of a time or an offset, or a timestamp.
fn form_of_year(component: &Component) -> Form
    ensures { result ≡ form_of_year component.now }
{
    match component {
        Component::CalendarYearFullExtendedRange(m) => {
            year_form(m.padding, m.sign_is_mandatory, true, full_year(m.padding))
        }
        Component::CalendarYearFullStandardRange(m) => {
            year_form(m.padding, m.sign_is_mandatory, false, full_year(m.padding))
        }
        Component::IsoYearFullExtendedRange(m) => {
            let bare = padded_bytes(m.padding, 4, true);
            year_form(m.padding, m.sign_is_mandatory, true, bare)
        }
        Component::IsoYearFullStandardRange(m) => {
            let bare = padded_bytes(m.padding, 4, true);
            year_form(m.padding, m.sign_is_mandatory, false, bare)
        }
        Component::CalendarYearCenturyExtendedRange(m) => {
            century_form(m.padding, m.sign_is_mandatory, true)
        }
        Component::CalendarYearCenturyStandardRange(m) => {
            century_form(m.padding, m.sign_is_mandatory, false)
        }
        Component::IsoYearCenturyExtendedRange(m) => {
            century_form(m.padding, m.sign_is_mandatory, true)
        }
        Component::IsoYearCenturyStandardRange(m) => {
            century_form(m.padding, m.sign_is_mandatory, false)
        }
        Component::CalendarYearLastTwo(m) => Form::Bare(padded_bytes(m.padding, 2, true)),
        Component::IsoYearLastTwo(m) => Form::Bare(padded_bytes(m.padding, 2, true)),
        _ => form_of_time(component),
    }
}

// The form of the texts of a part of a time or an offset, or of a timestamp. Of the end, and of older forms, nothing is known.
fn form_of_time(component: &Component) -> Form
    ensures { result ≡ form_of_time component.now }
{
    let part = match component {
        Component::Hour24(m) => padded_part(m.padding, Field::Hour),
        Component::Hour12(m) => padded_part(m.padding, Field::HourOfHalf),
        Component::Minute(m) => padded_part(m.padding, Field::Minute),
        Component::Second(m) => padded_part(m.padding, Field::Second),
        Component::Period(m) => Part::Name(Names::HalfOfDay, m.is_uppercase && m.case_sensitive),
        Component::Subsecond(m) => fraction_part(m.digits),
        Component::OffsetMinute(m) => padded_part(m.padding, Field::OffsetMinute),
        Component::OffsetSecond(m) => return Form::Bare(padded_bytes(m.padding, 2, true)),
        Component::OffsetHour(m) => return hour_form(m.padding, m.sign_is_mandatory),
        Component::UnixTimestampSecond(m) => {
            let seconds = Piece::Part(Part::Run(Field::Unix, 14));
            return signed_form(m.sign_is_mandatory, some_digits(), seconds);
        }
        Component::UnixTimestampMillisecond(m) => return digits_form(m.sign_is_mandatory),
        Component::UnixTimestampMicrosecond(m) => return digits_form(m.sign_is_mandatory),
        Component::UnixTimestampNanosecond(m) => return digits_form(m.sign_is_mandatory),
        Component::Ignore(m) => {
            return Form::Bare(Piece::Bytes(Stretch::of(Kind::Any, usize::from(m.count))));
        }
        _ => return Form::Bare(Piece::Bytes(Stretch::from(Kind::Any, 0))),
    };
    Form::Bare(Piece::Part(part))
}

// Digits, at least one.
fn some_digits() -> Piece
    ensures { result ≡ some_digits }
{
    Piece::Bytes(Stretch::from(Kind::Digit, 1))
}

// A timestamp after a sign, or without one. Only seconds without a sign are a field, since a field has no unit.
fn digits_form(is_mandatory: bool) -> Form
    ensures { result ≡ timestamp_form is_mandatory some_digits }
{
    signed_form(is_mandatory, some_digits(), some_digits())
}

// The hours of an offset. Without a sign they are no part: what an offset says is told by its sign.
fn hour_form(padding: Padding, is_mandatory: bool) -> Form
    ensures { result ≡ hour_form padding is_mandatory }
{
    let signed = Piece::Part(padded_part(padding, Field::OffsetHour));
    signed_form(is_mandatory, signed, padded_bytes(padding, 2, true))
}

impl Piece {
    /// The bytes of a piece.
    pub fn stretch(self) -> Stretch
        ensures { (line rest : List ℕ) → IsPiece self line rest → IsCut result line rest }
    {
        match self {
            Piece::Part(part) => Stretch::of_part(part),
            Piece::Bytes(stretch) => stretch,
        }
    }
}
