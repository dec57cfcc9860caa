//! Months.
ghost use Rattle.std.specs.Prelude.{◌≡◌};
ghost use Rattle.std.specs.Int.{IsInRange};

use crate::component_range::{ComponentName, ComponentRange};
use crate::{InvalidVariant, util};
use std::fmt;
use std::str::FromStr;

/// A month of the year. Months are ordered by their numbers.
///
/// `try_from` refuses a number but 1 to 12 as `month`; `from_str` reads the English names, `January` to `December`, and
/// nothing else.
#[derive(Clone, Copy, Debug, PartialEq, Eq, PartialOrd, Ord, Hash)]
pub enum Month {
    January = 1,
    February,
    March,
    April,
    May,
    June,
    July,
    August,
    September,
    October,
    November,
    December,
}

impl Month {
    ghost use Rattle.calendar_count.specs.Calendar.{days_in_month};
    ghost use Rattle.calendar_count.specs.Month.{month_number, next_month, month_name};
    ghost use Rattle.calendar_count.specs.Steps.{steps};

    /// The number, 1 for January.
    #[inline(always)]
    pub fn number(self) -> u8
        ensures value { result ≡ month_number self }
        ensures bound { IsInRange 1 12 result }
    {
        self as u8
    }

    /// The month with this number, 1 for January to 12 for December: `Month::try_from` is the test.
    #[inline(always)]
    pub fn from_number(number: u8) -> Month
        requires { IsInRange 1 12 number }
        ensures { month_number result ≡ number }
    {
        match number {
            1 => Month::January,
            2 => Month::February,
            3 => Month::March,
            4 => Month::April,
            5 => Month::May,
            6 => Month::June,
            7 => Month::July,
            8 => Month::August,
            9 => Month::September,
            10 => Month::October,
            11 => Month::November,
            12 => Month::December,
            _ => unreachable!(),
        }
    }

    /// The days of the month in that year, 28 to 31, for any year.
    pub fn length(self, year: i32) -> u8
        ensures value { result ≡ days_in_month year (month_number self) }
        ensures bound { IsInRange 28 31 result }
    {
        util::days_in_month(self, year)
    }

    /// The month before: that of January is December.
    pub fn previous(self) -> Month
        ensures { next_month (month_number result) ≡ month_number self }
    {
        let number = self.number();
        Month::from_number(if number == 1 { 12 } else { number - 1 })
    }

    /// The month after: that of December is January.
    pub fn next(self) -> Month
        ensures { month_number result ≡ next_month (month_number self) }
    {
        let number = self.number();
        Month::from_number(if number == 12 { 1 } else { number + 1 })
    }

    /// The month `n` steps on: after December comes January.
    #[tactic(auto, using(crate::proofs::lemmas::Steps::months_on))]
    pub fn nth_next(self, n: u8) -> Month
        ensures { month_number result ≡ steps next_month n (month_number self) }
    {
        Month::from_number((self.number() - 1 + n % 12) % 12 + 1)
    }

    /// The month `n` steps back: `n` steps on from it lead to this one.
    #[tactic(auto, using(crate::proofs::lemmas::Steps::months_on))]
    pub fn nth_prev(self, n: u8) -> Month
        ensures { steps next_month n (month_number result) ≡ month_number self }
    {
        Month::from_number((self.number() + 11 - n % 12) % 12 + 1)
    }

    // The English name.
    fn name(self) -> &'static str
        ensures { result.now ≡ month_name self }
    {
        match self {
            Month::January => "January",
            Month::February => "February",
            Month::March => "March",
            Month::April => "April",
            Month::May => "May",
            Month::June => "June",
            Month::July => "July",
            Month::August => "August",
            Month::September => "September",
            Month::October => "October",
            Month::November => "November",
            Month::December => "December",
        }
    }
}

impl TryFrom<u8> for Month {
    ghost use Rattle.calendar_count.specs.Month.{IsMonthOf};

    type Error = ComponentRange;

    ghost try_from_gives = { IsMonthOf };

    #[inline(always)]
    fn try_from(number: u8) -> Result<Month, ComponentRange> {
        if number == 0 || number > 12 {
            return Err(ComponentRange::unconditional(ComponentName::Month));
        }
        Ok(Month::from_number(number))
    }
}

impl From<Month> for u8 {
    ghost use Rattle.std.specs.Prelude.{◌≡◌};
    ghost use Rattle.calendar_count.specs.Month.{month_number};

    ghost from_gives = { λ month number. number ≡ month_number month };

    fn from(month: Month) -> u8 {
        month.number()
    }
}

impl FromStr for Month {
    ghost use Rattle.calendar_count.specs.Month.{IsMonthNamed};

    type Err = InvalidVariant;

    ghost from_str_gives = { IsMonthNamed };

    fn from_str(text: &str) -> Result<Month, InvalidVariant> {
        match text {
            "January" => Ok(Month::January),
            "February" => Ok(Month::February),
            "March" => Ok(Month::March),
            "April" => Ok(Month::April),
            "May" => Ok(Month::May),
            "June" => Ok(Month::June),
            "July" => Ok(Month::July),
            "August" => Ok(Month::August),
            "September" => Ok(Month::September),
            "October" => Ok(Month::October),
            "November" => Ok(Month::November),
            "December" => Ok(Month::December),
            _ => Err(InvalidVariant),
        }
    }
}

impl fmt::Display for Month {
    ghost use Rattle.std.specs.Prelude.{Some};
    ghost use Rattle.std.specs.Fmt.{styled_text};
    ghost use Rattle.calendar_count.specs.Month.{month_name};

    ghost output = { λ m. Some (month_name m) };

    ghost styled_output = { λ m s. Some (styled_text s (month_name m)) };

    fn fmt<W: fmt::Write>(&self, f: &mut fmt::Formatter<W>) -> fmt::Result {
        f.pad(self.name())
    }
}
