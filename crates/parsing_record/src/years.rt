//! The years of a record.
ghost use Rattle.std.specs.Prelude.{◌≡◌, Some, option_map};
ghost use Rattle.std.specs.Int.{is_in_range};
ghost use Rattle.calendar_count.specs.Range.{greatest_year};
ghost use Rattle.parsing_components.specs.Record.{set_if, with_if, is_up_to, century_sign, InRange, Reaches};
ghost use Rattle.parsing_components.specs.Ranged.{greatest_century};

use crate::parsed::{Parsed, set};
use calendar_count::range::GREATEST_YEAR;

const GREATEST_CENTURY: i16 = 9_999;

impl Parsed {
    /// The year, -999999 to 999999.
    pub fn year(&self) -> Option<i32>
        ensures value { result ≡ self.now.year }
        ensures bound { Reaches greatest_year result }
    {
        self.fields.year
    }

    /// Sets the year. `None` where it is not -999999 to 999999, and then nothing changes.
    pub fn set_year(&mut self, value: i32) -> Option<()>
        ensures { (result, self.new)
            ≡ set_if (is_up_to greatest_year value) self.old
            (record self.old { year = Some value }) }
    {
        let is_allowed = value >= -GREATEST_YEAR && value <= GREATEST_YEAR;
        set(&mut self.fields.year, is_allowed, value)
    }

    /// The record with the year. `None` where it is not -999999 to 999999.
    pub fn with_year(mut self, value: i32) -> Option<Self>
        ensures { result
            ≡ with_if (is_up_to greatest_year value) (record self { year = Some value }) }
    {
        self.set_year(value).and(Some(self))
    }

    /// The century, -9999 to 9999: the year without its last two digits. It counts only together with these, and only
    /// where there is no `year`.
    pub fn year_century(&self) -> Option<i16>
        ensures value { result ≡ self.now.year_century }
        ensures bound { Reaches greatest_century result }
    {
        self.fields.year_century
    }

    /// Whether the century is after a minus, which -0 has too. The last two digits then lead backwards.
    pub fn year_century_is_negative(&self) -> Option<bool>
        ensures { result
            ≡ option_map (λ _. self.now.year_century_is_negative) self.now.year_century }
    {
        self.fields.year_century?;
        Some(self.fields.year_century_is_negative)
    }

    /// Sets the century and its sign, which `is_negative` says of 0 alone. `None` where it is not -9999 to 9999, and
    /// then nothing changes.
    pub fn set_year_century(&mut self, value: i16, is_negative: bool) -> Option<()>
        ensures { (result, self.new)
            ≡ set_if (is_up_to greatest_century value) self.old
            (record self.old {
              year_century = Some value;
              year_century_is_negative = century_sign value is_negative;
            }) }
    {
        let is_allowed = value >= -GREATEST_CENTURY && value <= GREATEST_CENTURY;
        set(&mut self.fields.year_century, is_allowed, value)?;
        self.fields.year_century_is_negative = if value == 0 { is_negative } else { value < 0 };
        Some(())
    }

    /// The record with the century and its sign, which `is_negative` says of 0 alone. `None` where it is not -9999 to
    /// 9999.
    pub fn with_year_century(mut self, value: i16, is_negative: bool) -> Option<Self>
        ensures { result
            ≡ with_if (is_up_to greatest_century value)
            (record self {
              year_century = Some value;
              year_century_is_negative = century_sign value is_negative;
            }) }
    {
        self.set_year_century(value, is_negative).and(Some(self))
    }

    /// The last two digits of the year, 0 to 99.
    pub fn year_last_two(&self) -> Option<u8>
        ensures value { result ≡ self.now.year_last_two }
        ensures bound { InRange 0 99 result }
    {
        self.fields.year_last_two
    }

    /// Sets the last two digits of the year. `None` where they are not 0 to 99, and then nothing changes.
    pub fn set_year_last_two(&mut self, value: u8) -> Option<()>
        ensures { (result, self.new)
            ≡ set_if (is_in_range 0 99 value) self.old
            (record self.old { year_last_two = Some value }) }
    {
        set(&mut self.fields.year_last_two, value <= 99, value)
    }

    /// The record with the last two digits of the year. `None` where they are not 0 to 99.
    pub fn with_year_last_two(mut self, value: u8) -> Option<Self>
        ensures { result
            ≡ with_if (is_in_range 0 99 value) (record self { year_last_two = Some value }) }
    {
        self.set_year_last_two(value).and(Some(self))
    }

    /// The year of ISO 8601, to which its weeks belong, -999999 to 999999.
    pub fn iso_year(&self) -> Option<i32>
        ensures value { result ≡ self.now.iso_year }
        ensures bound { Reaches greatest_year result }
    {
        self.fields.iso_year
    }

    /// Sets the year of ISO 8601, to which its weeks belong. `None` where it is not -999999 to 999999, and then
    /// nothing changes.
    pub fn set_iso_year(&mut self, value: i32) -> Option<()>
        ensures { (result, self.new)
            ≡ set_if (is_up_to greatest_year value) self.old
            (record self.old { iso_year = Some value }) }
    {
        let is_allowed = value >= -GREATEST_YEAR && value <= GREATEST_YEAR;
        set(&mut self.fields.iso_year, is_allowed, value)
    }

    /// The record with the year of ISO 8601, to which its weeks belong. `None` where it is not -999999 to 999999.
    pub fn with_iso_year(mut self, value: i32) -> Option<Self>
        ensures { result
            ≡ with_if (is_up_to greatest_year value) (record self { iso_year = Some value }) }
    {
        self.set_iso_year(value).and(Some(self))
    }

    /// The century of that year, -9999 to 9999. It counts only together with the last two digits, and only where
    /// there is no `iso_year`.
    pub fn iso_year_century(&self) -> Option<i16>
        ensures value { result ≡ self.now.iso_year_century }
        ensures bound { Reaches greatest_century result }
    {
        self.fields.iso_year_century
    }

    /// Whether the century of that year is after a minus, which -0 has too. The last two digits then lead backwards.
    pub fn iso_year_century_is_negative(&self) -> Option<bool>
        ensures { result
            ≡ option_map (λ _. self.now.iso_year_century_is_negative) self.now.iso_year_century }
    {
        self.fields.iso_year_century?;
        Some(self.fields.iso_year_century_is_negative)
    }

    /// Sets the century of that year and its sign, which `is_negative` says of 0 alone. `None` where it is not -9999
    /// to 9999, and then nothing changes.
    pub fn set_iso_year_century(&mut self, value: i16, is_negative: bool) -> Option<()>
        ensures { (result, self.new)
            ≡ set_if (is_up_to greatest_century value) self.old
            (record self.old {
              iso_year_century = Some value;
              iso_year_century_is_negative = century_sign value is_negative;
            }) }
    {
        let is_allowed = value >= -GREATEST_CENTURY && value <= GREATEST_CENTURY;
        set(&mut self.fields.iso_year_century, is_allowed, value)?;
        self.fields.iso_year_century_is_negative = if value == 0 { is_negative } else { value < 0 };
        Some(())
    }

    /// The record with the century of that year and its sign, which `is_negative` says of 0 alone. `None` where it is
    /// not -9999 to 9999.
    pub fn with_iso_year_century(mut self, value: i16, is_negative: bool) -> Option<Self>
        ensures { result
            ≡ with_if (is_up_to greatest_century value)
            (record self {
              iso_year_century = Some value;
              iso_year_century_is_negative = century_sign value is_negative;
            }) }
    {
        self.set_iso_year_century(value, is_negative)
            .and(Some(self))
    }

    /// The last two digits of that year, 0 to 99.
    pub fn iso_year_last_two(&self) -> Option<u8>
        ensures value { result ≡ self.now.iso_year_last_two }
        ensures bound { InRange 0 99 result }
    {
        self.fields.iso_year_last_two
    }

    /// Sets the last two digits of that year. `None` where they are not 0 to 99, and then nothing changes.
    pub fn set_iso_year_last_two(&mut self, value: u8) -> Option<()>
        ensures { (result, self.new)
            ≡ set_if (is_in_range 0 99 value) self.old
            (record self.old { iso_year_last_two = Some value }) }
    {
        set(&mut self.fields.iso_year_last_two, value <= 99, value)
    }

    /// The record with the last two digits of that year. `None` where they are not 0 to 99.
    pub fn with_iso_year_last_two(mut self, value: u8) -> Option<Self>
        ensures { result
            ≡ with_if (is_in_range 0 99 value) (record self { iso_year_last_two = Some value }) }
    {
        self.set_iso_year_last_two(value).and(Some(self))
    }
}
