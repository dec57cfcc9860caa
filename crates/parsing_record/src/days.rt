//! The days of a record: months, weeks, weekdays.
ghost use Rattle.std.specs.Prelude.{◌≡◌, Some};
ghost use Rattle.std.specs.Int.{is_in_range};
ghost use Rattle.parsing_components.specs.Record.{set_if, with_if, InRange};

use crate::parsed::{Parsed, set};
use calendar_count::{Month, Weekday};

impl Parsed {
    /// The month.
    pub fn month(&self) -> Option<Month>
        ensures value { result ≡ self.now.month }
    {
        self.fields.month
    }

    /// Sets the month. Never `None`.
    pub fn set_month(&mut self, value: Month) -> Option<()>
        ensures always { result ≡ Some tt }
        ensures set { self.new ≡ record self.old { month = Some value } }
    {
        set(&mut self.fields.month, true, value)
    }

    /// The record with the month. Never `None`.
    pub fn with_month(mut self, value: Month) -> Option<Self>
        ensures { result ≡ Some (record self { month = Some value }) }
    {
        self.set_month(value).and(Some(self))
    }

    /// The week, counted from the year's first Sunday, 0 to 53. The days before that Sunday are in week 0.
    pub fn sunday_week_number(&self) -> Option<u8>
        ensures value { result ≡ self.now.sunday_week_number }
        ensures bound { InRange 0 53 result }
    {
        self.fields.sunday_week_number
    }

    /// Sets the week, counted from the year's first Sunday. `None` where it is not 0 to 53, and then nothing changes.
    pub fn set_sunday_week_number(&mut self, value: u8) -> Option<()>
        ensures { (result, self.new)
            ≡ set_if (is_in_range 0 53 value) self.old
            (record self.old { sunday_week_number = Some value }) }
    {
        set(&mut self.fields.sunday_week_number, value <= 53, value)
    }

    /// The record with the week, counted from the year's first Sunday. `None` where it is not 0 to 53.
    pub fn with_sunday_week_number(mut self, value: u8) -> Option<Self>
        ensures { result
            ≡ with_if (is_in_range 0 53 value) (record self { sunday_week_number = Some value }) }
    {
        self.set_sunday_week_number(value).and(Some(self))
    }

    /// The week, counted from the year's first Monday, 0 to 53. The days before that Monday are in week 0.
    pub fn monday_week_number(&self) -> Option<u8>
        ensures value { result ≡ self.now.monday_week_number }
        ensures bound { InRange 0 53 result }
    {
        self.fields.monday_week_number
    }

    /// Sets the week, counted from the year's first Monday. `None` where it is not 0 to 53, and then nothing changes.
    pub fn set_monday_week_number(&mut self, value: u8) -> Option<()>
        ensures { (result, self.new)
            ≡ set_if (is_in_range 0 53 value) self.old
            (record self.old { monday_week_number = Some value }) }
    {
        set(&mut self.fields.monday_week_number, value <= 53, value)
    }

    /// The record with the week, counted from the year's first Monday. `None` where it is not 0 to 53.
    pub fn with_monday_week_number(mut self, value: u8) -> Option<Self>
        ensures { result
            ≡ with_if (is_in_range 0 53 value) (record self { monday_week_number = Some value }) }
    {
        self.set_monday_week_number(value).and(Some(self))
    }

    /// The week of ISO 8601, 1 to 53, in the year that `iso_year` has.
    pub fn iso_week_number(&self) -> Option<u8>
        ensures value { result ≡ self.now.iso_week_number }
        ensures bound { InRange 1 53 result }
    {
        self.fields.iso_week_number
    }

    /// Sets the week of ISO 8601. `None` where it is not 1 to 53, and then nothing changes.
    pub fn set_iso_week_number(&mut self, value: u8) -> Option<()>
        ensures { (result, self.new)
            ≡ set_if (is_in_range 1 53 value) self.old
            (record self.old { iso_week_number = Some value }) }
    {
        let is_allowed = value >= 1 && value <= 53;
        set(&mut self.fields.iso_week_number, is_allowed, value)
    }

    /// The record with the week of ISO 8601. `None` where it is not 1 to 53.
    pub fn with_iso_week_number(mut self, value: u8) -> Option<Self>
        ensures { result
            ≡ with_if (is_in_range 1 53 value) (record self { iso_week_number = Some value }) }
    {
        self.set_iso_week_number(value).and(Some(self))
    }

    /// The weekday.
    pub fn weekday(&self) -> Option<Weekday>
        ensures value { result ≡ self.now.weekday }
    {
        self.fields.weekday
    }

    /// Sets the weekday. Never `None`.
    pub fn set_weekday(&mut self, value: Weekday) -> Option<()>
        ensures always { result ≡ Some tt }
        ensures set { self.new ≡ record self.old { weekday = Some value } }
    {
        set(&mut self.fields.weekday, true, value)
    }

    /// The record with the weekday. Never `None`.
    pub fn with_weekday(mut self, value: Weekday) -> Option<Self>
        ensures { result ≡ Some (record self { weekday = Some value }) }
    {
        self.set_weekday(value).and(Some(self))
    }

    /// The day of the year, 1 to 366.
    pub fn ordinal(&self) -> Option<u16>
        ensures value { result ≡ self.now.ordinal }
        ensures bound { InRange 1 366 result }
    {
        self.fields.ordinal
    }

    /// Sets the day of the year. `None` where it is not 1 to 366, and then nothing changes.
    pub fn set_ordinal(&mut self, value: u16) -> Option<()>
        ensures { (result, self.new)
            ≡ set_if (is_in_range 1 366 value) self.old (record self.old { ordinal = Some value }) }
    {
        set(&mut self.fields.ordinal, value >= 1 && value <= 366, value)
    }

    /// The record with the day of the year. `None` where it is not 1 to 366.
    pub fn with_ordinal(mut self, value: u16) -> Option<Self>
        ensures { result
            ≡ with_if (is_in_range 1 366 value) (record self { ordinal = Some value }) }
    {
        self.set_ordinal(value).and(Some(self))
    }

    /// The day of the month, 1 to 31.
    pub fn day(&self) -> Option<u8>
        ensures value { result ≡ self.now.day }
        ensures bound { InRange 1 31 result }
    {
        self.fields.day
    }

    /// Sets the day of the month. `None` where it is not 1 to 31, and then nothing changes.
    pub fn set_day(&mut self, value: u8) -> Option<()>
        ensures { (result, self.new)
            ≡ set_if (is_in_range 1 31 value) self.old (record self.old { day = Some value }) }
    {
        set(&mut self.fields.day, value >= 1 && value <= 31, value)
    }

    /// The record with the day of the month. `None` where it is not 1 to 31.
    pub fn with_day(mut self, value: u8) -> Option<Self>
        ensures { result ≡ with_if (is_in_range 1 31 value) (record self { day = Some value }) }
    {
        self.set_day(value).and(Some(self))
    }
}
