//! The time of day of a record.
ghost use Rattle.std.specs.Prelude.{◌≡◌, Some};
ghost use Rattle.std.specs.Int.{is_in_range};
ghost use Rattle.parsing_components.specs.Record.{set_if, with_if, InRange};

use crate::parsed::{Parsed, set};

impl Parsed {
    /// The hour of the day, 0 to 23.
    pub fn hour_24(&self) -> Option<u8>
        ensures value { result ≡ self.now.hour_24 }
        ensures bound { InRange 0 23 result }
    {
        self.fields.hour_24
    }

    /// Sets the hour of the day. `None` where it is not 0 to 23, and then nothing changes.
    pub fn set_hour_24(&mut self, value: u8) -> Option<()>
        ensures { (result, self.new)
            ≡ set_if (is_in_range 0 23 value) self.old (record self.old { hour_24 = Some value }) }
    {
        set(&mut self.fields.hour_24, value <= 23, value)
    }

    /// The record with the hour of the day. `None` where it is not 0 to 23.
    pub fn with_hour_24(mut self, value: u8) -> Option<Self>
        ensures { result ≡ with_if (is_in_range 0 23 value) (record self { hour_24 = Some value }) }
    {
        self.set_hour_24(value).and(Some(self))
    }

    /// The hour of a half day, 1 to 12: it counts only together with its half.
    pub fn hour_12(&self) -> Option<u8>
        ensures value { result ≡ self.now.hour_12 }
        ensures bound { InRange 1 12 result }
    {
        self.fields.hour_12
    }

    /// Sets the hour of a half day. `None` where it is not 1 to 12, and then nothing changes.
    pub fn set_hour_12(&mut self, value: u8) -> Option<()>
        ensures { (result, self.new)
            ≡ set_if (is_in_range 1 12 value) self.old (record self.old { hour_12 = Some value }) }
    {
        set(&mut self.fields.hour_12, value >= 1 && value <= 12, value)
    }

    /// The record with the hour of a half day. `None` where it is not 1 to 12.
    pub fn with_hour_12(mut self, value: u8) -> Option<Self>
        ensures { result ≡ with_if (is_in_range 1 12 value) (record self { hour_12 = Some value }) }
    {
        self.set_hour_12(value).and(Some(self))
    }

    /// Whether it is the later half of the day, from noon on.
    pub fn hour_12_is_pm(&self) -> Option<bool>
        ensures value { result ≡ self.now.hour_12_is_pm }
    {
        self.fields.hour_12_is_pm
    }

    /// Sets whether it is the later half of the day. Never `None`.
    pub fn set_hour_12_is_pm(&mut self, value: bool) -> Option<()>
        ensures always { result ≡ Some tt }
        ensures set { self.new ≡ record self.old { hour_12_is_pm = Some value } }
    {
        set(&mut self.fields.hour_12_is_pm, true, value)
    }

    /// The record with whether it is the later half of the day. Never `None`.
    pub fn with_hour_12_is_pm(mut self, value: bool) -> Option<Self>
        ensures { result ≡ Some (record self { hour_12_is_pm = Some value }) }
    {
        self.set_hour_12_is_pm(value).and(Some(self))
    }

    /// The minute, 0 to 59.
    pub fn minute(&self) -> Option<u8>
        ensures value { result ≡ self.now.minute }
        ensures bound { InRange 0 59 result }
    {
        self.fields.minute
    }

    /// Sets the minute. `None` where it is not 0 to 59, and then nothing changes.
    pub fn set_minute(&mut self, value: u8) -> Option<()>
        ensures { (result, self.new)
            ≡ set_if (is_in_range 0 59 value) self.old (record self.old { minute = Some value }) }
    {
        set(&mut self.fields.minute, value <= 59, value)
    }

    /// The record with the minute. `None` where it is not 0 to 59.
    pub fn with_minute(mut self, value: u8) -> Option<Self>
        ensures { result ≡ with_if (is_in_range 0 59 value) (record self { minute = Some value }) }
    {
        self.set_minute(value).and(Some(self))
    }

    /// The second, 0 to 60. Of 60 a moment is made only where a leap second is permitted, and a time of day never.
    pub fn second(&self) -> Option<u8>
        ensures value { result ≡ self.now.second }
        ensures bound { InRange 0 60 result }
    {
        self.fields.second
    }

    /// Sets the second. `None` where it is not 0 to 60, and then nothing changes.
    pub fn set_second(&mut self, value: u8) -> Option<()>
        ensures { (result, self.new)
            ≡ set_if (is_in_range 0 60 value) self.old (record self.old { second = Some value }) }
    {
        set(&mut self.fields.second, value <= 60, value)
    }

    /// The record with the second. `None` where it is not 0 to 60.
    pub fn with_second(mut self, value: u8) -> Option<Self>
        ensures { result ≡ with_if (is_in_range 0 60 value) (record self { second = Some value }) }
    {
        self.set_second(value).and(Some(self))
    }

    /// The fraction of the second, in nanoseconds, 0 to 999999999.
    pub fn subsecond(&self) -> Option<u32>
        ensures value { result ≡ self.now.subsecond }
        ensures bound { InRange 0 999_999_999 result }
    {
        self.fields.subsecond
    }

    /// Sets the fraction of the second, in nanoseconds. `None` where it is not 0 to 999999999, and then nothing
    /// changes.
    pub fn set_subsecond(&mut self, value: u32) -> Option<()>
        ensures { (result, self.new)
            ≡ set_if (is_in_range 0 999_999_999 value) self.old
            (record self.old { subsecond = Some value }) }
    {
        set(&mut self.fields.subsecond, value <= 999_999_999, value)
    }

    /// The record with the fraction of the second, in nanoseconds. `None` where it is not 0 to 999999999.
    pub fn with_subsecond(mut self, value: u32) -> Option<Self>
        ensures { result
            ≡ with_if (is_in_range 0 999_999_999 value) (record self { subsecond = Some value }) }
    {
        self.set_subsecond(value).and(Some(self))
    }
}
