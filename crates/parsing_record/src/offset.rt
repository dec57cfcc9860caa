//! The offset of a record, and its Unix time.
ghost use Rattle.std.specs.Prelude.{◌≡◌, pos, neg_ℤ, Some, option_map, unsigned_abs};
ghost use Rattle.std.specs.Int.{is_in_range};
ghost use Rattle.parsing_components.specs.Record.{set_if, with_if, is_up_to, is_between, InRange, InSigned, Reaches};
ghost use Rattle.parsing_components.specs.Ranged.{nanoseconds_before_epoch, nanoseconds_after_epoch};
ghost use Rattle.parsing_components.specs.Parts.{under_sign};

use crate::parsed::{Parsed, set};
use calendar_count::range::{LAST_COUNT, UNIX_EPOCH};

const DAY_NANOSECONDS: i128 = 86_400_000_000_000;

const LEAST_NANOSECONDS: i128 = -(UNIX_EPOCH as i128) * DAY_NANOSECONDS;

const GREATEST_NANOSECONDS: i128 = (LAST_COUNT as i128 + 1 - UNIX_EPOCH as i128) * DAY_NANOSECONDS
    - 1;

impl Parsed {
    /// The hours of the offset, -25 to 25, east of UTC.
    pub fn offset_hour(&self) -> Option<i8>
        ensures value { result ≡ self.now.offset_hour }
        ensures bound { Reaches 25 result }
    {
        self.fields.offset_hour
    }

    /// Sets the hours of the offset, east of UTC. `None` where they are not -25 to 25, and then nothing changes.
    pub fn set_offset_hour(&mut self, value: i8) -> Option<()>
        ensures { (result, self.new)
            ≡ set_if (is_up_to 25 value) self.old (record self.old { offset_hour = Some value }) }
    {
        let is_allowed = value >= -25 && value <= 25;
        set(&mut self.fields.offset_hour, is_allowed, value)
    }

    /// The record with the hours of the offset, east of UTC. `None` where they are not -25 to 25.
    pub fn with_offset_hour(mut self, value: i8) -> Option<Self>
        ensures { result ≡ with_if (is_up_to 25 value) (record self { offset_hour = Some value }) }
    {
        self.set_offset_hour(value).and(Some(self))
    }

    /// The minutes of the offset, 0 to 59, whatever their sign.
    pub fn offset_minute(&self) -> Option<u8>
        ensures value { result ≡ option_map unsigned_abs self.now.offset_minute }
        ensures bound { InRange 0 59 result }
    {
        Some(self.fields.offset_minute?.unsigned_abs())
    }

    /// The minutes of the offset under their sign, -59 to 59: what was set, negated after an hour that was read with
    /// a minus.
    pub fn offset_minute_signed(&self) -> Option<i8>
        ensures value { result ≡ under_sign self.now.offset_is_negative self.now.offset_minute }
        ensures bound { Reaches 59 result }
    {
        let (value, is_negative) = (self.fields.offset_minute?, self.fields.offset_is_negative);
        Some(if is_negative { -value } else { value })
    }

    /// Sets the minutes of the offset as they stand. `None` where they are not 0 to 59, and then nothing changes.
    pub fn set_offset_minute(&mut self, value: u8) -> Option<()>
        ensures { (result, self.new)
            ≡ set_if (is_in_range 0 59 value) self.old
            (record self.old { offset_minute = Some (pos value) }) }
    {
        self.set_offset_minute_signed(i8::try_from(value).ok()?)
    }

    /// The record with the minutes of the offset as they stand. `None` where they are not 0 to 59.
    pub fn with_offset_minute(mut self, value: u8) -> Option<Self>
        ensures { result
            ≡ with_if (is_in_range 0 59 value) (record self { offset_minute = Some (pos value) }) }
    {
        self.set_offset_minute(value).and(Some(self))
    }

    /// Sets the minutes of the offset as they stand. `None` where they are not -59 to 59, and then nothing changes.
    pub fn set_offset_minute_signed(&mut self, value: i8) -> Option<()>
        ensures { (result, self.new)
            ≡ set_if (is_up_to 59 value) self.old (record self.old { offset_minute = Some value }) }
    {
        let is_allowed = value >= -59 && value <= 59;
        set(&mut self.fields.offset_minute, is_allowed, value)
    }

    /// The record with the minutes of the offset as they stand. `None` where they are not -59 to 59.
    pub fn with_offset_minute_signed(mut self, value: i8) -> Option<Self>
        ensures { result
            ≡ with_if (is_up_to 59 value) (record self { offset_minute = Some value }) }
    {
        self.set_offset_minute_signed(value).and(Some(self))
    }

    /// The seconds of the offset, 0 to 59, whatever their sign.
    pub fn offset_second(&self) -> Option<u8>
        ensures value { result ≡ option_map unsigned_abs self.now.offset_second }
        ensures bound { InRange 0 59 result }
    {
        Some(self.fields.offset_second?.unsigned_abs())
    }

    /// The seconds of the offset under their sign, -59 to 59: what was set, negated after an hour that was read with
    /// a minus.
    pub fn offset_second_signed(&self) -> Option<i8>
        ensures value { result ≡ under_sign self.now.offset_is_negative self.now.offset_second }
        ensures bound { Reaches 59 result }
    {
        let (value, is_negative) = (self.fields.offset_second?, self.fields.offset_is_negative);
        Some(if is_negative { -value } else { value })
    }

    /// Sets the seconds of the offset as they stand. `None` where they are not 0 to 59, and then nothing changes.
    pub fn set_offset_second(&mut self, value: u8) -> Option<()>
        ensures { (result, self.new)
            ≡ set_if (is_in_range 0 59 value) self.old
            (record self.old { offset_second = Some (pos value) }) }
    {
        self.set_offset_second_signed(i8::try_from(value).ok()?)
    }

    /// The record with the seconds of the offset as they stand. `None` where they are not 0 to 59.
    pub fn with_offset_second(mut self, value: u8) -> Option<Self>
        ensures { result
            ≡ with_if (is_in_range 0 59 value) (record self { offset_second = Some (pos value) }) }
    {
        self.set_offset_second(value).and(Some(self))
    }

    /// Sets the seconds of the offset as they stand. `None` where they are not -59 to 59, and then nothing changes.
    pub fn set_offset_second_signed(&mut self, value: i8) -> Option<()>
        ensures { (result, self.new)
            ≡ set_if (is_up_to 59 value) self.old (record self.old { offset_second = Some value }) }
    {
        let is_allowed = value >= -59 && value <= 59;
        set(&mut self.fields.offset_second, is_allowed, value)
    }

    /// The record with the seconds of the offset as they stand. `None` where they are not -59 to 59.
    pub fn with_offset_second_signed(mut self, value: i8) -> Option<Self>
        ensures { result
            ≡ with_if (is_up_to 59 value) (record self { offset_second = Some value }) }
    {
        self.set_offset_second_signed(value).and(Some(self))
    }

    /// The nanoseconds since 1970 began in UTC, negative before. Moments are made of them alone, whatever else is
    /// said, but that `OffsetDateTime` and `UtcDateTime` take the fraction of the second from `subsecond`, where
    /// there is one.
    pub fn unix_timestamp_nanos(&self) -> Option<i128>
        ensures value { result ≡ self.now.unix_timestamp_nanos }
        ensures bound { InSigned (neg_ℤ (pos nanoseconds_before_epoch))
            (pos nanoseconds_after_epoch) result }
    {
        self.fields.unix_timestamp_nanos
    }

    /// Sets the nanoseconds since 1970 began in UTC. `None` where the calendar does not have their day, and then
    /// nothing changes.
    pub fn set_unix_timestamp_nanos(&mut self, value: i128) -> Option<()>
        ensures { (result, self.new)
            ≡ set_if (is_between (neg_ℤ (pos nanoseconds_before_epoch))
            (pos nanoseconds_after_epoch) value) self.old
            (record self.old { unix_timestamp_nanos = Some value }) }
    {
        let is_allowed = value >= LEAST_NANOSECONDS && value <= GREATEST_NANOSECONDS;
        set(&mut self.fields.unix_timestamp_nanos, is_allowed, value)
    }

    /// The record with the nanoseconds since 1970 began in UTC. `None` where the calendar does not have their day.
    pub fn with_unix_timestamp_nanos(mut self, value: i128) -> Option<Self>
        ensures { result
            ≡ with_if
            (is_between (neg_ℤ (pos nanoseconds_before_epoch)) (pos nanoseconds_after_epoch) value)
            (record self { unix_timestamp_nanos = Some value }) }
    {
        self.set_unix_timestamp_nanos(value).and(Some(self))
    }
}
