//! The parts of a moment that a description has somewhere.

use description::Component;

/// Which parts stand somewhere in a description, inside of what may be missing too.
#[derive(Clone, Copy, Default)]
pub struct Parts {
    pub year: YearParts,
    pub iso_year: YearParts,
    pub month: bool,
    pub day: bool,
    pub ordinal: bool,
    pub iso_week: bool,
    pub week: bool,
    pub weekday: bool,
    pub hour: bool,
    pub half_day_hour: bool,
    pub period: bool,
    pub offset_hour: bool,
    pub unix_time: bool,
}

/// Which parts of a year stand there.
#[derive(Clone, Copy, Default)]
pub struct YearParts {
    pub full: bool,
    pub century: bool,
    pub last_two: bool,
}

impl YearParts {
    /// Whether these parts can name a year.
    pub fn can_name(&self) -> bool {
        self.full || self.century && self.last_two
    }
}

impl Parts {
    /// Adds what a component sets.
    pub fn add(&mut self, component: Component) {
        match component.modern() {
            Component::Day(_) => self.day = true,
            Component::MonthShort(_) | Component::MonthLong(_) | Component::MonthNumerical(_) => {
                self.month = true
            }
            Component::Ordinal(_) => self.ordinal = true,
            Component::WeekdayShort(_)
            | Component::WeekdayLong(_)
            | Component::WeekdaySunday(_)
            | Component::WeekdayMonday(_) => self.weekday = true,
            Component::WeekNumberIso(_) => self.iso_week = true,
            Component::WeekNumberSunday(_) | Component::WeekNumberMonday(_) => self.week = true,
            Component::Hour24(_) => self.hour = true,
            Component::Hour12(_) => self.half_day_hour = true,
            Component::Period(_) => self.period = true,
            Component::OffsetHour(_) => self.offset_hour = true,
            Component::UnixTimestampSecond(_)
            | Component::UnixTimestampMillisecond(_)
            | Component::UnixTimestampMicrosecond(_)
            | Component::UnixTimestampNanosecond(_) => self.unix_time = true,
            other => self.add_year(other),
        }
    }

    fn add_year(&mut self, component: Component) {
        match component {
            Component::CalendarYearFullExtendedRange(_)
            | Component::CalendarYearFullStandardRange(_) => self.year.full = true,
            Component::CalendarYearCenturyExtendedRange(_)
            | Component::CalendarYearCenturyStandardRange(_) => self.year.century = true,
            Component::CalendarYearLastTwo(_) => self.year.last_two = true,
            Component::IsoYearFullExtendedRange(_) | Component::IsoYearFullStandardRange(_) => {
                self.iso_year.full = true
            }
            Component::IsoYearCenturyExtendedRange(_) | Component::IsoYearCenturyStandardRange(_) =>
                self.iso_year.century = true,
            Component::IsoYearLastTwo(_) => self.iso_year.last_two = true,
            _ => {}
        }
    }
}
