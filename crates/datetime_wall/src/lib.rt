//! Wall clocks and instants, and the calendar of a count of days and of seconds by products with constants and shifts.
#![tactic(auto)]

mod counts;
pub mod durations;
pub mod moved;
mod quotients;
mod seconds;
pub mod wall;

pub use counts::{
    day_of_count, iso_week_of_count, monday_week_of_count, place_of_count, sunday_week_of_count,
    weekday_of_count,
};
pub use seconds::{clock_of_second, count_of_seconds, second_of_day};
