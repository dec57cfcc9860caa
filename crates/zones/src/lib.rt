//! Zones: clocks whose distance from UTC changes in steps, the files that hold them, and their names.
#![tactic(auto)]

mod name;

pub use name::{NAME_LIMIT, is_zone_name};
pub use zones_clock::{Moments, OFFSET_BOUND, Step, Zone, laws};
pub use zones_file::{FILE_LIMIT, ZoneFault, read_zone};
pub use zones_rule::{Change, Day, Footer, Names, Rule, Summer, read_rule};
