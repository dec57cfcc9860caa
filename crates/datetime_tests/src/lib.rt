//! Tests of the calendar, of its members and of the date-times, at values that are known from outside.
#![tactic(auto)]

#[cfg(test)]
mod both_traits;
#[cfg(test)]
mod calendar_laws;
#[cfg(test)]
mod calls;
#[cfg(test)]
mod century_walk;
#[cfg(test)]
mod counts;
#[cfg(test)]
mod dates;
#[cfg(test)]
mod durations;
#[cfg(test)]
mod each_type;
#[cfg(test)]
mod instants;
#[cfg(test)]
mod kinds;
#[cfg(test)]
mod laws;
#[cfg(test)]
mod lengths;
#[cfg(test)]
mod memory;
#[cfg(test)]
mod moments;
#[cfg(test)]
mod months_and_weekdays;
#[cfg(test)]
mod moved;
#[cfg(test)]
mod numbers;
#[cfg(test)]
mod offsets;
#[cfg(test)]
mod page;
#[cfg(test)]
mod refusals;
#[cfg(test)]
mod rows;
#[cfg(test)]
mod texts;
#[cfg(test)]
mod times;
#[cfg(test)]
mod walks;
