//! Tests of the crates of `instants`, each by itself, of formats by name, of the guess, and of runs over streams: devices and
//! their failures, memory, streams cut in reads. Tests of those of `instants-lines`: what stands beside a date, the prefixes
//! of sources, dates in lines, the words of the program and its runs. Rows of words and streams with their answers stand in
//! the program `rows`.
#![tactic(auto)]

#[cfg(test)]
mod counted_timelines;
#[cfg(test)]
mod dates;
#[cfg(test)]
mod devices;
#[cfg(test)]
mod edges;
#[cfg(test)]
mod first_bytes;
#[cfg(test)]
mod formats;
#[cfg(test)]
mod found;
#[cfg(test)]
mod guesses;
#[cfg(test)]
mod lines;
#[cfg(test)]
mod lines_memory;
#[cfg(test)]
mod memory;
#[cfg(test)]
mod moved_lines;
#[cfg(test)]
mod page;
#[cfg(test)]
mod parts;
#[cfg(test)]
mod prefixes;
#[cfg(test)]
mod printed;
#[cfg(test)]
mod runs;
#[cfg(test)]
mod searches;
#[cfg(test)]
mod sources;
#[cfg(test)]
mod std_devices;
#[cfg(test)]
mod streams;
#[cfg(test)]
mod timelines;
#[cfg(test)]
mod wrong_words;
#[cfg(test)]
mod zoned;
