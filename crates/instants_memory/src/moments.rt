//! The moments of lines that stand in memory, as numbers.
ghost use Rattle.std.specs.Prelude.{◌≡◌, ◌<◌, ◌++◌, ◌∷◌, length, map, take, drop, Ok, Err, IfOk, OnErr};
ghost use Rattle.instants_stream.specs.Lines.{lines};
ghost use Rattle.instants_faults.specs.Refusal.{refusal_said};
ghost use Rattle.instants_timeline.specs.Settings.{setting_of};
ghost use Rattle.instants_memory.specs.Numbers.{entry_of, numbers_of};

use crate::numbers::fault_number;
use datetime_types::{OffsetDateTime, WallClock};
use instants_stream::line_len;
use instants_timeline::{LineFault, Timeline, TooLittleRoom};

/// What a line names, as numbers: a moment, or a fault.
#[repr(C)]
#[derive(Clone, Copy, Debug, PartialEq, Eq)]
pub struct Moment {
    /// The seconds since 1970 began in UTC, rounded down; 0 where there is a fault.
    pub seconds: i64,
    /// The nanoseconds after them, below 1,000,000,000; 0 where there is a fault.
    pub nanoseconds: u32,
    /// 0 for a moment, and else the number of a fault.
    pub fault: u32,
}

// A moment as numbers.
#[inline(always)]
fn moment_numbers(moment: OffsetDateTime) -> Moment
    ensures { result ≡ numbers_of (Ok moment) }
{
    Moment {
        seconds: moment.unix_timestamp(),
        nanoseconds: moment.nanosecond(),
        fault: 0,
    }
}

// A fault as numbers.
#[cold]
#[inline(never)]
#[tactic(auto, unfolding(crate::specs::Numbers::numbers_of))]
fn fault_numbers(fault: LineFault) -> Moment
    ensures { result ≡ numbers_of (Err (refusal_said fault)) }
{
    Moment {
        seconds: 0,
        nanoseconds: 0,
        fault: fault_number(fault),
    }
}

// What a line names.
#[inline(always)]
#[tactic(auto, unfolding(crate::specs::Numbers::entry_of))]
fn line_numbers(timeline: &Timeline, limit: usize, line: &[u8]) -> Moment
    ensures { result ≡ entry_of (setting_of timeline.now) limit line.now }
{
    if line.len() > limit {
        return fault_numbers(LineFault::Long);
    }
    match timeline.place(line) {
        Ok(moment) => moment_numbers(moment),
        Err(fault) => fault_numbers(fault),
    }
}

/// The first line of an input, and the bytes after it and its line feed.
#[inline(always)]
pub fn first_line(input: &[u8]) -> (&[u8], &[u8])
    requires { 0 < length input.now }
    ensures lines { lines input.now ≡ result.0.now ∷ lines result.1.now }
    ensures less { length result.1.now < length input.now }
{
    match line_len(input, 0) {
        Some(len) => (&input[..len], &input[len + 1..]),
        None => (input, &[]),
    }
}

/// Writes what each line of the input names into the start of the room, one entry a line. How many lines there are.
///
/// Lines end in LF; a nonempty last part is a line too. A line that is longer than the limit has the fault of that. The lines
/// are read where they lie, and no memory is taken.
// A function of its own, in which the input and the room are known to lie apart.
#[inline(never)]
pub fn moments_over(
    timeline: &Timeline,
    limit: usize,
    input: &[u8],
    room: &mut [Moment],
) -> Result<usize, TooLittleRoom>
    // Exactly the entries of the lines are written, and what lies after them stays.
    ensures len { IfOk result (λ len. len ≡ length (lines input.now)) }
    ensures written { IfOk result (λ len. room.new
        ≡ map (entry_of (setting_of timeline.now) limit) (lines input.now) ++ drop len room.old) }
    // There are more lines than the room has entries, which are those of the first lines.
    ensures longer { OnErr result (length room.old < length (lines input.now)) }
    ensures full { OnErr result (room.new
        ≡ take (length room.old) (map (entry_of (setting_of timeline.now) limit) (lines input.now))) }
{
    let mut rest = input;
    let mut count = 0;
    while !rest.is_empty() {
        if count == room.len() {
            return Err(TooLittleRoom);
        }
        let (line, after) = first_line(rest);
        room[count] = line_numbers(timeline, limit, line);
        count += 1;
        rest = after;
    }
    Ok(count)
}
