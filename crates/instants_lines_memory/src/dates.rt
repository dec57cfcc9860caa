//! The dates of lines that stand in memory, as numbers.
ghost use Rattle.std.specs.Prelude.{◌≡◌, ◌<◌, ◌++◌, length, take, drop, IfOk, OnErr};
ghost use Rattle.instants_stream.specs.Lines.{lines};
ghost use Rattle.instants_lines.specs.LineDates.{dates_from};
ghost use Rattle.instants_lines.specs.Opened.{begins_in};

use instants_lines::{LineDate, OpenLines};
use instants_memory::first_line;
use instants_stream::TooLittleRoom;
use zones_clock::Zone;

/// Writes the date of each line of the input as numbers into the start of the room, one entry a line. How many lines there are.
///
/// Lines end in LF; a nonempty last part is a line too. The lines are read where they lie, and no memory is taken.
// A function of its own, in which the input and the room are known to lie apart.
#[inline(never)]
pub fn dates_over(
    asked: &OpenLines<'_>,
    zone: Option<&Zone>,
    input: &[u8],
    room: &mut [LineDate],
) -> Result<usize, TooLittleRoom>
    // Exactly the dates of the lines are written, and what lies after them stays.
    ensures len { IfOk result (λ len. len ≡ length (lines input.now)) }
    ensures written { IfOk result (λ len. room.new
        ≡ dates_from (begins_in asked.now zone.entry) (lines input.now) ++ drop len room.old) }
    // There are more lines than the room has entries, which are those of the first lines.
    ensures longer { OnErr result (length room.old < length (lines input.now)) }
    ensures full { OnErr result (room.new
        ≡ take (length room.old) (dates_from (begins_in asked.now zone.entry) (lines input.now))) }
{
    let mut writer = asked.writer(zone);
    let mut rest = input;
    let mut count = 0;
    while !rest.is_empty() {
        if count == room.len() {
            return Err(TooLittleRoom);
        }
        let (line, after) = first_line(rest);
        room[count] = writer.take_numbers(line);
        count += 1;
        rest = after;
    }
    Ok(count)
}
