//! The keys of lines that stand in memory.
ghost use Rattle.std.specs.Prelude.{◌≡◌, ◌<◌, ◌++◌, length, take, drop, true, IfOk, OnErr};
ghost use Rattle.instants_lines.specs.Going.{has_keys};
ghost use Rattle.instants_lines.specs.Opened.{begins_in};
ghost use Rattle.instants_lines_memory.specs.Over.{IsAboveAfter, keys_of};

use crate::put::put_keyed;
use instants_lines::{Above, OpenLines};
use instants_memory::first_line;
use instants_stream::TooLittleRoom;
use zones_clock::Zone;

/// Writes each line of the input after the key of its date, as the program does in modes `key` and `carry`, into the start of the
/// room. How many bytes that is.
///
/// What the lines take of those above them is handed in, and what lines below them take is given out. The lines are read where they
/// lie, and no memory is taken.
// A function of its own, in which the input and the room are known to lie apart.
#[inline(never)]
pub fn keys_over(
    asked: &OpenLines<'_>,
    zone: Option<&Zone>,
    above: &mut Above,
    input: &[u8],
    room: &mut [u8],
) -> Result<usize, TooLittleRoom>
    requires keys { has_keys asked.now.mode ≡ true }
    // Exactly the output of the program is written, and what lies after it stays.
    ensures len { IfOk result (λ len. len ≡ length (keys_of (begins_in asked.now zone.entry) above.old input.now)) }
    ensures written { IfOk result (λ len. room.new
        ≡ keys_of (begins_in asked.now zone.entry) above.old input.now ++ drop len room.old) }
    ensures above { IfOk result (λ _.
        IsAboveAfter (begins_in asked.now zone.entry) above.old input.now above.new) }
    // It is longer than the room, which holds its beginning.
    ensures longer { OnErr result
        (length room.old < length (keys_of (begins_in asked.now zone.entry) above.old input.now)) }
    ensures full { OnErr result (room.new
        ≡ take (length room.old) (keys_of (begins_in asked.now zone.entry) above.old input.now)) }
    ensures stays { OnErr result (above.new ≡ above.old) }
{
    let mut writer = asked.writer(zone);
    writer.begin_below(above);
    let label = asked.label();
    let mut rest = input;
    let mut end = 0;
    while !rest.is_empty() {
        let (line, after) = first_line(rest);
        let key = writer.take_tabbed(line);
        let Ok(next) = put_keyed(room, end, &key, label, line) else {
            return Err(TooLittleRoom);
        };
        end = next;
        rest = after;
    }
    *above = writer.above();
    Ok(end)
}
