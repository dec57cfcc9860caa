//! What is asked of lines by words and the bytes of a zone's file.
ghost use Rattle.std.specs.Prelude.{◌≡◌, ◌⊎◌, map, Some, IfOk, IfErr};
ghost use Rattle.zones_file.specs.Faults.{fault_of};
ghost use Rattle.zones_file.specs.declared.fault.ZoneFault.{ZoneFault};
ghost use Rattle.instants_lines_memory.specs.Zoned.{IsAskedBy, IsRefused, IsZoneIn};
ghost use Rattle.instants_lines_memory.specs.ZonedOver.{AreDatesWritten, AreKeysWritten};

use crate::dates::dates_over;
use crate::keys::keys_over;
use crate::open_fault::OpenFault;
use crate::zoned_lines::ZonedLines;
use instants_lines::{Above, LineDate, OpenLines};
use instants_stream::TooLittleRoom;
use std::alloc::Global;
use zones_clock::Zone;
use zones_file::{ZoneFault, read_zone};

// The zone of a file's bytes, if there are any.
fn zone_of(alloc: Global, bytes: &[u8]) -> Result<Option<Zone>, ZoneFault>
    ensures ok { IfOk result (IsZoneIn bytes.now) }
    ensures refused { IfErr result (λ fault.
        (fault ≡ ZoneFault.Memory) ⊎ (fault_of bytes.now ≡ Some fault)) }
{
    if bytes.is_empty() {
        return Ok(None);
    }
    let zone = read_zone(alloc, bytes)?;
    Ok(Some(zone))
}

impl<'a> ZonedLines<'a> {
    /// What the words ask for, which are those of `instants_lines::run_words` in modes `key` and `carry`, with the bytes of a zone's
    /// file, or none.
    pub fn of_words(
        alloc: Global,
        words: &[&'a str],
        zone: &[u8],
    ) -> Result<ZonedLines<'a>, OpenFault<'a>>
        ensures ok { IfOk result (IsAskedBy (map (λ word. word.now) words.now) zone.now) }
        ensures refused { IfErr result (IsRefused (map (λ word. word.now) words.now) zone.now) }
    {
        let zone = zone_of(alloc, zone)?;
        let lines = OpenLines::of_words(alloc, words, zone.as_ref())?;
        if !lines.has_keys() {
            return Err(OpenFault::Mode);
        }
        Ok(ZonedLines { lines, zone })
    }

    /// Writes each line of the input after the key of its date into the start of the room, as `keys_over` does.
    pub fn keys_over(
        &self,
        above: &mut Above,
        input: &[u8],
        room: &mut [u8],
    ) -> Result<usize, TooLittleRoom>
        ensures { AreKeysWritten self.now above.old input.now room.old result above.new room.new }
    {
        keys_over(&self.lines, self.zone.as_ref(), above, input, room)
    }

    /// Writes the date of each line of the input as numbers into the start of the room, as `dates_over` does.
    pub fn dates_over(&self, input: &[u8], room: &mut [LineDate]) -> Result<usize, TooLittleRoom>
        ensures { AreDatesWritten self.now input.now room.old result room.new }
    {
        dates_over(&self.lines, self.zone.as_ref(), input, room)
    }
}
