//! The calls for dates inside lines.
ghost use Rattle.std.specs.Prelude.{◌≡◌, ◌≢◌, ◌≤◌, None, Some};
ghost use Rattle.std.specs.Borrow.{sem};
ghost use Rattle.std.specs.Box.Ownership.{box_owns};
ghost use Rattle.std.specs.contracts.impls.GlobalAllocator.TheImpl.{ghosts};
ghost use base.Fml.{Lft, Share, fsep, flft};
ghost use denote.Struct.Lending.{lent_at};
ghost use Rattle.instants_stream.specs.Lines.{parts};
ghost use Rattle.instants_lines_memory.specs.FaultText.{sentence, status_of};
ghost use Rattle.instants_lines_memory.specs.Zoned.{IsAskedBy, IsRefused};
ghost use Rattle.instants_lines_memory.specs.declared.open_fault.OpenFault.{OpenFault};
ghost use Rattle.instants_lines_memory.specs.declared.zoned_lines.ZonedLines.{ZonedLines};
ghost use Rattle.instants_c.specs.contracts.lines_kept.KeptLines.{the_row as kept_row};
ghost use Rattle.instants_c.specs.declared.lines_kept.KeptLines.{KeptLines};
ghost use Rattle.instants_c.specs.LinesPut.{AreDatesPut, AreKeysPut};
ghost use Rattle.instants_c.specs.Refused.{IsPut};

use crate::lines_handle::LinesHandle;
use crate::lines_kept::{self, KeptLines};
use crate::parts::Parts;
use crate::sentences;
use instants_lines_memory::{Above, LineDate};
use std::alloc::Global;
use std::mem;

/// Opens a handle on what the words of `instants-lines` ask for in modes `key` and `carry`, with the bytes of the file of the zone
/// that they name, or none. A call on it looks at no words and takes no memory. The result is the program's status.
///
/// The text of the words stays as it is until the handle is closed.
#[unsafe(no_mangle)]
pub extern "C" fn instants_lines_open(
    alloc: Global,
    words: &'static [u8],
    zone: &[u8],
    handle: &mut LinesHandle,
) -> u8
    // What an open handle keeps would be lost.
    requires closed { handle.old.kept ≡ None }
    ensures status { result ≤ 2 }
    // It keeps what the words and the zone ask for.
    ensures ok { result ≡ 0 → (kept : KeptLines) × (handle.new.kept ≡ Some kept)
        × IsAskedBy (parts words.now) zone.now kept.zoned }
    // Else it stays closed, and nothing is kept.
    ensures failed { result ≢ 0 → handle.new ≡ handle.old }
    // The words are refused, or the bytes are no zone's file.
    ensures refused { result ≡ 2 → (fault : OpenFault)
        × IsRefused (parts words.now) zone.now fault × (status_of fault ≡ 2) }
{
    match lines_kept::keep(alloc, words, zone) {
        Ok(kept) => {
            mem::replace(handle, LinesHandle::of(Parts::of(kept))).forget();
            0
        }
        Err(fault) => fault.status(),
    }
}

/// Writes each line of the input after the key of its date, by what an open handle for lines keeps, as the program does. What lines
/// take of those above is handed in, and what lines below take is given out. The result is the program's status, and `written` has how
/// many bytes were written. It takes no memory, and several threads may call at once.
#[unsafe(no_mangle)]
pub unsafe extern "C" fn instants_lines_keys(
    at: *const u8,
    input: &[u8],
    output: &mut [u8],
    written: &mut usize,
    above: &mut Above,
) -> u8
    ghost g: { (Lft × Share) × KeptLines }
    // What the handle keeps is lent for the call, and can be lent to others at once.
    requires* open { sem 𝓛 (fsep (lent_at kept_row at g.1 g.0.0) (flft g.0.0 g.0.1)) }
    ensures* lent { sem 𝓛 (flft g.0.0 g.0.1) }
    ensures keys { AreKeysPut g.1 above.old input.now result written.new output.old above.new output.new }
{
    lines_kept::write_keys(&*(at as *const KeptLines), input, output, written, above)
}

/// Writes the date of each line of the input, by what an open handle for lines keeps: one entry a line, its moment as numbers and
/// where it is, or the number of why there is none. The result is the program's status, and `written` has how many entries were
/// written. It takes no memory, and several threads may call at once.
#[unsafe(no_mangle)]
pub unsafe extern "C" fn instants_lines_dates(
    at: *const u8,
    input: &[u8],
    dates: &mut [LineDate],
    written: &mut usize,
) -> u8
    ghost g: { (Lft × Share) × KeptLines }
    // What the handle keeps is lent for the call, and can be lent to others at once.
    requires* open { sem 𝓛 (fsep (lent_at kept_row at g.1 g.0.0) (flft g.0.0 g.0.1)) }
    ensures* lent { sem 𝓛 (flft g.0.0 g.0.1) }
    ensures dates { AreDatesPut g.1 input.now result written.new dates.old dates.new }
{
    lines_kept::write_dates(&*(at as *const KeptLines), input, dates, written)
}

/// Closes an open handle for lines, and gives back all memory that it keeps.
#[unsafe(no_mangle)]
pub unsafe extern "C" fn instants_lines_close(alloc: Global, at: *mut u8)
    ghost value: { KeptLines }
    // What the handle keeps, and the right to free it.
    requires* open { sem 𝓛 (box_owns (ghosts.dealloc_token alloc) kept_row at value) }
{
    lines_kept::close(Parts {
        ptr: at as *mut KeptLines,
        alloc,
    });
}

/// Looks at the words and the zone as `instants_lines_open` does, and writes the sentence of what is refused, as much as there is room
/// for. The result is the program's status, and `length` has how many bytes the whole sentence has.
#[unsafe(no_mangle)]
pub extern "C" fn instants_lines_sentence(
    alloc: Global,
    words: &[u8],
    zone: &[u8],
    output: &mut [u8],
    len: &mut usize,
) -> u8
    // They are accepted, and nothing is said.
    ensures accepted { result ≡ 0 → (zoned : ZonedLines) × IsAskedBy (parts words.now) zone.now zoned
        × (len.new ≡ 0) × (output.new ≡ output.old) }
    ensures refused { result ≢ 0 → (fault : OpenFault) × IsRefused (parts words.now) zone.now fault
        × (result ≡ status_of fault) × IsPut (sentence fault) output.old output.new len.new }
{
    match lines_kept::opened(alloc, words, zone) {
        Ok(_) => {
            *len = 0;
            0
        }
        Err(fault) => sentences::write_open_fault(alloc, fault, output, len),
    }
}
