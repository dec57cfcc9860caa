//! What is written for bytes that came.
ghost use Rattle.std.specs.Prelude.{◌≡◌, ◌+◌, ◌-◌, ◌<◌, ◌≤◌, ◌++◌, ◌||◌, ℕ, List, true, false, length, take, drop, slice_index, IfOk, OnOk, OnErr};
ghost use Rattle.std.specs.Io.KnownBytes.{Appends};
ghost use Rattle.base.specs.Bytes.{line_feed};
ghost use Rattle.instants_stream.specs.Known.{AppendsPrefix};
ghost use Rattle.instants_stream.specs.Lines.{HasNoLineFeed, whole_lines, last_part};
ghost use Rattle.instants_stream.specs.Steps.{passed, opened, state_within, line_said, line_next, written, after, owed_of, state_of};
ghost use Rattle.instants_stream.specs.Wrote.{Wrote};
ghost use Rattle.instants_stream.specs.Came.{came_said, came_state, came_begun, kept, GoesOn, end_said};

use crate::devices::{ByteWriter, DeviceFailed};
use crate::search::{line_end, line_end_after};
use crate::writes_lines::WritesLines;

// Where the unfinished line begins among bytes, and whether it is begun: it is longer than the limit, and nothing of it is left.
#[derive(Clone, Copy)]
pub(crate) struct Unfinished {
    pub(crate) start: usize,
    pub(crate) is_begun: bool,
}

// What stands after a line of so many bytes and its line feed.
#[inline(always)]
fn after_line(bytes: &[u8], len: usize) -> &[u8]
    requires { len < length bytes.now }
    ensures { result.now ≡ drop (len + 1) bytes.now }
{
    &bytes[len + 1..]
}

// Hands on bytes of a line that is begun, or drops them.
#[inline(always)]
fn pass_on<S: WritesLines, W: ByteWriter>(
    steps: &S,
    bytes: &[u8],
    writer: &mut W,
) -> Result<(), DeviceFailed>
    requires { W.failed writer.old ≡ false }
    ensures { Wrote W.ByteWriter writer.old writer.new result
        (passed (S.steps.hands_on (S.state steps.now)) bytes.now) }
{
    if steps.hands_on() {
        return writer.write_all(bytes);
    }
    Ok(())
}

// Begins a line that is longer than the limit, of which these bytes are at hand.
#[inline(always)]
fn open_line<S: WritesLines, W: ByteWriter>(
    steps: &mut S,
    limit: usize,
    bytes: &[u8],
    writer: &mut W,
) -> Result<(), DeviceFailed>
    requires longer { limit < length bytes.now }
    requires writer { W.failed writer.old ≡ false }
    ensures wrote { Wrote W.ByteWriter writer.old writer.new result
        (opened S.steps limit (S.state steps.old) bytes.now) }
    ensures state { OnOk result
        (S.state steps.new ≡ state_within S.steps limit (S.state steps.old) bytes.now) }
{
    steps.begin_line(&bytes[..limit + 1], writer)?;
    pass_on(steps, &bytes[limit + 1..], writer)
}

// Writes for a line.
#[inline(always)]
fn write_any<S: WritesLines, W: ByteWriter>(
    steps: &mut S,
    limit: usize,
    line: &[u8],
    writer: &mut W,
) -> Result<(), DeviceFailed>
    requires { W.failed writer.old ≡ false }
    ensures wrote { Wrote W.ByteWriter writer.old writer.new result
        (line_said S.steps limit (S.state steps.old) line.now) }
    ensures state { OnOk result
        (S.state steps.new ≡ line_next S.steps limit (S.state steps.old) line.now) }
{
    if line.len() > limit {
        open_line(steps, limit, line, writer)?;
        return steps.end_line(writer);
    }
    steps.write_line(line, writer)
}

// How many bytes stand before the first line feed, and all where there is none, where the first `searched` are known to be none.
#[inline(always)]
fn line_end_noted<S: WritesLines>(steps: &S, bytes: &[u8], searched: usize) -> usize
    requires searched { searched ≤ length bytes.now }
    requires free { HasNoLineFeed (take searched bytes.now) }
    ensures within { result ≤ length bytes.now }
    ensures before { HasNoLineFeed (take result bytes.now) }
    ensures line_feed { result < length bytes.now → slice_index bytes.now result ≡ line_feed }
{
    let end = line_end_after(bytes, searched);
    steps.note_searched(end.saturating_sub(searched));
    end
}

// Writes for each whole line, and says where the last part begins. The first `searched` bytes are known to be no line feeds.
#[inline(always)]
fn write_whole_lines<S: WritesLines, W: ByteWriter>(
    steps: &mut S,
    limit: usize,
    bytes: &[u8],
    searched: usize,
    writer: &mut W,
) -> Result<usize, DeviceFailed>
    requires writer { W.failed writer.old ≡ false }
    requires searched { searched ≤ length bytes.now }
    requires free { HasNoLineFeed (take searched bytes.now) }
    ensures within { IfOk result (λ start. start ≤ length bytes.now) }
    ensures rest { IfOk result (λ start. drop start bytes.now ≡ last_part bytes.now) }
    ensures wrote { Wrote W.ByteWriter writer.old writer.new result
        (written S.steps limit (S.state steps.old) (whole_lines bytes.now)) }
    ensures state { OnOk result (S.state steps.new ≡
        after S.steps limit (S.state steps.old) (whole_lines bytes.now)) }
{
    let mut rest = bytes;
    // The end of the next line is found before a line is read, so that it isn't waited for.
    let mut len = line_end_noted(steps, bytes, searched);
    if len == rest.len() {
        return Ok(0);
    }
    loop {
        let line = &rest[..len];
        rest = after_line(rest, len);
        len = line_end(rest);
        steps.note_searched(len);
        write_any(steps, limit, line, writer)?;
        if len == rest.len() {
            return Ok(bytes.len() - rest.len());
        }
    }
}

// Goes on with a line, to its end if that came, where it is begun. (No part of the loop over lines, which takes fewer
// instructions beside a call.)
#[inline(never)]
fn go_on<S: WritesLines, W: ByteWriter>(
    steps: &S,
    bytes: &[u8],
    is_begun: bool,
    writer: &mut W,
) -> Result<Unfinished, DeviceFailed>
    requires { W.failed writer.old ≡ false }
    ensures within { IfOk result (λ left. left.start ≤ length bytes.now) }
    ensures new { IfOk result (λ left. is_begun ≡ false → left.start ≡ 0) }
    ensures written { IfOk result (λ left. (word : List ℕ)
        × Appends (W.held writer.old) (W.held writer.new) word
        × GoesOn S.steps (S.state steps.now) is_begun
        bytes.now word (drop left.start bytes.now) left.is_begun) }
    ensures ok { OnOk result (W.failed writer.new ≡ W.failed writer.old) }
    ensures prefix { OnErr result ((limit : ℕ)
        → AppendsPrefix (W.held writer.old) (W.held writer.new) (came_said S.steps limit is_begun
        (S.state steps.now) (whole_lines bytes.now) (last_part bytes.now))) }
    ensures err { OnErr result (W.failed writer.new ≡ true) }
{
    if !is_begun {
        return Ok(Unfinished { start: 0, is_begun });
    }
    let len = line_end(bytes);
    steps.note_searched(len);
    pass_on(steps, &bytes[..len], writer)?;
    if len == bytes.len() {
        return Ok(Unfinished {
            start: len,
            is_begun,
        });
    }
    steps.end_line(writer)?;
    Ok(Unfinished {
        start: len + 1,
        is_begun: false,
    })
}

// Writes for bytes that came, of which the first `searched` are known to be no line feeds. The line that they go on with is
// maybe begun, and then none of its bytes are among them.
#[inline(always)]
pub(crate) fn write_came<S: WritesLines, W: ByteWriter>(
    steps: &mut S,
    limit: usize,
    bytes: &[u8],
    searched: usize,
    is_begun: bool,
    writer: &mut W,
) -> Result<Unfinished, DeviceFailed>
    requires writer { W.failed writer.old ≡ false }
    requires searched { searched ≤ length bytes.now }
    requires begun { is_begun ≡ true → searched ≡ 0 }
    requires free { HasNoLineFeed (take searched bytes.now) }
    ensures within { IfOk result (λ left. left.start ≤ length bytes.now) }
    ensures short { IfOk result (λ left. length bytes.now - left.start ≤ limit) }
    ensures rest { IfOk result
        (λ left. drop left.start bytes.now ≡ kept left.is_begun (last_part bytes.now)) }
    ensures begun { IfOk result (λ left. left.is_begun
        ≡ came_begun limit is_begun (whole_lines bytes.now) (last_part bytes.now)) }
    ensures wrote { Wrote W.ByteWriter writer.old writer.new result
        (came_said S.steps limit is_begun
        (S.state steps.old) (whole_lines bytes.now) (last_part bytes.now)) }
    ensures state { OnOk result (S.state steps.new ≡ came_state S.steps limit is_begun
        (S.state steps.old) (whole_lines bytes.now) (last_part bytes.now)) }
{
    let first = go_on(steps, bytes, is_begun, writer)?;
    let rest = &bytes[first.start..];
    let start = write_whole_lines(steps, limit, rest, searched, writer)?;
    if rest.len() - start <= limit {
        return Ok(Unfinished {
            start: first.start + start,
            is_begun: first.is_begun,
        });
    }
    open_line(steps, limit, &rest[start..], writer)?;
    Ok(Unfinished {
        start: bytes.len(),
        is_begun: true,
    })
}

// Writes at the end of a stream for its last line, which is begun or lies here. No line is left where no bytes are.
#[inline(always)]
pub(crate) fn write_end<S: WritesLines, W: ByteWriter>(
    steps: &mut S,
    line: &[u8],
    is_begun: bool,
    writer: &mut W,
) -> Result<(), DeviceFailed>
    requires { W.failed writer.old ≡ false }
    ensures { Wrote W.ByteWriter writer.old writer.new result
        (end_said S.steps is_begun (S.state steps.old) line.now) }
{
    if is_begun {
        return steps.end_last_line(writer);
    }
    if line.is_empty() {
        return Ok(());
    }
    steps.write_last_line(line, writer)
}
