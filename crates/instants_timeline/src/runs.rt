//! One answer for each line of a stream, or of a slice.
ghost use Rattle.std.specs.Prelude.{◌≡◌, ℕ, List, ◌-◌, ◌<◌, ◌≤◌, ◌++◌, Err, false, length, take, drop, IfOk, OnErr};
ghost use Rattle.std.specs.Io.KnownBytes.{Keeps};
ghost use Rattle.instants_stream.specs.Answers.{by_answers, output};
ghost use Rattle.instants_stream.specs.Ran.{Ran};
ghost use Rattle.instants_timeline.specs.FirstNamed.{IsLedByPlan};
ghost use Rattle.instants_timeline.specs.Place.{answer_to};
ghost use Rattle.instants_timeline.specs.Settings.{setting_of};

use crate::timeline::{
    AnswerWay, ExactWay, Iso8601Way, Led, PlannedWay, Rfc2822Way, Rfc3339Way, Timeline,
};
use instants_sources::Source;
use instants_stream::{ByteReader, ByteWriter, RunFault, TooLittleRoom, lines_over, run_lines};
use parsing_plan::{Plan, PlanAt};

/// Writes the answer to each line that the reader gives, each followed by a line feed. The answers are handed on before
/// each read, and the writer is flushed at the end.
///
/// Lines end in LF; a nonempty last part is a line too. A line that is longer than the limit, which is one less than
/// the buffer's length, is answered `! long`. The first device that fails ends the run; nothing is tried again. Of what
/// the buffer holds afterwards nothing is said.
pub fn run<R: ByteReader, W: ByteWriter>(
    timeline: &Timeline,
    buffer: &mut [u8],
    reader: &mut R,
    writer: &mut W,
) -> Result<(), RunFault>
    requires room { 2 ≤ length buffer.old }
    requires reader { R.failed reader.old ≡ false }
    requires writer { W.failed writer.old ≡ false }
    ensures ran { Ran (by_answers (answer_to (setting_of timeline.now)) (length buffer.old - 1))
        R.ByteReader reader.old reader.new W.ByteWriter writer.old writer.new result }
    // Before the read that failed all was handed on.
    ensures handed_on { result ≡ Err RunFault.Read
        → Keeps (W.held writer.new) (W.handed_on writer.new) }
{
    answer_lines(timeline, buffer.len() - 1, buffer, reader, writer)
}

// Writes the answer to each line, by the run for a first source of its kind.
pub(crate) fn answer_lines<R: ByteReader, W: ByteWriter>(
    timeline: &Timeline,
    limit: usize,
    buffer: &mut [u8],
    reader: &mut R,
    writer: &mut W,
) -> Result<(), RunFault>
    requires room { limit < length buffer.old }
    requires reader { R.failed reader.old ≡ false }
    requires writer { W.failed writer.old ≡ false }
    ensures ran { Ran (by_answers (answer_to (setting_of timeline.now)) limit)
        R.ByteReader reader.old reader.new W.ByteWriter writer.old writer.new result }
    // Before the read that failed all was handed on.
    ensures handed_on { result ≡ Err RunFault.Read
        → Keeps (W.held writer.new) (W.handed_on writer.new) }
{
    let stream = OverStream { limit };
    run_by_first(&stream, timeline, buffer, reader, writer)
}

/// Writes the answer to each line of the input, each followed by a line feed, into the start of the room. How many bytes the
/// answers have.
///
/// Lines end in LF; a nonempty last part is a line too. A line that is longer than the limit is answered `! long`. The lines are
/// answered where they lie, and no memory is taken.
pub fn run_over(
    timeline: &Timeline,
    limit: usize,
    input: &[u8],
    room: &mut [u8],
) -> Result<usize, TooLittleRoom>
    // Exactly the answers are written, and what lies after them stays.
    ensures len { IfOk result
        (λ len. len ≡ length (output (answer_to (setting_of timeline.now)) limit input.now)) }
    ensures written { IfOk result (λ len. room.new
        ≡ output (answer_to (setting_of timeline.now)) limit input.now ++ drop len room.old) }
    // They are longer than the room, which holds their beginning.
    ensures longer { OnErr result (length room.old
        < length (output (answer_to (setting_of timeline.now)) limit input.now)) }
    ensures full { OnErr result (room.new ≡ take (length room.old)
        (output (answer_to (setting_of timeline.now)) limit input.now)) }
{
    let slice = OverSlice { limit, input };
    run_by_first(&slice, timeline, room, &mut (), &mut ())
}

// A run over lines, which is compiled for each way to answer them: with a reader, a writer and an end of these types.
trait LedRun<R, W, E> {
    // What it may begin with: bytes that it writes to, a reader and a writer.
    ghost begins: { Self → List ℕ → R → W → Type 0 };

    // What it did to them, by what answers a line, and how it ended.
    ghost ran: { Self → (List ℕ → List ℕ) → List ℕ → List ℕ → R → R → W → W → E → Type 0 };

    fn run_led<A: AnswerWay>(
        &self,
        led: &Led<'_, '_, A>,
        bytes: &mut [u8],
        reader: &mut R,
        writer: &mut W,
    ) -> E
        requires { begins self.now bytes.old reader.old writer.old }
        ensures { ran self.now (answer_to (setting_of led.now.timeline.now)) bytes.old bytes.new
            reader.old reader.new writer.old writer.new result };
}

// Over a stream, through a buffer.
#[derive(Drop)]
struct OverStream {
    limit: usize,
}

impl<R: ByteReader, W: ByteWriter> LedRun<R, W, Result<(), RunFault>> for OverStream {
    ghost use Rattle.std.specs.Prelude.{◌≡◌, ◌<◌, Err, false, length};
    ghost use Rattle.std.specs.Io.KnownBytes.{Keeps};
    ghost use Rattle.instants_stream.specs.Answers.{by_answers};
    ghost use Rattle.instants_stream.specs.Ran.{Ran};
    ghost use Rattle.instants_stream.specs.declared.run.RunFault.TheVariants.{Read};

    ghost begins = { λ run buffer reader writer. (run.limit < length buffer)
        × (R.failed reader ≡ false) × (W.failed writer ≡ false) };

    ghost ran = { λ run answer _ _ reader reader_new writer writer_new result.
        Ran (by_answers answer run.limit)
        R.ByteReader reader reader_new W.ByteWriter writer writer_new result
        × (result ≡ Err Read → Keeps (W.held writer_new) (W.handed_on writer_new)) };

    #[inline(always)]
    fn run_led<A: AnswerWay>(
        &self,
        led: &Led<'_, '_, A>,
        bytes: &mut [u8],
        reader: &mut R,
        writer: &mut W,
    ) -> Result<(), RunFault> {
        run_lines(led, self.limit, bytes, reader, writer)
    }
}

// Over a slice, into a room.
#[derive(Drop)]
struct OverSlice<'a> {
    limit: usize,
    input: &'a [u8],
}

impl LedRun<(), (), Result<usize, TooLittleRoom>> for OverSlice<'_> {
    ghost use Rattle.std.specs.Prelude.{◌≡◌, ◌<◌, ◌++◌, length, take, drop, IfOk, OnErr};
    ghost use Rattle.instants_stream.specs.Answers.{output};

    ghost begins = { λ _ _ _ _. Unit {0} };

    ghost ran = { λ run answer room room_new _ _ _ _ result.
        IfOk result (λ len. len ≡ length (output answer run.limit run.input.now))
        × IfOk result (λ len. room_new ≡ output answer run.limit run.input.now ++ drop len room)
        × OnErr result (length room < length (output answer run.limit run.input.now))
        × OnErr result (room_new ≡ take (length room) (output answer run.limit run.input.now)) };

    #[inline(always)]
    fn run_led<A: AnswerWay>(
        &self,
        led: &Led<'_, '_, A>,
        bytes: &mut [u8],
        _reader: &mut (),
        _writer: &mut (),
    ) -> Result<usize, TooLittleRoom> {
        lines_over(led, self.limit, self.input, bytes)
    }
}

// Runs in a way.
#[inline(always)]
fn run_by<R, W, E, T: LedRun<R, W, E>, A: AnswerWay + Drop>(
    way: A,
    run: &T,
    timeline: &Timeline,
    bytes: &mut [u8],
    reader: &mut R,
    writer: &mut W,
) -> E
    requires led { ∥ A.leads way (setting_of timeline.now) ∥₁ }
    requires begins { T.begins run.now bytes.old reader.old writer.old }
    ensures { T.ran run.now (answer_to (setting_of timeline.now)) bytes.old bytes.new
        reader.old reader.new writer.old writer.new result }
{
    run.run_led(&Led { timeline, way }, bytes, reader, writer)
}

// Runs in the way of a plan, by which the first source reads.
#[inline(always)]
fn run_by_plan<R, W, E, T: LedRun<R, W, E>>(
    plan: &Plan,
    run: &T,
    timeline: &Timeline,
    bytes: &mut [u8],
    reader: &mut R,
    writer: &mut W,
) -> E
    requires led { IsLedByPlan (setting_of timeline.now) plan.now }
    requires begins { T.begins run.now bytes.old reader.old writer.old }
    ensures { T.ran run.now (answer_to (setting_of timeline.now)) bytes.old bytes.new
        reader.old reader.new writer.old writer.new result }
{
    match plan.at(timeline.assumed()) {
        PlanAt::Plain(plan) => run_by(PlannedWay { plan }, run, timeline, bytes, reader, writer),
        PlanAt::Whole(plan) => run_by(PlannedWay { plan }, run, timeline, bytes, reader, writer),
        PlanAt::Split(plan) => run_by(PlannedWay { plan }, run, timeline, bytes, reader, writer),
        PlanAt::Unix(plan) => run_by(PlannedWay { plan }, run, timeline, bytes, reader, writer),
        PlanAt::Listed(plan) => run_by(PlannedWay { plan }, run, timeline, bytes, reader, writer),
        PlanAt::Other(plan) => run_by(PlannedWay { plan }, run, timeline, bytes, reader, writer),
    }
}

// Runs in the way of the first source.
#[inline(always)]
fn run_by_first<R, W, E, T: LedRun<R, W, E>>(
    run: &T,
    timeline: &Timeline,
    bytes: &mut [u8],
    reader: &mut R,
    writer: &mut W,
) -> E
    requires { T.begins run.now bytes.old reader.old writer.old }
    ensures { T.ran run.now (answer_to (setting_of timeline.now)) bytes.old bytes.new
        reader.old reader.new writer.old writer.new result }
{
    match timeline.first() {
        Source::Rfc3339 => run_by(Rfc3339Way, run, timeline, bytes, reader, writer),
        Source::Rfc2822 => run_by(Rfc2822Way, run, timeline, bytes, reader, writer),
        Source::Iso8601 => run_by(Iso8601Way, run, timeline, bytes, reader, writer),
        described => match described.plan() {
            Some(plan) => run_by_plan(plan, run, timeline, bytes, reader, writer),
            None => run_by(ExactWay, run, timeline, bytes, reader, writer),
        },
    }
}
