//! The answers to the lines of a slice, where they lie: no buffer, no reader and no memory.
ghost use Rattle.std.specs.Prelude.{◌≡◌, ◌+◌, ◌<◌, ◌≤◌, ◌++◌, length, take, drop, IfOk, OnErr};
ghost use Rattle.instants_stream.specs.Answers.{answered, output};

use crate::answers_lines::AnswersLines;
use crate::put::{TooLittleRoom, put};
use crate::search::line_len;

// Writes the answer to a line, or that it is too long, and a line feed at the start of a room, and says how many bytes they are.
#[inline(always)]
#[tactic(auto, unfolding(crate::specs::Answers::answered, crate::specs::Answers::answer_or_long))]
fn fill_answered<A: AnswersLines>(answers: &A, limit: usize, line: &[u8], room: &mut [u8]) -> usize
    requires { 64 ≤ length room.old }
    ensures bytes { take result room.new ≡ answered (A.answer answers.now) limit line.now }
    ensures most { result ≤ 64 }
    ensures size { length room.new ≡ length room.old }
{
    if line.len() > limit {
        room[..7].copy_from_slice(b"! long\n");
        return 7;
    }
    answers.fill_answer(line, room)
}

/// Writes the answer to each line of the input into the start of the room, a line feed after each answer. How many bytes
/// the answers have.
///
/// A line with more bytes than the limit is answered `! long`.
// A function of its own, in which the input and the room are known to lie apart.
#[inline(never)]
pub fn lines_over<A: AnswersLines>(
    answers: &A,
    limit: usize,
    input: &[u8],
    room: &mut [u8],
) -> Result<usize, TooLittleRoom>
    // Exactly the answers are written, and what lies after them stays.
    ensures len { IfOk result
        (λ len. len ≡ length (output (A.answer answers.now) limit input.now)) }
    ensures written { IfOk result (λ len. room.new
        ≡ output (A.answer answers.now) limit input.now ++ drop len room.old) }
    // They are longer than the room, which holds their beginning.
    ensures longer { OnErr result
        (length room.old < length (output (A.answer answers.now) limit input.now)) }
    ensures full { OnErr result (room.new
        ≡ take (length room.old) (output (A.answer answers.now) limit input.now)) }
{
    let mut answer = [0; 64];
    let mut start = 0;
    let mut end = 0;
    while let Some(len) = line_len(&input[start..], 0) {
        let count = fill_answered(answers, limit, &input[start..start + len], &mut answer);
        let Ok(next) = put(room, end, &answer, count) else {
            return Err(TooLittleRoom);
        };
        end = next;
        start += len + 1;
    }
    if start < input.len() {
        let count = fill_answered(answers, limit, &input[start..], &mut answer);
        let Ok(next) = put(room, end, &answer, count) else {
            return Err(TooLittleRoom);
        };
        end = next;
    }
    Ok(end)
}
