//! What answers lines.

ghost use Rattle.std.specs.Prelude.{◌≡◌, ◌≤◌, ℕ, List, length};
ghost use Rattle.instants_answers.specs.Line.{HoldsLine};

use instants_answers::Answer;

/// What answers each line by itself.
pub trait AnswersLines {
    /// The bytes of the answer to a line.
    ghost answer: { Self → List ℕ → List ℕ };

    /// The answer to a line, with no line feed after it.
    fn answer_line(&self, line: &[u8]) -> Answer
        ensures bytes { result ≡ answer self.now line.now }
        // There is room for a line feed after it.
        ensures room { length result ≤ 63 };

    /// Writes the same answer, and a line feed, at the start of a room of at least 64 bytes, and says how many bytes they are.
    /// What stood in the room is lost. Nearly all lines come this way.
    fn fill_answer(&self, line: &[u8], room: &mut [u8]) -> usize
        requires { 64 ≤ length room.old }
        ensures line { HoldsLine (answer self.now line.now) result room.new }
        ensures size { length room.new ≡ length room.old };
}
