//! Why a line has no place on the timeline.
ghost use Rattle.std.specs.Prelude.{◌≡◌, ◌≢◌, ◌+◌, ◌≤◌, [], ◌∷◌, ◌++◌, codes, length, take};
ghost use Rattle.base.specs.Bytes.{line_feed};
ghost use Rattle.instants_answers.specs.Line.{HoldsLine};

use instants_answers::Answer;
use parsing_combinator::{Parse, ParseFromDescription, TryFromParsed};

/// Why a line has no place on the timeline. The names of components are in small letters, as `offset hour`.
#[derive(Clone, Copy, Debug, PartialEq, Eq)]
pub enum LineFault {
    /// A text that is due is not there: `! literal`.
    Literal,
    /// The component of this name can't be read: `! component NAME`.
    Component(&'static str),
    /// Something follows what was read: `! trailing`.
    Trailing,
    /// What was read says too little for a moment: `! insufficient`.
    Insufficient,
    /// The component of this name is out of range: `! range NAME`.
    Range(&'static str),
    /// The year that is shown at the target offset is not 0 to 9999: `! year`.
    Year,
    /// The line is longer than the limit: `! long`. Only a run over a stream has a limit.
    Long,
}

impl LineFault {
    ghost use Rattle.instants_faults.specs.Refusal.{IsShort, long, refusal_said, refusal_text};

    /// Puts what stands for a line in place of a date-time.
    #[inline(always)]
    pub fn put(self, answer: &mut Answer)
        requires short { IsShort (refusal_said self) }
        requires not_long { refusal_said self ≢ long }
        ensures bytes { answer.new ≡ refusal_text (refusal_said self) }
        ensures room { length answer.new ≤ 63 }
        ensures never_long { answer.new ≢ codes "! long" }
    {
        answer.clear();
        match self {
            LineFault::Literal => answer.push_bytes(b"! literal"),
            LineFault::Component(name) => {
                answer.push_bytes(b"! component ");
                answer.push_bytes(name.as_bytes());
            }
            LineFault::Trailing => answer.push_bytes(b"! trailing"),
            LineFault::Insufficient => answer.push_bytes(b"! insufficient"),
            LineFault::Range(name) => {
                answer.push_bytes(b"! range ");
                answer.push_bytes(name.as_bytes());
            }
            LineFault::Year => answer.push_bytes(b"! year"),
            LineFault::Long => answer.push_bytes(b"! long"),
        }
    }

    /// Writes what stands for a line, and a line feed, at the start of a room of at least 64 bytes, and says how many bytes they
    /// are.
    #[cold]
    #[inline(never)]
    pub fn fill(self, room: &mut [u8]) -> usize
        requires room { 64 ≤ length room.old }
        requires short { IsShort (refusal_said self) }
        requires not_long { refusal_said self ≢ long }
        ensures line { HoldsLine (refusal_text (refusal_said self)) result room.new }
        ensures size { length room.new ≡ length room.old }
    {
        match self {
            LineFault::Literal => fill_text(room, b"! literal\n"),
            LineFault::Component(name) => fill_named(room, b"! component ", name.as_bytes()),
            LineFault::Trailing => fill_text(room, b"! trailing\n"),
            LineFault::Insufficient => fill_text(room, b"! insufficient\n"),
            LineFault::Range(name) => fill_named(room, b"! range ", name.as_bytes()),
            LineFault::Year => fill_text(room, b"! year\n"),
            LineFault::Long => fill_text(room, b"! long\n"),
        }
    }
}

// Writes a text at the start of a room, and says how many bytes it has.
#[inline(always)]
fn fill_text(room: &mut [u8], text: &[u8]) -> usize
    requires { length text.now ≤ length room.old }
    ensures text { take result room.new ≡ text.now }
    ensures len { result ≡ length text.now }
    ensures size { length room.new ≡ length room.old }
{
    room[..text.len()].copy_from_slice(text);
    text.len()
}

// Writes a text, a name and a line feed at the start of a room, and says how many bytes they have.
#[inline(always)]
fn fill_named(room: &mut [u8], text: &[u8], name: &[u8]) -> usize
    requires { length text.now + length name.now + 1 ≤ length room.old }
    ensures text { take result room.new ≡ (text.now ++ name.now) ++ line_feed ∷ [] }
    ensures len { result ≡ length text.now + length name.now + 1 }
    ensures size { length room.new ≡ length room.old }
{
    let (start, end) = (text.len(), text.len() + name.len());
    room[..start].copy_from_slice(text);
    room[start..end].copy_from_slice(name);
    room[end] = b'\n';
    end + 1
}

/// Writes the line of a line without a year, as most lines without a date are, at the start of a room of at least 64 bytes,
/// and says how many bytes it has.
#[inline(always)]
pub fn fill_no_year(room: &mut [u8]) -> usize
    requires { 64 ≤ length room.old }
    ensures line { HoldsLine (codes "! component year") result room.new }
    ensures size { length room.new ≡ length room.old }
{
    fill_text(room, b"! component year\n")
}

impl From<Parse> for LineFault {
    ghost use Rattle.std.specs.Prelude.{◌≡◌};
    ghost use Rattle.parsing_combinator.specs.FaultOf.{fault_of};
    ghost use Rattle.instants_faults.specs.Refusal.{refusal_of, refusal_said};

    ghost from_gives = { λ fault said. refusal_said said ≡ refusal_of (fault_of fault) };

    #[inline(always)]
    fn from(fault: Parse) -> LineFault {
        match fault {
            Parse::ParseFromDescription(ParseFromDescription::InvalidLiteral) => LineFault::Literal,
            Parse::ParseFromDescription(ParseFromDescription::InvalidComponent(name)) => {
                LineFault::Component(name)
            }
            Parse::ParseFromDescription(ParseFromDescription::UnexpectedTrailingCharacters) => {
                LineFault::Trailing
            }
            Parse::TryFromParsed(TryFromParsed::InsufficientInformation) => LineFault::Insufficient,
            Parse::TryFromParsed(TryFromParsed::ComponentRange(range)) => {
                LineFault::Range(range.name())
            }
        }
    }
}
