//! The offset at which lines are shown.
ghost use Rattle.std.specs.Prelude.{◌≡◌, ◌+◌, ◌≤◌, ◌↔◌, [], ◌∷◌, ◌++◌, length, take, pos, ◌+ℤ◌, int_div, int_lt, unsigned_abs, IsTrue, codes, if◌then◌else◌};
ghost use Rattle.base.specs.Bytes.{line_feed};
ghost use Rattle.calendar.specs.UtcOffset.{IsClockOffset};
ghost use Rattle.std.specs.Ordering.{int_eq};
ghost use Rattle.instants_answers.specs.Padded.{ended_offset, padded_offset, offset_len};
ghost use Rattle.instants_answers.specs.Text as text;

use crate::answer::Answer;
use calendar::UtcOffset;
use parsing_values::digit_pair;
use std::marker::Model;

// Minutes are counted from so many days before on, so that no number is below zero.
pub(crate) const DAYS_AHEAD: u8 = 4;

// The minutes of so many days.
const MINUTES_AHEAD: i32 = DAYS_AHEAD as i32 * 1440;

/// An offset of whole minutes, within 23:59, at which lines are shown.
///
/// It is kept with its minutes and its text, with a line feed and without, which each line asks for. A contract sees its
/// seconds.
#[derive(Clone, Copy)]
pub struct Target {
    offset: UtcOffset,
    minutes_ahead: i32,
    text: [u8; 8],
    ended_text: [u8; 8],
    len: usize,
}

impl Model for Target {
    ghost use Rattle.std.specs.Prelude.{ℤ, ◌≡◌, ◌+◌, pos, ◌+ℤ◌, int_div};
    ghost use Rattle.std.proofs.Common.{ap, sym};
    ghost use Rattle.calendar.specs.UtcOffset.{IsClockOffset};
    ghost use Rattle.instants_answers.specs.Padded.{ended_offset, padded_offset, offset_len};

    ghost Value = { ℤ };

    ghost view = { λ t. t.offset };

    ghost invariant = { λ t. IsClockOffset t.offset × (t.minutes_ahead ≡ pos 5760 +ℤ int_div t.offset (pos 60))
        × (t.text ≡ padded_offset t.offset) × (t.ended_text ≡ ended_offset t.offset) × (t.len ≡ offset_len t.offset) };

    ghost inverse = { λ z. record {
      offset = z;
      minutes_ahead = pos 5760 +ℤ int_div z (pos 60);
      text = padded_offset z;
      ended_text = ended_offset z;
      len = offset_len z;
    } };

    ghost inverse_ok = { λ t h. Prim.rw (h.1, h.2, h.3, h.4) };
}

// The sign of an offset.
fn sign(seconds: i32) -> u8
    ensures { result ∷ [] ≡ (if int_lt seconds (pos 0) then codes "-" else codes "+") }
{
    if seconds < 0 { b'-' } else { b'+' }
}

// The text of an offset, with zeros after it, and how many bytes it has.
fn offset_text(seconds: i32) -> ([u8; 8], usize)
    requires range { unsigned_abs seconds ≤ 86_340 }
    ensures text { result.0 ≡ padded_offset seconds }
    ensures len { result.1 ≡ offset_len seconds }
{
    if seconds == 0 {
        return ([b'Z', 0, 0, 0, 0, 0, 0, 0], 1);
    }
    let minutes = seconds.unsigned_abs() / 60;
    let hours = digit_pair(minutes / 60);
    let minutes = digit_pair(minutes % 60);
    (
        [
            sign(seconds),
            hours.0,
            hours.1,
            b':',
            minutes.0,
            minutes.1,
            0,
            0,
        ],
        6,
    )
}

impl Target {
    /// The target at an offset.
    #[inline(always)]
    pub fn new(offset: UtcOffset) -> Target
        requires { IsClockOffset offset }
        ensures { result ≡ offset }
    {
        let (text, len) = offset_text(offset.whole_seconds());
        let mut ended_text = text;
        ended_text[len] = b'\n';
        Target {
            offset,
            minutes_ahead: MINUTES_AHEAD + i32::from(offset.whole_minutes()),
            text,
            ended_text,
            len,
        }
    }

    /// The offset.
    #[inline(always)]
    pub fn offset(self) -> UtcOffset
        ensures value { result ≡ self }
        ensures clock { IsClockOffset self }
    {
        self.offset
    }

    /// Whether it is UTC.
    #[inline(always)]
    pub fn is_utc(self) -> bool
        ensures { IsTrue result ↔ (self ≡ pos 0) }
    {
        self.offset.whole_seconds() == 0
    }

    /// Its minutes, and those of four days.
    #[inline(always)]
    pub(crate) fn minutes_ahead(self) -> i32
        ensures value { result ≡ pos 5760 +ℤ int_div self (pos 60) }
        ensures bound { unsigned_abs (int_div self (pos 60)) ≤ 1559 }
    {
        self.minutes_ahead
    }

    /// Adds its text to an answer.
    #[inline(always)]
    pub(crate) fn push_text(&self, answer: &mut Answer)
        requires room { length answer.old + 8 ≤ 64 }
        ensures text { answer.new ≡ answer.old ++ text.offset_text self.now }
        ensures len { length answer.new
            ≡ length answer.old + (if int_eq self.now (pos 0) then 1 else 6) }
        ensures clock { IsClockOffset self.now }
    {
        answer.push_prefix(&self.text, self.len);
    }

    /// Its text and a line feed, with other bytes after them, and how many these are.
    #[inline(always)]
    pub(crate) fn line_end(&self) -> ([u8; 8], usize)
        ensures text { take result.1 result.0 ≡ text.offset_text self.now ++ line_feed ∷ [] }
        ensures len { result.1 ≤ 7 }
        ensures clock { IsClockOffset self.now }
    {
        (self.ended_text, self.len + 1)
    }
}
