//! The date and the time of a line, added to an answer.

ghost use Rattle.std.specs.Prelude.{◌≡◌, ◌+◌, ◌*◌, ◌<◌, ◌≤◌, ◌++◌, codes, length, pos};
ghost use Rattle.instants_answers.specs.Text.{date_text, time_text};

use crate::answer::Answer;
use crate::digits::{push_month, push_two};
use crate::minutes::push_minute;
use parsing_values::{Fraction, Year};

#[inline(always)]
#[tactic(auto, unfolding(crate::specs::Text::date_text))]
pub(crate) fn push_date(answer: &mut Answer, year: Year, month: u32, day: u32)
    requires room { length answer.old + 10 ≤ 64 }
    requires month { month ≤ 12 }
    requires day { day < 100 }
    ensures text { answer.new
        ≡ answer.old ++ date_text (record { year = pos year; month = month; day = day }) }
    ensures len { length answer.new ≡ length answer.old + 10 }
{
    answer.push_bytes(&year.digits());
    push_month(answer, month);
    push_two(answer, day);
}

// The time of a minute of the day, a second of it and a fraction of that, after the letter that stands after the date.
#[inline(always)]
#[tactic(auto, unfolding(crate::specs::Text::time_text))]
pub(crate) fn push_clock(answer: &mut Answer, minute: usize, second: u32, fraction: Fraction)
    requires room { length answer.old + 26 ≤ 64 }
    requires minute { minute < 1440 }
    requires second { second < 60 }
    ensures text { answer.new ≡ answer.old ++ (codes "T" ++ time_text (minute * 60 + second) fraction) }
    ensures len { length answer.new ≡ length answer.old + 19 }
    ensures fraction { fraction < 1_000_000_000 }
{
    push_minute(answer, minute);
    push_two(answer, second);
    answer.push(b'.');
    answer.push_prefix(&fraction.padded_digits(), 9);
}
