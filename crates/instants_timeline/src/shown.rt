//! Moments, and lines by one source alone, as a timeline with this target shows and answers them.
ghost use Rattle.std.specs.Prelude.{◌≡◌, ◌≤◌, ◌↔◌, length, Ok, IsOk, IfOk, IfErr, IfSome};
ghost use Rattle.std.specs.Option.{ok_or};
ghost use Rattle.instants_answers.specs.Text.{FitsLine};
ghost use Rattle.instants_sources.specs.Grammar.{grammar_of};
ghost use Rattle.instants_sources.specs.Named.{named};
ghost use Rattle.instants_timeline.specs.Place.{place_text, shown_or_refused};
ghost use Rattle.instants_faults.specs.Refusal.{year};

use calendar::UtcOffset;
use datetime_types::OffsetDateTime;
use instants_answers::{Answer, Target, has_written_year, rfc3339_line, write_fields};
use instants_faults::LineFault;
use instants_sources::{Named, Source};

/// A moment as it is shown at the target, if its year there is 0 to 9999.
#[inline(always)]
pub fn shown_at(target: Target, moment: OffsetDateTime) -> Option<OffsetDateTime>
    ensures shown { ok_or result year ≡ shown_or_refused target (Ok moment) }
    ensures fits { IfSome result FitsLine }
{
    let shown = moment.checked_to_offset(target.offset())?;
    if has_written_year(shown) {
        Some(shown)
    } else {
        None
    }
}

/// A moment as an answer: its date-time at the target, or `! year`.
#[inline(always)]
pub fn answer_moment(target: Target, moment: OffsetDateTime) -> Answer
    ensures bytes { result ≡ place_text (shown_or_refused target (Ok moment)) }
    ensures room { length result ≤ 63 }
{
    match shown_at(target, moment) {
        Some(shown) => rfc3339_line(shown),
        None => {
            let mut answer = Answer::new();
            LineFault::Year.put(&mut answer);
            answer
        }
    }
}

/// The moment that a text names as an answer: its date-time at the target, or `! year`.
#[inline(always)]
pub fn answer_named(target: Target, named: &Named) -> Answer
    ensures bytes { result ≡ place_text (shown_or_refused target (Ok named.now)) }
    ensures room { length result ≤ 63 }
{
    let mut answer = Answer::new();
    if let Some(fields) = named.fields() {
        if write_fields(fields, target, &mut answer) {
            return answer;
        }
    }
    answer_moment(target, named.moment())
}

/// What one source says of a line alone, with an offset assumed or none: the answer to it, `! year` included, where the
/// source names a moment for all of it, and else its fault.
pub fn answer_by(
    source: &Source<'_>,
    line: &[u8],
    assumed: Option<UtcOffset>,
    target: Target,
) -> Result<Answer, Answer>
    ensures names { (IsOk result) ↔ (IsOk (named assumed (grammar_of source.now) line.now)) }
    ensures answer { IfOk result (λ answer. answer
        ≡ place_text (shown_or_refused target (named assumed (grammar_of source.now) line.now))) }
    ensures fault { IfErr result (λ text. text
        ≡ place_text (shown_or_refused target (named assumed (grammar_of source.now) line.now))) }
    ensures room_of_answer { IfOk result (λ answer. length answer ≤ 63) }
    ensures room_of_fault { IfErr result (λ text. length text ≤ 63) }
{
    match source.read_exact(line, assumed) {
        Ok(moment) => Ok(answer_moment(target, moment)),
        Err(fault) => {
            let mut text = Answer::new();
            LineFault::from(fault).put(&mut text);
            Err(text)
        }
    }
}
