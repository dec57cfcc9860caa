//! Runs of calls.
ghost use Rattle.std.specs.Prelude.{◌≡◌, ◌<◌, length, IfOk, OnErr};
ghost use Rattle.std.specs.Option.{option_map, unwrap_or};
ghost use Rattle.datetime_calls.specs.declared.calls.MomentCall.TheVariants as call;
ghost use Rattle.datetime_calls.specs.Replies.{reply_to, next_start, replies, last_start};

use crate::{Moment, MomentCall, MomentReply};
use std::alloc::{AllocError, Global};

fn calendar_date<M: Moment>(moment: M) -> MomentReply
    ensures { result ≡ reply_to (M.instant moment) call.ToCalendarDate }
{
    let (year, month, day) = moment.to_calendar_date();
    MomentReply::ToCalendarDate(year, month, day)
}

#[tactic(auto, unfolding(crate::specs::Replies::reply_to))]
fn ordinal_date<M: Moment>(moment: M) -> MomentReply
    ensures { result ≡ reply_to (M.instant moment) call.ToOrdinalDate }
{
    let (year, ordinal) = moment.to_ordinal_date();
    MomentReply::ToOrdinalDate(year, ordinal)
}

fn iso_week_date<M: Moment>(moment: M) -> MomentReply
    ensures { result ≡ reply_to (M.instant moment) call.ToIsoWeekDate }
{
    let (year, week, weekday) = moment.to_iso_week_date();
    MomentReply::ToIsoWeekDate(year, week, weekday)
}

#[tactic(auto, unfolding(crate::specs::Replies::reply_to))]
fn hms_nano<M: Moment>(moment: M) -> MomentReply
    ensures { result ≡ reply_to (M.instant moment) call.AsHmsNano }
{
    let (hour, minute, second, nanosecond) = moment.as_hms_nano();
    MomentReply::AsHmsNano(hour, minute, second, nanosecond)
}

// A new moment's nanoseconds, where there is one, and the moment that the next call starts from.
fn moved<M: Moment>(from: M, to: Option<M>) -> (Option<i128>, M)
    ensures nanoseconds { result.0 ≡ option_map M.instant to }
    ensures next { result.1 ≡ unwrap_or to from }
{
    match to {
        Some(moment) => (Some(moment.instant_nanos()), moment),
        None => (None, from),
    }
}

// The reply to a call, and the moment that the next call starts from.
#[tactic(auto, unfolding(crate::specs::Replies::reply_to, crate::specs::Replies::next_start), using(crate::proofs::ReplyLemmas::moved_nanos, crate::proofs::ReplyLemmas::moved_next))]
fn answered<M: Moment>(moment: M, call: MomentCall) -> (MomentReply, M)
    ensures reply { result.0 ≡ reply_to (M.instant moment) call }
    ensures next { M.instant result.1 ≡ next_start (M.instant moment) call }
{
    match call {
        MomentCall::InstantNanos => (MomentReply::InstantNanos(moment.instant_nanos()), moment),
        MomentCall::ToCalendarDate => (calendar_date(moment), moment),
        MomentCall::ToOrdinalDate => (ordinal_date(moment), moment),
        MomentCall::ToIsoWeekDate => (iso_week_date(moment), moment),
        MomentCall::Weekday => (MomentReply::Weekday(moment.weekday()), moment),
        MomentCall::AsHmsNano => (hms_nano(moment), moment),
        MomentCall::CheckedAdd(duration) => {
            let (nanoseconds, next) = moved(moment, moment.checked_add(duration));
            (MomentReply::CheckedAdd(nanoseconds), next)
        }
        MomentCall::CheckedSub(duration) => {
            let (nanoseconds, next) = moved(moment, moment.checked_sub(duration));
            (MomentReply::CheckedSub(nanoseconds), next)
        }
        MomentCall::ReplaceDate(date) => {
            let next = moment.replace_date(date);
            (MomentReply::ReplaceDate(next.instant_nanos()), next)
        }
        MomentCall::ReplaceTime(time) => {
            let next = moment.replace_time(time);
            (MomentReply::ReplaceTime(next.instant_nanos()), next)
        }
        MomentCall::CheckedToOffset(offset) => {
            let shown = moment.checked_to_offset(offset);
            (MomentReply::CheckedToOffset(shown), moment)
        }
    }
}

/// Answers each call in turn: the moment after the last one, and the replies.
///
/// `checked_add` and `checked_sub` where they give a moment, `replace_date` and `replace_time` make
/// it the start of the next call; all other calls leave the start. A `None` is a reply, and the run
/// goes on. Memory is taken for the replies alone, and only its want is an error.
pub fn run_calls<M: Moment>(
    alloc: Global,
    start: M,
    calls: &[MomentCall],
) -> Result<(M, Vec<MomentReply>), AllocError>
    ensures last { IfOk result (λ run. M.instant run.0 ≡ last_start (M.instant start) calls.now) }
    ensures replies { IfOk result (λ run. run.1.items ≡ replies (M.instant start) calls.now) }
    ensures memory { OnErr result (0 < length calls.now) }
{
    let mut moment = start;
    let mut replies = Vec::new(alloc);
    for call in calls {
        let (reply, next) = answered(moment, *call);
        replies.push(reply)?;
        moment = next;
    }
    Ok((moment, replies))
}
