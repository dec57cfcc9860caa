//! Runs of calls with a growth refused: `rt try --test --fail-alloc N` refuses the Nth allocation.
use crate::calls::answers;
use datetime::{MomentCall, MomentReply, Timestamp};

// The replies take several growths.
const CALLS: [MomentCall; 40] = [MomentCall::InstantNanos; 40];

const REPLIES: [MomentReply; 40] = [MomentReply::InstantNanos(0); 40];

// A growth that is refused ends its own run alone: the other one is answered.
#[test]
fn a_refused_growth_ends_one_run(rt: HostRuntime) {
    let epoch = Timestamp::UNIX_EPOCH;
    let one = answers(rt.alloc(), epoch, &CALLS, &REPLIES, 0);
    let other = answers(rt.alloc(), epoch, &CALLS, &REPLIES, 0);
    assert!(rt; one.unwrap_or(true) && other.unwrap_or(true));
    assert!(rt; one.is_some() || other.is_some());
}
