//! The numbers of faults, which never change.
ghost use Rattle.std.specs.Prelude.{◌≡◌, ◌≤◌, drop};
ghost use Rattle.instants_faults.specs.Refusal.{refusal_said};
ghost use Rattle.instants_memory.specs.Numbers.{fault_number, name_number, names, number_in};

use instants_timeline::LineFault;

// The number of a component's name, and 0 for a name that has none.
#[tactic(auto, unfolding(crate::specs::Numbers::name_number))]
fn name_number(name: &str) -> u32
    ensures number { result ≡ name_number name.now }
    ensures bound { result ≤ 26 }
{
    match name {
        "year" => 1,
        "month" => 2,
        "day" => 3,
        "ordinal" => 4,
        "week" => 5,
        "week number" => 6,
        "weekday" => 7,
        _ => time_number(name),
    }
}

// The number of a name that is no part of a date, and 0 for a name that has none.
fn time_number(name: &str) -> u32
    ensures number { result ≡ number_in name.now 8 (drop 7 names) }
    ensures bound { result ≤ 26 }
{
    match name {
        "hour" => 8,
        "minute" => 9,
        "second" => 10,
        "subsecond" => 11,
        "period" => 12,
        "offset hour" => 13,
        "offset minute" => 14,
        "offset second" => 15,
        _ => other_number(name),
    }
}

// The number of a name that is no part of a date, of a time of day or of an offset, and 0 for a name that has none.
fn other_number(name: &str) -> u32
    ensures number { result ≡ number_in name.now 16 (drop 15 names) }
    ensures bound { result ≤ 26 }
{
    match name {
        "unix_timestamp" => 16,
        "ignore" => 17,
        "separator" => 18,
        "julian_day" => 19,
        "millisecond" => 20,
        "microsecond" => 21,
        "nanosecond" => 22,
        "hours" => 23,
        "minutes" => 24,
        "seconds" => 25,
        "timestamp" => 26,
        _ => 0,
    }
}

/// The number of a fault: a hundred for each kind, and the number of the component that it names.
#[tactic(auto, unfolding(crate::specs::Numbers::fault_number))]
pub(crate) fn fault_number(fault: LineFault) -> u32
    ensures { result ≡ fault_number (refusal_said fault) }
{
    match fault {
        LineFault::Literal => 100,
        LineFault::Component(name) => 200 + name_number(name),
        LineFault::Trailing => 300,
        LineFault::Insufficient => 400,
        LineFault::Range(name) => 500 + name_number(name),
        LineFault::Year => 600,
        LineFault::Long => 700,
    }
}
