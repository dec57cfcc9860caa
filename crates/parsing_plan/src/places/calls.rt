//! The places of parts.
ghost use Rattle.std.specs.Prelude.{◌≡◌, ◌≤◌, ◌<◌, true, false, length, map, drop, take, IfSome, Option};
ghost use Rattle.description_items.specs.Tree.{listed};
ghost use Rattle.parsing_components.specs.Reads.{reading_of_all};
ghost use Rattle.parsing_item_parts.specs.Items.{parts_kept};
ghost use Rattle.parsing_layout.specs.Said.{fields_of};
ghost use Rattle.parsing_plan.specs.Parts.{IsPlain, IsSplit, SayClock, SayMoment, SayNoOthers, is_plain};
ghost use Rattle.parsing_plan.specs.Places.{ArePlacesOf};

use super::{Back, NEVER, Places};
use parsing_components::Node;
use parsing_item_parts::Parts;
use parsing_layout::{Field, Part, say};
use parsing_places::LANES;
use parsing_shapes::{Beside, Front, last_bytes_of};

// Whether parts say a day, an hour, a minute and a second.
fn say_clock(parts: &[Part]) -> bool
    ensures { result ≡ true → SayClock (fields_of parts.now) }
{
    say(parts, Field::Year)
        && say(parts, Field::Month)
        && say(parts, Field::Day)
        && say(parts, Field::Hour)
        && say(parts, Field::Minute)
        && say(parts, Field::Second)
}

// Whether they say what lanes don't take for a moment.
fn say_others(parts: &[Part]) -> bool
    ensures { result ≡ false → SayNoOthers (fields_of parts.now) }
{
    say(parts, Field::IsoWeek)
        || say(parts, Field::OrdinalTens)
        || say(parts, Field::OrdinalOnes)
        || say(parts, Field::HourOfHalf)
        || say(parts, Field::Half)
        || say(parts, Field::Unix)
}

// Whether both hold or neither.
fn is_same(first: bool, second: bool) -> bool
    ensures { result ≡ true → first ≡ second }
{
    if first { second } else { !second }
}

// Whether they say a moment, with what is read beside lanes, after them and of an offset, and nothing else.
fn say_moment(beside: &Beside, back: &Option<Back>, parts: &[Part]) -> bool
    ensures { result ≡ true → SayMoment beside.now back.now (fields_of parts.now) }
{
    if !say_clock(parts) || say_others(parts) {
        return false;
    }
    let has_fraction = beside.fraction.is_some() || back.is_some();
    is_same(say(parts, Field::Weekday), beside.weekday.is_some())
        && is_same(say(parts, Field::Nanosecond), has_fraction)
        && is_same(say(parts, Field::OffsetHour), beside.has_offset)
        && is_same(say(parts, Field::OffsetMinute), beside.has_offset)
}

// How many parts stand before a fraction of any number of digits.
fn before_fraction(parts: &[Part]) -> Option<usize>
    ensures { IfSome result (λ count. count < length parts.now) }
{
    for count in 0..parts.len() {
        if let Part::OpenFraction = parts[count] {
            return Some(count);
        }
    }
    None
}

// The bytes of a line that is plain, or as many as no line has.
fn plain_length_of(front: &Front) -> usize
    ensures { result < 18_446_744_073_709_551_615 → IsPlain front.now result }
{
    let beside = &front.beside;
    let length = front.shape.length;
    if !beside.has_offset || beside.month.is_none() || beside.day.is_some() {
        return NEVER;
    }
    if length < LANES || beside.weekday.is_some() || beside.fraction.is_some() {
        return NEVER;
    }
    length
}

impl Places {
    /// The places of the parts of nodes that are read one after the other, where all have fixed widths, but for a fraction of a
    /// second.
    pub fn of_nodes<N: Node>(nodes: &[N]) -> Option<Places>
        ensures { IfSome result
            (ArePlacesOf (reading_of_all N.language (listed (map N.tree nodes.now)))) }
    {
        let parts = Parts::of_nodes(nodes)?;
        Places::of_parts(parts)
    }

    // The places of parts.
    fn of_parts(parts: Parts) -> Option<Places>
        ensures { IfSome result (λ places. places.parts ≡ parts) }
    {
        match before_fraction(parts.as_slice()) {
            None => Places::whole(parts),
            Some(count) => Places::split(parts, count),
        }
    }

    // The places of parts that all have fixed widths.
    fn whole(parts: Parts) -> Option<Places>
        ensures { IfSome result (λ places. places.parts ≡ parts) }
    {
        let list = parts.as_slice();
        let has_offset = say(list, Field::OffsetHour);
        let front = Front::of_parts(list, false, has_offset)?;
        if !say_moment(&front.beside, &None, list) {
            return None;
        }
        Some(Places {
            front,
            back: None,
            plain_length: plain_length_of(&front),
            parts,
        })
    }

    // The places of parts of which one is a fraction of any number of digits.
    fn split(parts: Parts, count: usize) -> Option<Places>
        ensures { IfSome result (λ places. places.parts ≡ parts) }
    {
        let list = parts.as_slice();
        if count >= list.len() {
            return None;
        }
        let Part::OpenFraction = list[count] else {
            return None;
        };
        let has_offset = say(list, Field::OffsetHour);
        let front = Front::of_parts(&list[..count], true, has_offset)?;
        let last = last_bytes_of(&list[count + 1..], has_offset)?;
        let back = Some(Back { count, last });
        if front.beside.fraction.is_some() {
            return None;
        }
        if !say_moment(&front.beside, &back, list) {
            return None;
        }
        Some(Places {
            front,
            back,
            plain_length: NEVER,
            parts,
        })
    }
}
