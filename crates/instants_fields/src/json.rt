//! The member of a line that is one object in JSON, RFC 8259.
ghost use Rattle.std.specs.Prelude.{◌≡◌, ◌≤◌, ◌<◌, ◌+◌, ℕ, true, IfSome, None, Some, length, take, drop};
ghost use Rattle.instants_fields.specs.Pieces as Pieces;
ghost use Rattle.instants_fields.specs.Json as Json;
ghost use Rattle.instants_fields.specs.Members as Members;
ghost use Rattle.instants_fields.specs.Found as Finding;

use crate::space::{after_space, after_space_and, is_blank};
use crate::string::compared;
use crate::value::{Extent, Kind, closed, spaced_separator, spaced_value};

/// Where in a line the value of a member lies.
#[derive(Clone, Copy, Debug, PartialEq, Eq)]
pub struct Member {
    /// Where the value begins: a string after its quotation mark.
    pub start: usize,
    /// Where the value ends, and the rest of the line begins: a string before its quotation mark.
    pub end: usize,
    /// Whether another member of that name follows.
    pub repeats: bool,
}

// The first member of a name, and whether another follows.
#[derive(Clone, Copy)]
pub(crate) struct Found {
    pub(crate) extent: Extent,
    pub(crate) repeats: bool,
}

// The line's first bytes, in which the object has to end.
const LONGEST: usize = 1_048_576;

// What is found with one more member of the name.
fn noted(found: Option<Found>, extent: Extent) -> Found
    ensures { result ≡ Finding.noted found extent }
{
    match found {
        None => Found {
            extent,
            repeats: false,
        },
        Some(first) => Found {
            extent: first.extent,
            repeats: true,
        },
    }
}

// One more member of the name. No call of it is inlined, so that what is found stays where it is at other members.
#[inline(never)]
fn note(found: &mut Option<Found>, kind: Kind, before: usize, after: usize)
    ensures { found.new ≡ Some (Finding.noted found.old (record { kind = kind; before = before; after = after })) }
{
    let extent = Extent {
        kind,
        before,
        after,
    };
    *found = Some(noted(*found, extent));
}

// One member: what is found with it, and what stands after its value.
#[inline(always)]
#[tactic(auto, using(crate::proofs::FoundLemmas::member_is))]
fn find_in_member<'a>(name: &[u8], found: &mut Option<Found>, text: &'a [u8]) -> Option<&'a [u8]>
    ensures cut { Finding.found_view found.new result ≡ Finding.found_with name.now found.old (Json.item true (Json.value 126) (Pieces.without Json.is_space text.now)) }
    ensures shorter { IfSome result (λ rest. length rest.now < length text.now) }
    ensures within { (whole : ℕ) → length text.now ≤ whole → Finding.AreWithin whole found.old → Finding.AreWithin whole found.new }
{
    let (is_named, rest) = compared(name, after_space_and(b'"', text)?)?;
    let (before, kind, rest) = spaced_value(126, after_space_and(b':', rest)?)?;
    if is_named {
        note(found, kind, before, rest.len());
    }
    Some(rest)
}

// The first member of a name among the members of an object, of which one at least is there.
#[inline(never)]
#[tactic(auto, using(crate::proofs::FoundLemmas::one_member))]
fn find_in_members<'a>(name: &[u8], text: &'a [u8]) -> Option<(Option<Found>, &'a [u8])>
    ensures cut { Pieces.cut_view result ≡ Finding.found_of name.now None (Pieces.repeated (Json.turn true (Json.value 126)) text.now) }
    ensures within { IfSome result (λ p. Finding.AreWithin (length text.now) p.0) }
{
    let mut found = None;
    let mut left = text;
    loop {
        let rest = find_in_member(name, &mut found, left)?;
        let (is_last, rest) = spaced_separator(true, rest)?;
        if is_last {
            return Some((found, rest));
        }
        left = rest;
    }
}

// The first member of a name in an object whose opening bracket was read.
#[tactic(auto, using(crate::proofs::FoundLemmas::items_are, crate::proofs::FoundLemmas::within_more))]
fn find_in_object<'a>(name: &[u8], text: &'a [u8]) -> Option<(Option<Found>, &'a [u8])>
    ensures cut { Pieces.cut_view result ≡ Finding.found_of name.now None (Json.items true (Json.value 126) text.now) }
    ensures within { IfSome result (λ p. Finding.AreWithin (length text.now) p.0) }
{
    let left = after_space(text);
    match closed(true, left) {
        Some(rest) => Some((None, rest)),
        None => find_in_members(name, left),
    }
}

// The first member of a name in an object, with white space before it.
#[tactic(auto, using(crate::proofs::FoundLemmas::object_is, crate::proofs::FoundLemmas::within_more))]
fn find<'a>(name: &[u8], text: &'a [u8]) -> Option<(Option<Found>, &'a [u8])>
    ensures cut { Pieces.cut_view result ≡ Finding.found_of name.now None (Members.object text.now) }
    ensures within { IfSome result (λ p. Finding.AreWithin (length text.now) p.0) }
{
    find_in_object(name, after_space_and(b'{', text)?)
}

// The line's first bytes, in which the object has to end, and the others.
fn split(line: &[u8]) -> (&[u8], &[u8])
    ensures first { result.0.now ≡ take Members.longest line.now }
    ensures others { result.1.now ≡ drop Members.longest line.now }
    ensures within { length result.0.now ≤ length line.now }
{
    if line.len() <= LONGEST {
        return (line, &[]);
    }
    line.split_at(LONGEST)
}

// Where the value lies that was found.
fn place_of(whole: usize, found: Found) -> Option<Member>
    requires { Finding.IsWithin whole found.extent }
    ensures value { result ≡ Members.place_of whole found.extent.kind found }
    ensures within { IfSome result (λ member. (member.start ≤ member.end) × (member.end ≤ whole)) }
{
    let start = whole - found.extent.before;
    let end = whole - found.extent.after;
    match found.extent.kind {
        Kind::String => Some(Member {
            start: start + 1,
            end: end - 1,
            repeats: found.repeats,
        }),
        Kind::Number => Some(Member {
            start,
            end,
            repeats: found.repeats,
        }),
        Kind::Other => None,
    }
}

/// Where in a line that is one object in JSON the value of the first member of a name lies, if it is a string or a
/// number. The name is given as UTF-8, without escapes.
///
/// The object has at most 127 levels, and ends within the first 1,048,576 bytes of the line. White space may stand before
/// and after it. A string may have bytes that are no UTF-8.
#[tactic(auto, using(crate::proofs::FoundLemmas::member_of_is))]
pub fn json_member(line: &[u8], name: &[u8]) -> Option<Member>
    ensures value { result ≡ Members.member_of line.now name.now }
    ensures within { IfSome result (λ member. (member.start ≤ member.end) × (member.end ≤ length line.now)) }
{
    let (head, tail) = split(line);
    let (found, rest) = find(name, head)?;
    if !is_blank(rest) || !is_blank(tail) {
        return None;
    }
    place_of(head.len(), found?)
}
