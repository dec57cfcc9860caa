//! A prefix of bytes that is read as a date.
ghost use Rattle.std.specs.Prelude.{◌≡◌, ◌≤◌, ◌+◌, ◌-◌, length, take, drop};
ghost use Rattle.instants_edges.specs.Pieces as Pieces;
ghost use Rattle.instants_prefixes.specs.Ends.{LiesIn};
ghost use Rattle.instants_prefixes.specs.Prefix.{with_lengths};
ghost use Rattle.instants_prefixes.specs.Lengths as Lengths;

use crate::extent::Extent;
use instants_edges::{blanks, trimmed_length, zone_length};
use instants_sources::Named;

/// A prefix of bytes that a source reads, by its lengths in bytes from the place at which it is read.
#[derive(Drop)]
pub struct Prefix {
    /// The moment that it names.
    pub moment: Named,
    /// Where it begins to say something.
    pub begins: usize,
    /// Where it has said everything, without white space.
    pub ends: usize,
    /// Where the word of a zone ends that the text of its description has after that.
    pub zone: usize,
    /// Where all that was read ends, without white space.
    pub all: usize,
    /// Whether text stands before it in its description.
    pub is_chosen: bool,
}

// Where the word of a zone ends that is written after a date.
#[inline(always)]
fn zone_end(text: &[u8], ends: usize, written: usize) -> usize
    requires ends { ends ≤ length text.now }
    requires written { written ≤ length text.now }
    ensures value { result ≡ ends + Pieces.zone_length (drop ends (take written text.now)) }
    ensures within { result ≤ length text.now }
{
    if ends < written {
        ends + zone_length(&text[ends..written])
    } else {
        ends
    }
}

impl Prefix {
    /// The prefix that items read up to the rest of a text, by how much of it they read.
    #[inline(always)]
    pub(crate) fn of_extent(extent: Extent, text: &[u8], moment: Named, rest: &[u8]) -> Prefix
        requires { LiesIn text.now extent }
        ensures { result ≡ with_lengths text.now moment rest.now (Lengths.lengths_from text.now extent) }
    {
        let ends = trimmed_length(&text[..extent.up_to]);
        let read = text.len().saturating_sub(rest.len());
        let all = if read == extent.up_to {
            ends
        } else {
            trimmed_length(&text[..read])
        };
        Prefix {
            moment,
            begins: extent.begins + blanks(&text[extent.begins..]),
            ends,
            zone: zone_end(text, ends, extent.written),
            all,
            is_chosen: extent.begins > 0,
        }
    }

    /// The prefix that a well-known format reads up to the rest of a text: all of it is the date.
    #[inline(always)]
    pub(crate) fn whole(text: &[u8], moment: Named, rest: &[u8]) -> Prefix
        ensures { result
            ≡ with_lengths text.now moment rest.now
            (Lengths.whole (Pieces.trimmed_length (take (length text.now - length rest.now) text.now))) }
    {
        let all = trimmed_length(&text[..text.len().saturating_sub(rest.len())]);
        Prefix {
            moment,
            begins: 0,
            ends: all,
            zone: all,
            all,
            is_chosen: false,
        }
    }
}
