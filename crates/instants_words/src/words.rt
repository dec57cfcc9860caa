//! What all words say.

ghost use Rattle.std.specs.Prelude.{◌≡◌, ◌≢◌, ◌<◌, Ok, Err, map, length, IsOk, IfOk, IfErr, IfSome};
ghost use Rattle.std.specs.Int.{IsInRange};
ghost use Rattle.calendar.specs.UtcOffset.{IsClockOffset};
ghost use Rattle.instants_words.specs.Words.{words_said};

use crate::fault::WordsFault;
use crate::pieces;
use crate::sources::Sources;
use calendar::UtcOffset;
use std::alloc::Global;

/// What the words of the program say.
#[derive(Drop)]
pub struct Words<'a> {
    /// The offset to show moments in, of whole minutes within 23:59.
    pub target: UtcOffset,
    /// The offset to assume where a line has none, of whole minutes within 23:59.
    pub assumed: Option<UtcOffset>,
    /// How many bytes a line may have, from 1 to 1048576.
    pub limit: usize,
    /// How lines may be written, in the order in which this is tried.
    pub sources: Sources<'a>,
}

/// Reads the words of the program: a target offset, an offset to assume or `-`, a limit, and sources.
///
/// A source is `rfc2822`, `rfc3339` or `iso8601`, or one of `v1`, `v2`, `v3` and `strftime` with a description in the
/// word after it. All words are looked at before memory is taken: `Memory` comes only where a growth of the list of
/// sources was refused.
#[tactic(auto, using(std::proofs::lemmas::Grind::common_steps), unfolding(crate::specs::Words::words_said))]
pub fn read_words<'a>(alloc: Global, words: &[&'a str]) -> Result<Words<'a>, WordsFault>
    ensures ok { IfOk result (λ read. words_said (map (λ word. word.now) words.now) ≡ Ok read) }
    ensures err { IfErr result (λ fault. fault ≢ WordsFault.Memory
        → words_said (map (λ word. word.now) words.now) ≡ Err fault) }
    // What words that are accepted say is in range.
    ensures target { IfOk result (λ read. IsClockOffset read.target) }
    ensures assumed { IfOk result (λ read. IfSome read.assumed IsClockOffset) }
    ensures limit { IfOk result (λ read. IsInRange 1 1_048_576 read.limit) }
    ensures sources { IfOk result (λ read. 0 < length read.sources) }

    ensures memory { result ≡ Err WordsFault.Memory
        → IsOk (words_said (map (λ word. word.now) words.now)) }
{
    let [target, assumed, limit, sources @ ..] = words else {
        return Err(WordsFault::Usage);
    };
    if sources.is_empty() {
        return Err(WordsFault::Usage);
    }
    let target = pieces::offset(target.as_bytes()).ok_or(WordsFault::Target)?;
    let assumed = pieces::assumed(assumed).ok_or(WordsFault::Assumed)?;
    let limit = pieces::limit(limit.as_bytes()).ok_or(WordsFault::Limit)?;
    let sources = Sources::read(alloc, sources)?;
    Ok(Words {
        target,
        assumed,
        limit,
        sources,
    })
}
