//! The key of a source.
ghost use Rattle.std.specs.Prelude.{◌≤◌, IfSome};
ghost use Rattle.instants_sources.specs.Grammar.{grammar_of};
ghost use Rattle.instants_found.specs.Keys.{NeedsKey};

use crate::key::Key;
use crate::prefix_bytes::key_of_first_bytes;
use instants_sources::Source;

/// The key of a source, if one is found: RFC 3339 has a hyphen after its year.
pub(crate) fn key_of(source: &Source<'_>) -> Option<Key>
    ensures near { IfSome result (λ key. key.place ≤ 4) }
    ensures key { IfSome result (λ key. NeedsKey key (grammar_of source.now)) }
{
    match source {
        Source::Items(described) | Source::V3(described) => key_of_first_bytes(
            described.first_bytes(),
        ),
        Source::Rfc3339 => Some(Key {
            place: 4,
            byte: b'-',
        }),
        Source::Rfc2822 | Source::Iso8601 => None,
    }
}
