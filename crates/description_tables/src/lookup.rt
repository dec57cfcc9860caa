//! Words and what they mean, as tables.

ghost use Rattle.std.specs.Prelude.{◌≡◌, map};
ghost use Rattle.description_tables.specs.Lookup.{lookup};

use description_lexer::{DescriptionVersion, is_named};

/// The value beside the first word that this one is.
#[tactic(auto, using(crate::proofs::Lengths::name_length), unfolding(crate::specs::Lookup::lookup))]
pub fn lookup<T: Copy>(version: DescriptionVersion, table: &[(&str, T)], word: &str) -> Option<T>
    ensures { result ≡ lookup version (map (λ entry. (entry.0.now, entry.1)) table.now) word.now }
{
    for (name, value) in table {
        if name.len() == word.len() && is_named(version, word, name) {
            return Some(*value);
        }
    }
    None
}
