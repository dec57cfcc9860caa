//! Words that are zones, and their names.
ghost use Rattle.std.specs.Prelude.{◌≡◌};
ghost use Rattle.instants_lines_words.specs.Filled.{is_zone, without_colon};

use crate::file_name::is_file_name;

/// Whether a word is a zone by its looks: it begins with a colon, or it has a slash and is no name of a file.
#[tactic(auto, unfolding(crate::specs::Filled::is_zone))]
pub fn is_zone(word: &str) -> bool
    ensures { result ≡ is_zone word.now }
{
    match word.as_bytes() {
        [b':', ..] => true,
        bytes => bytes.contains(&b'/') && !is_file_name(word),
    }
}

/// A word without the colon that it may begin with.
pub fn without_colon(word: &str) -> &str
    ensures { result.now ≡ without_colon word.now }
{
    word.strip_prefix(':').unwrap_or(word)
}
