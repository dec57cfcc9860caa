//! The looks of a file's name.
ghost use Rattle.std.specs.Prelude.{◌≡◌};
ghost use Rattle.instants_lines_words.specs.FileName.{is_file_name};

/// Whether a word looks like the name of a file.
#[tactic(auto, unfolding(crate::specs::FileName::is_file_name))]
pub fn is_file_name(word: &str) -> bool
    ensures { result ≡ is_file_name word.now }
{
    match word.as_bytes() {
        [b'/', ..] => true,
        bytes => bytes.contains(&b'.'),
    }
}
