//! Laws of the words, each the contract of a function.
ghost use Rattle.std.specs.Prelude.{◌≡◌, ◌↔◌, ℕ, List, IsTrue, Ok};
ghost use Rattle.instants_words.specs.Words.{words_said};
ghost use Rattle.instants_words.specs.declared.words.Words.{Words};
ghost use Rattle.instants_lines_words.specs.Filled.{filled};
ghost use Rattle.instants_lines_words.specs.Words.{is_zone_name};
ghost use Rattle.zones.specs.Name.{IsZoneName};

/// Words that `instants` accepts stay as they are: after a mode they say what they say to it.
pub fn words_in_full()
    ensures { (words : List (List ℕ)) (said : Words)
        → words_said words ≡ Ok said → filled words ≡ words }
{}

/// The names that are accepted for zones are those that zones can have.
pub fn zones_by_name()
    ensures { (name : List ℕ) → IsTrue (is_zone_name name) ↔ IsZoneName name }
{}
