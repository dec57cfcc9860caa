//! What holds of the names.
ghost use Rattle.std.specs.Prelude.{◌≡◌, true, map};
ghost use Rattle.std.specs.List.{list_all};
ghost use Rattle.instants_formats.specs.Table.{table};
ghost use Rattle.instants_formats.specs.Words.{is_free, is_language, no_word_twice};

/// No two formats have one name, and no name is a word that means something else: a format or a language of sources, an offset, a
/// limit, or a word after which one of these is given. Each stands for a description in version 3 or in the letters of strftime.
pub fn names()
    ensures distinct { no_word_twice (map (λ format. format.name) table) ≡ true }
    ensures free { list_all is_free (map (λ format. format.name) table) ≡ true }
    ensures languages { list_all is_language (map (λ format. format.language) table) ≡ true }
{}
