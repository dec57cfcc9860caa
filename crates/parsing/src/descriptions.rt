//! Laws on reading by descriptions, each the contract of a function.
ghost use Rattle.std.specs.Prelude.{ℕ, List, ◌++◌};
ghost use Rattle.description_items.specs.Tree.{Tree};
ghost use Rattle.description.specs.Versions.{SpellsRanged};
ghost use Rattle.description_grammar.specs.Spelling.{Spells, SpellsTree};
ghost use Rattle.description_strftime.specs.Spelled.{SpellsStrftime};
ghost use Rattle.description_lexer.specs.declared.version.DescriptionVersion.{DescriptionVersion};
ghost use Rattle.description_lexer.specs.declared.version.DescriptionVersion.TheVariants.{Three};
ghost use Rattle.parsing.specs.Joined.{IsReadInTurn, by_items, by_tree};
ghost use Rattle.parsing.specs.TwoVersions.{IgnoresNothing, IsReadByBoth};

/// Of two texts that a language accepts, it accepts the one followed by the other. Reading by that is reading by the
/// first and then, from the record and the rest that this leaves, by the second; a fault of either is its fault. A
/// literal that ends the first text and one that begins the second may be one there.
pub fn joined_descriptions()
    // items as versions 1 and 2 read them
    ensures versions { (version : DescriptionVersion) (s t : List ℕ) (a b : List Tree)
        → Spells version s a → Spells version t b → IsReadInTurn
        (Spells version (s ++ t)) by_items a b }
    ensures strftime { (s t : List ℕ) (a b : List Tree) → SpellsStrftime s a → SpellsStrftime t b
        → IsReadInTurn (SpellsStrftime (s ++ t)) by_items a b }
    // trees as version 3 reads them
    ensures trees { (s t : List ℕ) (a b : Tree) → SpellsTree Three s a → SpellsTree Three t b
        → IsReadInTurn (SpellsTree Three (s ++ t)) by_tree a b }
{
    description::laws::joined();
    description_strftime::laws::joined();
}

/// A text of version 3 without nested descriptions, in which every full and century year says its range and no bytes are
/// ignored, is one of version 2. By either version each line names the same moment, or has the same fault, whatever the
/// defaults are.
pub fn two_versions()
    ensures { (text : List ℕ) (items : List Tree)
        → SpellsRanged text items → IgnoresNothing items → IsReadByBoth text items }
{
    description::laws::two_versions();
}
