//! What holds of descriptions: laws, each the contract of a function.
ghost use Rattle.std.specs.Prelude.{◌≡◌, ◌↔◌, ℕ, ◌+◌, ◌≤◌, true, false, List, ◌∷◌, ◌++◌, length};
ghost use Rattle.std.specs.Str.{str_eq_ignore_ascii_case};
ghost use Rattle.description_lexer.specs.Fault.{Fault};
ghost use Rattle.description_items.specs.declared.component.Component.{Component};
ghost use Rattle.description_items.specs.Same.{same_tree};
ghost use Rattle.description_items.specs.Tree.{Tree, Part};
ghost use Rattle.description_lexer.specs.declared.version.DescriptionVersion.{DescriptionVersion};
ghost use Rattle.description_lexer.specs.declared.version.DescriptionVersion.TheVariants.{Two, Three};
ghost use Rattle.description_lexer.specs.Version.{is_three};
ghost use Rattle.description_tree.specs.Reserved.{IsLongest, reserved};
ghost use Rattle.description_lexer.specs.Further.{further};
ghost use Rattle.description_strftime.specs.Outcomes as letters;
ghost use Rattle.description_grammar.specs.Outcomes.{OneOutcome};
ghost use Rattle.description_grammar.specs.Faulty.{Faulty};
ghost use Rattle.description_grammar.specs.Heads.{SpellsComponent};
ghost use Rattle.description_grammar.specs.Spelling.{Spells, SpellsTree};
ghost use Rattle.description.specs.Versions.{IsFlat, InTwo, SpellsRanged};
ghost use Rattle.description.specs.Laws.{Joins, nodes};

/// A text spells one tree or has one fault, and not both: in each version, and by the letters of
/// strftime.
pub fn one_outcome()
    ensures versions { (version : DescriptionVersion) (text : List ℕ) → OneOutcome version text }
    ensures strftime { (text : List ℕ) → letters.OneOutcome text }
{}

/// Equality of items, which is that of their trees, takes two trees for the same exactly if they are
/// equal.
pub fn same_trees()
    ensures exactly { (one other : Tree) → (same_tree one other ≡ true) ↔ (one ≡ other) }
{}

/// A description after another one is a description. It has the items of both, save that a literal
/// that ends the first and one that begins the second are one literal.
pub fn joined()
    ensures { (version : DescriptionVersion) (s t : List ℕ) (ss ts : List Tree)
        → Spells version s ss → Spells version t ts → Joins version s t ss ts }
{}

/// A text with a fault after one that spells items has that fault, as many bytes further on as the
/// first text is long.
pub fn faults_after()
    ensures { (version : DescriptionVersion) (s t : List ℕ) (items : List Tree) (fault : Fault)
        → Spells version s items → Faulty version t fault → Faulty version (s ++ t)
        (further (length s) fault) }
{}

/// What a tree reserves is the bytes of its longest layout. A tree of version 3 reserves no more bytes
/// than its text has, so reading one never meets too many. The tree of any version has at most one
/// node more than its text has bytes.
pub fn reserved()
    ensures longest { (tree : Tree) → IsLongest tree (reserved tree) }
    ensures bytes { (text : List ℕ) (tree : Tree)
        → SpellsTree Three text tree → reserved tree ≤ length text }
    ensures nodes { (version : DescriptionVersion) (text : List ℕ) (tree : Tree)
        → SpellsTree version text tree → nodes tree ≤ length text + 1 }
{}

/// A text of version 3 without optional items and alternatives is one of version 2, with the same
/// items: only full and century years that lack their range are of the standard range in version 3,
/// and of the extended one in version 2.
pub fn two_versions()
    ensures items { (text : List ℕ) (ts : List Tree)
        → Spells Three text ts → IsFlat ts → InTwo text ts }
    // Where no such year lacks its range, the items are the same.
    ensures same { (text : List ℕ) (ts : List Tree) → SpellsRanged text ts → Spells Three text ts
        × Spells Two text ts }
{}

/// In versions 1 and 2 the case of ASCII letters in a component says nothing, be it in its name, in a
/// key or in a value: a text spells the same items with another case there.
pub fn letter_case()
    ensures component { (version : DescriptionVersion)
        (own other : List ℕ) (c : Component) → is_three version ≡ false → str_eq_ignore_ascii_case
        own other ≡ true → SpellsComponent version own c → SpellsComponent version other c }
    ensures text { (version : DescriptionVersion) (prefix own other back : List ℕ)
        (before after : List Tree) (c : Component)
        → is_three version ≡ false → str_eq_ignore_ascii_case own other ≡ true
        → Spells version prefix before → SpellsComponent version own c → Spells version back after
        → Spells version (prefix ++ (own ++ back)) (before ++ Part c ∷ after)
        × Spells version (prefix ++ (other ++ back)) (before ++ Part c ∷ after) }
{}
