//! What holds of nodes: laws, each the contract of a function.

ghost use Rattle.std.specs.Prelude.{◌≡◌, ℕ, ◌≤◌, List, length};
ghost use Rattle.description_items.specs.Tree.{Tree, Trees, listed};
ghost use Rattle.description.specs.Laws.{nodes, all_nodes};
ghost use Rattle.description_grammar.specs.Spelling.{Spells};
ghost use Rattle.description_strftime.specs.Spelled.{SpellsStrftime};
ghost use Rattle.description_lexer.specs.declared.version.DescriptionVersion.{DescriptionVersion};
ghost use Rattle.parsing_components.specs.declared.fields.Record.{Record};
ghost use Rattle.parsing_record.specs.Reads.{Language, tried, tried_in_all};

/// A reading begins each node at most once: from whatever record, by whatever components and on whatever bytes, it
/// begins no more items than what it reads by has nodes.
pub fn tried_at_most_nodes()
    ensures items { (language : Language) (items : Trees) (start : Record) (bytes : List ℕ)
        → tried_in_all language items start bytes ≤ all_nodes items }
    ensures tree { (language : Language) (tree : Tree) (start : Record) (bytes : List ℕ)
        → tried language tree start bytes ≤ nodes tree }
{}

/// What a text spells has few nodes: items at most as many as the text has bytes (of a tree of version 3
/// `description::laws::reserved` says the like). The items of a text of strftime have nothing inside them, so each is one
/// node.
pub fn few_nodes()
    ensures items { (version : DescriptionVersion) (text : List ℕ) (items : List Tree)
        → Spells version text items → all_nodes (listed items) ≤ length text }
    ensures strftime { (text : List ℕ) (items : List Tree)
        → SpellsStrftime text items → all_nodes (listed items) ≡ length items }
{}
