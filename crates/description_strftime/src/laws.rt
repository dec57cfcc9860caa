//! What holds of all descriptions by letters.

ghost use Rattle.std.specs.Prelude.{ℕ, List, ◌++◌, length, codes};
ghost use Rattle.description_lexer.specs.Fault.{Fault};
ghost use Rattle.description_items.specs.Tree.{Tree};
ghost use Rattle.description_strftime.specs.Composites.{SpellSame};
ghost use Rattle.description_strftime.specs.Faulty.{FaultyStrftime};
ghost use Rattle.description_lexer.specs.Further.{further};
ghost use Rattle.description_strftime.specs.Joined.{Joins};
ghost use Rattle.description_strftime.specs.Spelled.{SpellsStrftime};

/// Of two texts that spell items, the one followed by the other spells the items of both. Where a literal ends
/// the first text and one begins the second, these two are one literal there.
pub fn joined()
    ensures holds { (s t : List ℕ) (a b : List Tree) → SpellsStrftime s a → SpellsStrftime t b
        → Joins s t a b }
{}

/// A text that spells items, followed by one that has a fault, has that fault, as many bytes further on as the
/// first text is long.
pub fn faults_after()
    ensures holds { (s t : List ℕ) (items : List Tree) (fault : Fault) → SpellsStrftime s items
        → FaultyStrftime t fault → FaultyStrftime (s ++ t) (further (length s) fault) }
{}

/// A composite letter stands for what its expansion spells.
pub fn composites()
    ensures date_and_time { SpellSame (codes "%c") (codes "%a %b %e %T %Y") }
    ensures american_date { SpellSame (codes "%D") (codes "%m/%d/%y") }
    ensures local_date { SpellSame (codes "%x") (codes "%m/%d/%y") }
    ensures iso_date { SpellSame (codes "%F") (codes "%Y-%m-%d") }
    ensures time_of_twelve_hours { SpellSame (codes "%r") (codes "%I:%M:%S %p") }
    ensures hours_and_minutes { SpellSame (codes "%R") (codes "%H:%M") }
    ensures full_time { SpellSame (codes "%T") (codes "%H:%M:%S") }
    ensures local_time { SpellSame (codes "%X") (codes "%H:%M:%S") }
{}
