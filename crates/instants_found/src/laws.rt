//! Laws that follow from the definitions, each the contract of a function here.
ghost use Rattle.std.specs.Prelude.{◌≡◌, ◌+◌, ◌<◌, ◌≤◌, ◌*◌, ℕ, Option, Some, List, ◌++◌, length, take};
ghost use Rattle.instants_sources.specs.Grammar.{Grammar};
ghost use Rattle.instants_prefixes.specs.declared.given.Given.{Given};
ghost use Rattle.instants_prefixes.specs.Reading.{text_for, window};
ghost use Rattle.instants_found.specs.Doubts.{HasDoubt};
ghost use Rattle.instants_found.specs.Found.{found, looked_at};
ghost use Rattle.instants_found.specs.IsFound.{IsFound};
ghost use Rattle.instants_found.specs.Tried.{nodes_of, tried_from};
ghost use Rattle.instants_found.specs.Zoned.{EachIsAtTheMoment};
ghost use Rattle.instants_found.specs.declared.found.Found.{Found};
ghost use Rattle.instants_found.specs.declared.found.Finding.{Finding};
ghost use Rattle.instants_found.specs.declared.found.Finding.TheVariants.{Doubtful, There};

/// What is found, and nothing else, is the longest date that stands whole at the least place of the bytes that are looked at, at
/// which a source reads one, or that it is in doubt. Where nothing is found no source reads a date at any of the first places.
#[tactic(auto, using(crate::proofs::FirstFound::first_found_is, crate::proofs::OneFound::only_found))]
pub fn longest_date()
    ensures is { (limit : ℕ) (given : Given) (sources : List Grammar) (line : List ℕ)
        → IsFound limit given sources (looked_at limit line) (found limit given sources line) }
    ensures only { (limit : ℕ) (given : Given) (sources : List Grammar) (line : List ℕ)
        (finding : Option Finding)
        → IsFound limit given sources (looked_at limit line) finding
        → finding ≡ found limit given sources line }
{}

/// The date that is found begins and ends within the window after the last place at which a date may begin. It has a byte at
/// least, and ends within the line.
#[tactic(auto, using(crate::proofs::NearFound::found_near, crate::proofs::NearFound::found_not_empty))]
pub fn lies_near()
    ensures near { (limit : ℕ) (given : Given) (sources : List Grammar) (line : List ℕ) (date : Found)
        → found limit given sources line ≡ Some (There date)
        → (date.start < limit + window) × (date.end < limit + window) }
    ensures within { (limit : ℕ) (given : Given) (sources : List Grammar) (line : List ℕ)
        (date : Found) → found limit given sources line ≡ Some (There date)
        → (date.start < date.end) × (date.end ≤ length line) }
{}

/// Bytes far after the last place at which a date may begin change nothing in what is found.
#[tactic(auto, using(crate::proofs::NearFound::near_found))]
pub fn looks_near()
    ensures { (limit : ℕ) (given : Given) (sources : List Grammar) (line rest : List ℕ)
        → limit + window + 64 ≤ length line
        → found limit given sources (line ++ rest) ≡ found limit given sources line }
{}

/// Where the date of a line is in doubt some source reads a date at that place that is.
#[tactic(auto, using(crate::proofs::DoubtOf::has_doubt))]
pub fn doubts()
    ensures { (limit : ℕ) (given : Given) (sources : List Grammar) (line : List ℕ) (place : ℕ)
        → found limit given sources line ≡ Some (Doubtful place)
        → HasDoubt limit given sources line place }
{}

/// Finding tries at most so many items as places are looked at, times the nodes of the sources, and each item is given no more
/// bytes than the window has.
#[tactic(auto, using(crate::proofs::Bounded::few_tried, crate::proofs::Bounded::few_bytes))]
pub fn cost()
    ensures bounded { (sources : List Grammar) (line : List ℕ) (limit : ℕ)
        → tried_from sources line limit ≤ length (take limit line) * nodes_of sources }
    ensures near { (grammar : Grammar) (bytes : List ℕ) → length (text_for grammar bytes) ≤ window }
{}

/// A date on a zone's clock that is not in doubt is at a moment at which the clock shows it; of each other such moment the line does
/// not say what the clock has there.
#[tactic(auto, using(crate::proofs::ZonedLemmas::each_at_the_moment))]
pub fn on_clock()
    ensures { EachIsAtTheMoment }
{}
