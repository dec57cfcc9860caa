//! A law that follows from the contracts, the contract of a function here.
ghost use Rattle.std.specs.Prelude.{◌≡◌, ◌↔◌, ℕ, List, Ok, true, false};
ghost use Rattle.parsing_rfc3339.specs.declared.parts.Rfc3339Parts.{Rfc3339Parts};
ghost use Rattle.parsing_rfc3339.specs.Range.{AreInRange};
ghost use Rattle.parsing_rfc3339.specs.Reading.{rfc3339};

/// The strict reading reads exactly what the other one reads with all numbers in range.
pub fn strict_reading()
    ensures { (bytes : List ℕ) (parts : Rfc3339Parts) (rest : List ℕ) →
        (rfc3339 true bytes ≡ Ok (parts, rest))
        ↔ ((rfc3339 false bytes ≡ Ok (parts, rest)) × AreInRange parts) }
{}
