//! A law that follows from the contracts, the contract of a function here.
ghost use Rattle.std.specs.Prelude.{◌≡◌, ◌↔◌, ℕ, List, Ok, true, false};
ghost use Rattle.parsing_rfc2822.specs.declared.parts.Rfc2822Parts.{Rfc2822Parts};
ghost use Rattle.parsing_rfc2822.specs.Range.{AreInRange};
ghost use Rattle.parsing_rfc2822.specs.Reading.{rfc2822};

/// The strict reading reads exactly what the other one reads with all numbers in range.
pub fn strict_reading()
    ensures { (bytes : List ℕ) (parts : Rfc2822Parts) (rest : List ℕ) →
        (rfc2822 true bytes ≡ Ok (parts, rest))
        ↔ ((rfc2822 false bytes ≡ Ok (parts, rest)) × AreInRange parts) }
{}
