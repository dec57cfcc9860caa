//! Zones that are made step by step.
ghost use Rattle.std.specs.Prelude.{◌≡◌, [], ◌∷◌, ◌++◌, OnOk, OnErr};
ghost use Rattle.zones_clock.specs.Steps.{IsOffset, ComesAfter};

use crate::names::mark_bytes;
use crate::zone::{Step, Zone};
use std::alloc::{AllocError, Global};

impl Zone {
    /// A clock that is always ahead by one offset, in seconds, with the letters of its zone's abbreviations.
    pub fn fixed(alloc: Global, first: i32, first_name: u16, letters: Vec<u8>) -> Zone
        requires { IsOffset first }
        ensures first { result.first ≡ first }
        ensures first_name { result.first_name ≡ first_name }
        ensures steps { result.steps.items ≡ [] }
        ensures letters { result.letters.items ≡ letters.items }
    {
        let mut bytes = [false; 256];
        mark_bytes(&mut bytes, &letters);
        Zone {
            first,
            first_name,
            steps: Vec::new(alloc),
            letters,
            bytes,
        }
    }

    /// Adds a step after those that are there.
    pub fn push(&mut self, step: Step) -> Result<(), AllocError>
        requires offset { IsOffset step.offset }
        requires after { ComesAfter self.old.steps.items step.from }

        ensures pushed { OnOk result (self.new.steps.items ≡ self.old.steps.items ++ step ∷ []) }
        ensures kept { OnErr result (self.new.steps.items ≡ self.old.steps.items) }

        ensures first { self.new.first ≡ self.old.first }
        ensures first_name { self.new.first_name ≡ self.old.first_name }
        ensures letters { self.new.letters.items ≡ self.old.letters.items }
    {
        self.steps.push(step)?;
        Ok(())
    }

    /// Adds the letters of an abbreviation after those that are there, and a byte 0 that ends it.
    pub fn push_name(&mut self, name: &[u8]) -> Result<(), AllocError>
        ensures pushed { OnOk result (self.new.letters.items ≡ self.old.letters.items ++ name.now ++ 0 ∷ []) }

        ensures first { self.new.first ≡ self.old.first }
        ensures first_name { self.new.first_name ≡ self.old.first_name }
        ensures steps { self.new.steps.items ≡ self.old.steps.items }
    {
        self.letters.extend_from_slice(name)?;
        mark_bytes(&mut self.bytes, name);
        self.letters.push(0)?;
        mark_bytes(&mut self.bytes, b"\0");
        Ok(())
    }
}
