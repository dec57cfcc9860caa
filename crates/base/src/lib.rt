//! What all families name: the bytes that definitions speak of, in `specs/Bytes.antt`, and the refusal of a value that was made
//! of another type.
#![tactic(auto)]

use std::fmt;

/// A value was of a different variant: the refusal of a conversion back, where the value was made of another type than
/// the one that is asked for.
#[derive(Clone, Copy, Debug, PartialEq, Eq)]
pub struct DifferentVariant;

impl fmt::Display for DifferentVariant {
    ghost use Rattle.std.specs.Prelude.{Some, codes};

    ghost output = { λ _. Some (codes "value was of a different variant") };

    fn fmt<W: fmt::Write>(&self, f: &mut fmt::Formatter<W>) -> fmt::Result {
        f.write_str("value was of a different variant")
    }
}
