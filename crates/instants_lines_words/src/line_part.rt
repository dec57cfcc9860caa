//! The part of a line in which its date is looked for.

use instants_fields::Separator;

/// The part of a line in which its date is looked for.
#[derive(Clone, Copy)]
pub enum LinePart<'a> {
    /// The value of the member of this name, where the line is an object in JSON.
    Field(&'a str),
    /// The column of this number, counted from 1.
    Column { number: usize, separator: Separator },
}
