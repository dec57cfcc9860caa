//! The faults of descriptions, each with its place.

ghost use Rattle.std.specs.Prelude.{◌++◌, Some, codes};
ghost use Rattle.std.specs.Fmt.{DisplaysOnOk, decimal};
ghost use Rattle.description_lexer.specs.Fault.{InvalidModifierCombination};
ghost use Rattle.description_lexer.specs.Sentence.{sentence};

use std::fmt;

/// The first thing wrong with a description. `Display` is a sentence with its place.
///
/// Each index counts the bytes of the whole text before the place of the fault.
#[derive(Clone, Copy, Debug, PartialEq, Eq)]
pub enum InvalidFormatDescription<'a> {
    /// A bracket has no closing one where it is due.
    UnclosedOpeningBracket {
        /// The place of the opening bracket.
        index: usize,
    },
    /// No component has this name.
    InvalidComponentName {
        /// The name as it is written.
        name: &'a str,
        /// Its place.
        index: usize,
    },
    /// A word is no modifier, or no modifier of its component, or its value is not one of the key's.
    InvalidModifier {
        /// What is wrong, as it is written.
        value: &'a str,
        /// Its place.
        index: usize,
    },
    /// A bracket is followed by no name.
    MissingComponentName {
        /// The place of the bracket, or of the white space after it.
        index: usize,
    },
    /// A component lacks a modifier that it must have: `ignore` lacks its `count`.
    MissingRequiredModifier {
        /// The modifier's key.
        name: &'static str,
        /// The place of the component's name.
        index: usize,
    },
    /// Something else must stand here: a bracket, white space, an escape or a letter.
    Expected {
        /// What must stand here.
        what: &'static str,
        /// The place.
        index: usize,
    },
    /// What stands here has a meaning that is not supported: nested items in versions 1 and 2, and some letters of
    /// strftime.
    NotSupported {
        /// What stands here.
        what: &'static str,
        /// Where it is not supported.
        context: &'static str,
        /// The place.
        index: usize,
    },
    /// A modifier is given twice, which version 3 alone refuses.
    DuplicateModifier {
        /// The modifier's key as it is written.
        name: &'a str,
        /// The place of the later one.
        index: usize,
    },
    /// A modifier says nothing of the component beside its other modifiers, which version 3 alone refuses.
    InvalidModifierCombination {
        /// The modifier's key as it is written.
        modifier: &'a str,
        /// The component's name.
        context: &'static str,
        /// The place of the modifier.
        index: usize,
    },
}

// A text and the place.
fn write_at<W: fmt::Write>(f: &mut fmt::Formatter<W>, what: &str, index: usize) -> fmt::Result
    ensures { DisplaysOnOk W.write_str_gives f.old result
        (Some (what.now ++ (codes " at byte index " ++ decimal index))) f.new }
{
    write!(f, "{what} at byte index {index}")
}

// The same after another text.
fn write_after<W: fmt::Write>(
    f: &mut fmt::Formatter<W>,
    before: &str,
    what: &str,
    index: usize,
) -> fmt::Result
    ensures { DisplaysOnOk W.write_str_gives f.old result
        (Some (before.now ++ (what.now ++ (codes " at byte index " ++ decimal index)))) f.new }
{
    f.write_str(before)?;
    write_at(f, what, index)
}

// Two texts, what stands between them, and the place.
fn write_pair<W: fmt::Write>(
    f: &mut fmt::Formatter<W>,
    one: &str,
    between: &str,
    other: &str,
    index: usize,
) -> fmt::Result
    ensures { DisplaysOnOk W.write_str_gives f.old result
        (Some (one.now
        ++ (between.now ++ (other.now ++ (codes " at byte index " ++ decimal index))))) f.new }
{
    f.write_str(one)?;
    write_after(f, between, other, index)
}

// That a modifier says nothing of a component.
fn write_combination<W: fmt::Write>(
    f: &mut fmt::Formatter<W>,
    modifier: &str,
    component: &str,
    index: usize,
) -> fmt::Result
    ensures { DisplaysOnOk W.write_str_gives f.old result
        (Some (sentence (InvalidModifierCombination modifier.now component.now index))) f.new }
{
    f.write_str("modifier `")?;
    write_pair(f, modifier, "` does not apply to ", component, index)
}

impl fmt::Display for InvalidFormatDescription<'_> {
    ghost use Rattle.description_lexer.specs.Fault.{fault_of};

    ghost output = { λ fault. Some (sentence (fault_of fault)) };

    fn fmt<W: fmt::Write>(&self, f: &mut fmt::Formatter<W>) -> fmt::Result {
        match self {
            InvalidFormatDescription::UnclosedOpeningBracket { index } => {
                write!(f, "unclosed opening bracket at byte index {index}")
            }
            InvalidFormatDescription::InvalidComponentName { name, index } => {
                write!(f, "invalid component name `{name}` at byte index {index}")
            }
            InvalidFormatDescription::InvalidModifier { value, index } => {
                write!(f, "invalid modifier `{value}` at byte index {index}")
            }
            InvalidFormatDescription::MissingComponentName { index } => {
                write!(f, "missing component name at byte index {index}")
            }
            InvalidFormatDescription::MissingRequiredModifier { name, index } => {
                write!(
                    f,
                    "missing required modifier `{name}` at byte index {index}"
                )
            }
            InvalidFormatDescription::Expected { what, index } => {
                write!(f, "expected {what} at byte index {index}")
            }
            InvalidFormatDescription::NotSupported {
                what,
                context,
                index,
            } => { write_pair(f, what, " is not supported in ", context, *index) }
            InvalidFormatDescription::DuplicateModifier { name, index } => {
                write!(f, "duplicate modifier `{name}` at byte index {index}")
            }
            InvalidFormatDescription::InvalidModifierCombination {
                modifier,
                context,
                index,
            } => { write_combination(f, modifier, context, *index) }
        }
    }
}
