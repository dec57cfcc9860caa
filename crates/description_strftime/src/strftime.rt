//! Descriptions by letters.

ghost use Rattle.std.specs.Prelude.{◌≡◌, true, List, Ok, Err, IfOk};
ghost use Rattle.description_lexer.specs.Answer.{Gives};
ghost use Rattle.description_lexer.specs.Fault.{Fault};
ghost use Rattle.description_items.specs.Forms.{are_of_text};
ghost use Rattle.description_items.specs.Tree.{Tree, trees};
ghost use Rattle.description_strftime.specs.Reading.{read_strftime};
ghost use Rattle.description_strftime.specs.Spelled.{SpellsStrftime};
ghost use Rattle.description_strftime.specs.Faulty.{FaultyStrftime};
ghost use Rattle.description_strftime.specs.Outcomes.{IsOutcome};

use crate::conversions::part;
use crate::items::push_part;
use description_items::BorrowedFormatItem;
use description_lexer::{DescriptionFault, whole_of};
use std::alloc::Global;

/// The items of a description by the letters of strftime, or the first thing wrong with it.
///
/// A percent sign, at most one flag and a letter stand for what the table says; all else up to the next
/// percent sign is a literal. The letters are those of POSIX in its C locale, and the usual ones of GNU.
/// The flags `_`, `-` and `0` pad a number with spaces, not at all, and with zeros, and say nothing of
/// what is no number, nor of composite letters. Without a flag `e`, `k` and `l` pad with spaces, and all
/// other numbers with zeros.
///
/// | letters | stand for |
/// |---|---|
/// | `a`, `A` | the day of the week, short and long |
/// | `u`, `w` | the day of the week from Monday, 1 to 7, and from Sunday, 0 to 6 |
/// | `d`, `e`; `j` | the day of the month; the day of the year |
/// | `b` and `h`, `B`; `m` | the month, short and long; its number |
/// | `y`, `Y`; `C` | the last two digits of the year, and all; its century |
/// | `g`, `G` | the last two digits of the ISO year, and all |
/// | `U`, `V`, `W` | the week from Sunday, the ISO week, the week from Monday |
/// | `H`, `k`; `I`, `l` | the hour of 24; the hour of 12 |
/// | `M`, `S` | the minute, the second |
/// | `p`, `P` | AM or PM, in capitals and in small letters |
/// | `z` | the offset's hours with their sign, and its minutes |
/// | `s` | the seconds of Unix time |
/// | `n`, `t`, `%` | a line feed, a tab, a percent sign |
/// | `c` | `%a %b %e %H:%M:%S %Y` |
/// | `D` and `x`; `F` | `%m/%d/%y`; `%Y-%m-%d` |
/// | `T` and `X`; `R`; `r` | `%H:%M:%S`; `%H:%M`; `%I:%M:%S %p` |
///
/// Where the text ends before the letter, a component letter is expected at the percent sign. `E` and `O`
/// (alternative forms), `Z` (zone names), `^` and `#` (further flags) are not supported, and any other
/// character is no component name, each at its own place. Takes time in proportion to the text.
pub fn parse_strftime_borrowed<'a>(
    alloc: Global,
    text: &'a str,
) -> Result<Vec<BorrowedFormatItem<'a>>, DescriptionFault<'a>>
    ensures outcome { IsOutcome text.now result }
    // Literals are text, not bytes.
    ensures form { IfOk result (λ items. are_of_text items.items ≡ true) }
    // What is spelled is answered, unless memory runs out.
    ensures items { (items : List Tree) → SpellsStrftime text.now items
        → Gives (λ v. trees v.items) result (Ok items) }
    ensures fault { (fault : Fault) → FaultyStrftime text.now fault
        → Gives (λ v. trees v.items) result (Err fault) }
{
    items_of_strftime(alloc, text)
}

// The items of a text, read from left to right.
fn items_of_strftime<'a>(
    alloc: Global,
    text: &'a str,
) -> Result<Vec<BorrowedFormatItem<'a>>, DescriptionFault<'a>>
    ensures value { Gives (λ v. trees v.items) result (read_strftime text.now) }
    ensures form { IfOk result (λ items. are_of_text items.items ≡ true) }
{
    let mut all = Vec::new(alloc);
    let mut rest = whole_of(text);
    while !rest.text.is_empty() {
        let (spelled, after) = part(rest)?;
        push_part(&mut all, spelled)?;
        rest = after;
    }
    Ok(all)
}
