//! The calls that take memory, each alone. With memory each gives its answer; `rt try --test
//! --fail-alloc N` refuses the growths in turn, and then a call may say nothing but that memory ran out.

use description::{DescriptionFault, parse, parse_strftime_borrowed};
use description_grammar::items_of;
use description_items::BorrowedFormatItem;
use description_lexer::{DescriptionVersion, modifiers_of, whole_of};
use std::alloc::{AllocError, Global};
use std::test::Fail;

// Whether six modifiers are found, the last of them with this key and this value.
fn are_found(alloc: Global, text: &str) -> Result<bool, AllocError> {
    match modifiers_of(alloc, whole_of(text)) {
        Ok((all, _)) => { Ok(all.len() == 6 && all[5].key.text == "f" && all[5].value.text == "6") }
        Err(DescriptionFault::Memory) => Err(AllocError),
        Err(_) => Ok(false),
    }
}

// How many items a call gave, unless memory ran out. What they are stands in the rows of the program `rows`.
fn counted(
    answer: Result<Vec<BorrowedFormatItem<'_>>, DescriptionFault<'_>>,
) -> Result<usize, AllocError> {
    match answer {
        Ok(items) => Ok(items.len()),
        Err(DescriptionFault::Memory) => Err(AllocError),
        Err(_) => Ok(0),
    }
}

// A text whose items take more room than a list begins with.
const LONG: &str = "[day]x[day padding:zero]x[day]x[day]x[day]x";

fn items_of_all(alloc: Global) -> Result<[usize; 5], AllocError> {
    Ok([
        counted(parse_strftime_borrowed(alloc, "%dx%zx%d%z%dx"))?,
        counted(parse_strftime_borrowed(alloc, "%F%F%F"))?,
        counted(parse(alloc, LONG))?,
        counted(items_of(alloc, DescriptionVersion::One, LONG))?,
        counted(items_of(alloc, DescriptionVersion::Two, LONG))?,
    ])
}

// A text too long for a row.
fn long_text(alloc: Global) -> Result<String, AllocError> {
    let mut long = String::new(alloc);
    for _ in 0..10_000 {
        long.push_str("%d, ")?;
    }
    Ok(long)
}

#[test]
fn modifiers_and_items(rt: HostRuntime) -> Result<(), Fail> {
    let alloc = rt.alloc();
    let are_found = are_found(alloc, " a:1 b:2 c:3 d:4 e:5 f:6")?;
    let counts = items_of_all(alloc)?;
    let long = long_text(alloc)?;
    let count = counted(parse_strftime_borrowed(alloc, long.as_str()))?;
    assert!(rt; are_found && counts == [10, 15, 10, 10, 10] && count == 20_000);
    Ok(())
}
