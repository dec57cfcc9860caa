//! The words of a description.

use description_lexer::{DescriptionVersion, closed, cut, name_of, past_space, whole_of};

fn versions_are_told_apart() -> bool {
    let (one, three) = (DescriptionVersion::One, DescriptionVersion::Three);
    one.is_one() && !three.is_one() && three.is_three()
}

fn names_are_cut() -> bool {
    let Ok((name, rest)) = name_of(7, whole_of(" day\u{c}padding:zero ]x")) else {
        return false;
    };
    (name.index, name.text, past_space(rest).text) == (1, "day", "padding:zero ]x")
}

fn brackets_are_closed() -> bool {
    let (_, end) = cut(whole_of("\t\r\n ]x"), 4);
    closed(0, end).is_ok_and(|after| after.index == 5)
}

#[test]
fn names_and_brackets(rt: HostRuntime) {
    assert!(rt; versions_are_told_apart() && names_are_cut() && brackets_are_closed());
}
