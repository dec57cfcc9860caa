//! Trees at values that are known from outside.

use crate::support::{tell, tell_all};
use description_grammar::tree_of;
use description_items::Component;
use description_items::modifier::*;
use description_tree::{FormatDescriptionV3 as Described, FormatDescriptionV3Inner as Inner, Lent};
use std::alloc::Global;

// The components of the nodes that components become.
fn components() -> [Option<Component>; 4] {
    let day = Component::Day(Day::default().with_padding(Padding::Space));
    let year = Component::Year(Year::default().with_repr(YearRepr::LastTwo));
    [
        Inner::from(day).component(),
        Inner::from(year).component(),
        Inner::from(Component::MonthLong(MonthLong::default())).component(),
        Inner::from(Component::IsoYearLastTwo(IsoYearLastTwo::default())).component(),
    ]
}

const NODES: &str = r#"
Some(Day(Day { padding: Space }))
Some(CalendarYearLastTwo(CalendarYearLastTwo { padding: Zero }))
Some(MonthLong(MonthLong { case_sensitive: true }))
Some(IsoYearLastTwo(IsoYearLastTwo { padding: Zero }))"#;

// Adds the copy of a description: its tree, and the bytes that it reserves.
fn tell_copy(told: &mut String, alloc: Global, description: &Described<'_>) {
    if let Ok(copy) = description.to_owned(alloc) {
        tell(told, copy.inner());
        tell(told, copy.max_bytes_needed());
    }
}

// Adds the copy of a node's description.
fn tell_node_copy(told: &mut String, alloc: Global, node: Inner<'_>) {
    if let Ok(description) = node.into_opaque() {
        tell_copy(told, alloc, &description);
    }
}

fn copied(alloc: Global) -> String {
    let mut told = String::new(alloc);
    if let Ok(tree) = tree_of(alloc, TREE) {
        tell_node_copy(&mut told, alloc, tree);
    }
    tell_node_copy(
        &mut told,
        alloc,
        Inner::BorrowedCompound(Lent { items: &[] }),
    );
    told
}

// Text, an optional item, alternatives, and more nodes than a list begins with.
const TREE: &str = "x[day][optional [y[day]]][first [z] [[day]]][day]x";

// Nothing of the copy is borrowed.
const COPIED: &str = r#"
OwnedCompound([OwnedLiteral("x"), Day(Day { padding: Zero }), OwnedOptional { format: true, item: OwnedCompound([OwnedLiteral("y"), Day(Day { padding: Zero })]) }, OwnedFirst([OwnedCompound([OwnedLiteral("z")]), OwnedCompound([Day(Day { padding: Zero })])]), Day(Day { padding: Zero }), OwnedLiteral("x")])
11
OwnedCompound([])
0"#;

#[test]
fn nodes_and_copies(rt: HostRuntime) {
    let copied = copied(rt.alloc());
    let mut nodes = String::new(rt.alloc());
    tell_all(&mut nodes, &components());
    assert!(rt; nodes.as_str() == NODES && copied.as_str() == COPIED);
}
