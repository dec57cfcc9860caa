//! What the first bytes of a line show of a description.

use description::{
    BorrowedFormatItem, Description, DescriptionVersion, FormatDescriptionV3, parse_borrowed,
    parse_strftime_borrowed,
};
use parsing_item_layouts::{FirstBounds, FirstBytes};
use std::alloc::Global;

// A description by the letters of strftime, a line, and whether its first four bytes show that the description reads no
// prefix of it, whether the bounds of its first sixteen do, and whether they or its length show that it is not read as a
// whole.
const LETTERS: &str = r"%d/%b => 2021-01-01 => true true true
%d/%b => 1/Jan => true true true
%d/%b =>  => true true true
%d/%b => GET / => true true true
%d/%b => 01/Jan => false false false
%d/%b => 99/Oct => false false false
%b %e => GET / HTTP => true false true
%b %e => Jun-01 => true true true
%b %e => 1 Jun => true true true
%b %e => Ju => true true true
%b %e => Jun  1 => false false false
%b %e => dec 31 => false false false
%b %e => Dxx 31 => false false false
%A => July => true false false
%A => 1 => true true true
%A => Tuesday => false false false
%A => wednesday => false false false
%e. => /1. => true false false
%e. => 1/. => true false false
%e. => 1 => true true true
%e. =>  1. => false false false
%e. => 31. => false false false
%-d.%m => .1 => true true true
%-d.%m => x => true true true
%-d.%m => 1.01 => false false false
%-d.%m => 31.01 => false false false
%-d.%m => 1 => false false false
%s => x => true true true
%s =>  => true true true
%s => .5 => true true true
%s => -1 => false false false
%s => +1 => false false false
%s => 1700000000 => false false false
 => x => false false true
 =>  => false false false
%C => x => true true true
%C =>   => true true true
%C => 20 => false false false
%C => -1 => false true true
%u => x => true true true
%u =>  1 => true true true
%u => 1 => false false false
%u => 7 => false false false
%d/%b => 01/Jan/2024 => false false true
%e.%m => /1.01.2024 is a date => true false true";

// The same by a description of version 3.
const TREES: &str = r"\[[day] => 01 => true true true
\[[day] => ]01 => true true true
\[[day] => [01 => false false false
\[[day] => [31 => false false false
[year]-[month] => 01/01/2021 => true true true
[year]-[month] => 202 => true true true
[year]-[month] => 202x-01 => true true true
[year]-[month] => -20x-01 => true true true
[year]-[month] => 2021-01 => false false false
[year]-[month] => -0001-01 => false false false
[year]-[month] => +12345-01 => false true true
at [hour] => am 12 => true true true
at [hour] => At 12 => true true true
at [hour] => at => true true true
at [hour] => at 12 => false false false
[period] => xm => true false false
[period] => A1 => true true true
[period] => p => true true true
[period] => AM => false false false
[period] => pm 1 => false false true
[ignore count:2]x => abc => true true true
[ignore count:2]x =>  => true true true
[offset_hour sign:mandatory] => x1 => true true true
[offset_hour sign:mandatory] => +x => true true true
[offset_hour sign:mandatory] => +01 => false false false
[offset_hour sign:mandatory] => -12 => false false false
[unix_timestamp] => abc => true true true
[unix_timestamp] =>  1 => true true true
[unix_timestamp] => 12 => false false false
[unix_timestamp] => -12 => false false false
[hour]:[minute] => 1:00 => true true true
[hour]:[minute] => abc => true true true
[hour]:[minute] => 01:00 => false false false
[optional [x]]y => y => false false false
[optional [x]]y => z => true true true
[day]-[month] [hour]:[minute] => 01-07 10:52 => false false false
[day]-[month] [hour]:[minute] => 01-07 10.52 => false true true
[day]-[month] [hour]:[minute] => 01-07 10 => false true true
[day]-[month]-[year] [hour] => 01-07-203 10 => false true true
[day]-[month]-[year] [hour] => 01-07--2003 10 and more => false false true
[year]-[month]-[day] => 2024-01-02 => false false false
[year]-[month]-[day] => 2024/01/02 => false true true
[year]-[month]-[day] => 2024-01-02T10 => false false true
[year]-[month]-[day] => +2024/01/02 and more => false true true
[hour] [year]:[second] => 10 2024.37 => false true true
[hour] [year]:[second] => 10 -2024:37 => false false false
[hour]:[minute]:[second]UTC => 10:52:37UTC => false false false
[hour]:[minute]:[second]UTC => 10:52:37GMT => false true true
[hour]:[minute]:[second]UTC => 10:52:3 => false true true
[hour]:[minute]:[second]UTC => 10:52:37UTC, and more => false false true
[hour]:[minute]:[second] => 10:52:37,123 and more => false false true";

// Whether they rule a line out. They do where no line can begin as it does.
fn rule_out(bytes: &FirstBytes, line: &[u8]) -> bool {
    let first = line.first().copied().unwrap_or(0);
    bytes.rule_out(line) || !bytes.can_stand(0, first)
}

// What is shown of a line.
fn shown(bytes: &FirstBytes, bounds: &FirstBounds, line: &[u8]) -> [bool; 3] {
    [
        rule_out(bytes, line),
        bounds.rule_out(line),
        bounds.rule_out_whole(line),
    ]
}

fn shown_by_items(items: &[BorrowedFormatItem<'_>], line: &[u8]) -> [bool; 3] {
    let (bytes, bounds) = (FirstBytes::of_items(items), FirstBounds::of_items(items));
    shown(&bytes, &bounds, line)
}

fn shown_by_tree(tree: &FormatDescriptionV3<'_>, line: &[u8]) -> [bool; 3] {
    let bytes = FirstBytes::of_description(tree);
    let bounds = FirstBounds::of_description(tree);
    shown(&bytes, &bounds, line)
}

fn shown_by(description: &Description<'_>, line: &[u8]) -> [bool; 3] {
    match description {
        Description::Items(items) => shown_by_items(items, line),
        Description::V3(tree) => shown_by_tree(tree, line),
    }
}

fn by_letters(alloc: Global, text: &str, line: &str) -> Option<[bool; 3]> {
    let items = parse_strftime_borrowed(alloc, text).ok()?;
    Some(shown_by_items(&items, line.as_bytes()))
}

fn by_version(alloc: Global, text: &str, line: &str) -> Option<[bool; 3]> {
    let description = parse_borrowed(alloc, DescriptionVersion::Three, text).ok()?;
    Some(shown_by(&description, line.as_bytes()))
}

// The description and the line of a row, and the words that say what is shown.
fn parts_of(row: &str) -> Option<(&str, &str, &str)> {
    let (row, words) = row.rsplit_once(" => ")?;
    let (text, line) = row.split_once(" => ")?;
    Some((text, line, words))
}

fn is_said(shown: &[bool; 3], words: &str) -> bool {
    shown[0] == words.starts_with("true")
        && shown[1] == words.contains(" true ")
        && shown[2] == words.ends_with("true")
}

// Whether a row is so, by the letters of strftime.
fn is_so_by_letters(alloc: Global, row: &str) -> bool {
    let Some((text, line, words)) = parts_of(row) else {
        return false;
    };
    match by_letters(alloc, text, line) {
        Some(shown) => is_said(&shown, words),
        None => false,
    }
}

fn is_so_by_version(alloc: Global, row: &str) -> bool {
    let Some((text, line, words)) = parts_of(row) else {
        return false;
    };
    match by_version(alloc, text, line) {
        Some(shown) => is_said(&shown, words),
        None => false,
    }
}

#[test]
fn letters_and_trees(rt: HostRuntime) {
    for row in LETTERS.lines() {
        assert!(rt; is_so_by_letters(rt.alloc(), row), "{row}");
    }
    for row in TREES.lines() {
        assert!(rt; is_so_by_version(rt.alloc(), row), "{row}");
    }
}
