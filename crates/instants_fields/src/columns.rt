//! The columns of a line: RFC 4180, section 2, and the type text/tab-separated-values.
ghost use Rattle.std.specs.Prelude.{◌≡◌, ◌≤◌, ◌<◌, ◌↔◌, IsSome, ◌==◌, IfSome, Some, length};
ghost use Rattle.instants_fields.specs.Pieces as Pieces;
ghost use Rattle.instants_fields.specs.Columns as Columns;

use std::marker::Model;

/// Where in a line a column lies: up to `end`, where the rest of the line begins.
#[derive(Clone, Copy, Debug, PartialEq, Eq)]
pub struct Part {
    /// Where the column begins: after its quotation mark, if it has one.
    pub start: usize,
    /// Where the column ends: before its quotation mark, if it has one.
    pub end: usize,
}

/// The byte between columns: neither a quotation mark nor the end of a line.
///
/// A contract sees the byte.
#[derive(Clone, Copy)]
pub struct Separator {
    byte: u8,
}

impl Model for Separator {
    ghost use Rattle.std.specs.Prelude.{ℕ};
    ghost use Rattle.instants_fields.specs.Columns.{IsSeparator};

    ghost Value = { ℕ };

    ghost view = { λ s. s.byte };

    ghost invariant = { λ s. IsSeparator s.byte };

    ghost inverse = { λ n. record { byte = n } };
}

impl Separator {
    /// A separator, if the byte may be one.
    pub fn new(byte: u8) -> Option<Separator>
        ensures which { IsSome result ↔ Columns.IsSeparator byte }
        ensures value { IfSome result (λ separator. separator ≡ byte) }
    {
        match byte {
            b'"' | b'\n' | b'\r' => None,
            _ => Some(Separator { byte }),
        }
    }
}

// Where a column begins and ends, by how many bytes are left there, and what stands behind it.
#[derive(Clone, Copy)]
struct Cut<'a> {
    before: usize,
    after: usize,
    rest: &'a [u8],
}

// What stands from a separator on.
#[tactic(auto, unfolding(crate::specs::Pieces::without))]
fn from_separator(separator: u8, text: &[u8]) -> &[u8]
    ensures rest { result.now ≡ Pieces.without (Columns.is_other separator) text.now }
    ensures shorter { length result.now ≤ length text.now }
{
    let mut left = text;
    while let [first, rest @ ..] = left {
        if *first == separator {
            return left;
        }
        left = rest;
    }
    left
}

// What stands after the quotation mark that closes a column.
#[tactic(auto, unfolding(crate::specs::Columns::after_mark))]
fn after_mark(text: &[u8]) -> Option<&[u8]>
    ensures cut { Pieces.rest_view result ≡ Columns.after_mark text.now }
    ensures shorter { IfSome result (λ rest. length rest.now < length text.now) }
{
    let mut left = text;
    while let [first, rest @ ..] = left {
        left = match (*first, rest) {
            (b'"', [b'"', more @ ..]) => more,
            (b'"', _) => return Some(rest),
            _ => rest,
        };
    }
    None
}

// A column without quotation marks.
fn plain(separator: u8, text: &[u8]) -> Cut<'_>
    ensures cut { Columns.cuts_view (Some result) ≡ Columns.plain separator text.now }
    ensures within { Columns.CutsFrom (length text.now) result }
{
    let rest = from_separator(separator, text);
    Cut {
        before: text.len(),
        after: rest.len(),
        rest,
    }
}

// A column between quotation marks, after the first of them.
fn marked(text: &[u8]) -> Option<Cut<'_>>
    ensures cut { Columns.cuts_view result ≡ Columns.marked text.now }
    ensures within { IfSome result (Columns.CutsFrom (length text.now)) }
{
    let rest = after_mark(text)?;
    Some(Cut {
        before: text.len(),
        after: rest.len() + 1,
        rest,
    })
}

// A column that may stand between quotation marks.
#[tactic(auto, unfolding(crate::specs::Columns::marked_or_plain, crate::specs::Pieces::after_byte))]
fn marked_or_plain(separator: u8, text: &[u8]) -> Option<Cut<'_>>
    ensures cut { Columns.cuts_view result ≡ Columns.marked_or_plain separator text.now }
    ensures within { IfSome result (Columns.CutsFrom (length text.now)) }
{
    match text {
        [b'"', inside @ ..] => marked(inside),
        _ => Some(plain(separator, text)),
    }
}

// A column.
#[tactic(auto, unfolding(crate::specs::Columns::one_column))]
fn one_column(separator: u8, text: &[u8]) -> Option<Cut<'_>>
    ensures cut { Columns.cuts_view result ≡ Columns.one_column separator text.now }
    ensures within { IfSome result (Columns.CutsFrom (length text.now)) }
{
    if separator == b'\t' {
        return Some(plain(separator, text));
    }
    marked_or_plain(separator, text)
}

// What stands after a separator.
#[tactic(auto, unfolding(crate::specs::Pieces::byte))]
fn after_separator(separator: u8, text: &[u8]) -> Option<&[u8]>
    ensures cut { Pieces.rest_view result ≡ Pieces.rest_of (Pieces.byte separator text.now) }
    ensures shorter { IfSome result (λ rest. length rest.now ≤ length text.now) }
{
    match text {
        [first, rest @ ..] if *first == separator => Some(rest),
        _ => None,
    }
}

// What stands after so many columns and a separator after each.
#[tactic(auto, using(crate::proofs::ColumnLemmas::one_more, crate::proofs::ColumnLemmas::no_column))]
fn after_columns(separator: u8, count: usize, text: &[u8]) -> Option<&[u8]>
    ensures cut { Pieces.rest_view result ≡ Pieces.rest_of (Columns.columns separator count text.now) }
    ensures shorter { IfSome result (λ rest. length rest.now ≤ length text.now) }
{
    let mut left = text;
    let mut due = count;
    while due > 0 {
        let cut = one_column(separator, left)?;
        left = after_separator(separator, cut.rest)?;
        due -= 1;
    }
    Some(left)
}

// Whether a column may end here.
fn is_ended(separator: u8, text: &[u8]) -> bool
    ensures { result ≡ Columns.is_ended separator text.now }
{
    match text {
        [] => true,
        [first, ..] => *first == separator,
    }
}

// A column after so many others.
#[tactic(auto, using(crate::proofs::ColumnLemmas::after_others))]
fn column_after(separator: u8, others: usize, text: &[u8]) -> Option<Cut<'_>>
    ensures cut { Columns.cuts_view result ≡ Columns.column_after separator others text.now }
    ensures within { IfSome result (Columns.CutsFrom (length text.now)) }
{
    one_column(separator, after_columns(separator, others, text)?)
}

// The line without a carriage return at its end.
fn without_return(line: &[u8]) -> &[u8]
    ensures text { result.now ≡ Columns.without_return line.now }
    ensures shorter { length result.now ≤ length line.now }
{
    match line {
        [text @ .., b'\r'] => text,
        _ => line,
    }
}

/// Where the column of a number lies, counted from 1.
///
/// A column may stand in quotation marks, in which a separator is a byte of the column, and two quotation marks are one:
/// the part is what lies between the marks, as it stands. After the mark that closes the column a separator follows, or the
/// line ends. Where the separator is a tab, a quotation mark is a byte like others. A carriage return at the end of the line
/// is no part of the last column.
#[tactic(auto, unfolding(crate::specs::Columns::column_of))]
pub fn column(line: &[u8], number: usize, separator: Separator) -> Option<Part>
    ensures value { result ≡ Columns.column_of line.now number separator }
    ensures within { IfSome result (λ part. (part.start ≤ part.end) × (part.end ≤ length line.now)) }
{
    let others = number.checked_sub(1)?;
    let text = without_return(line);
    let cut = column_after(separator.byte, others, text)?;
    if !is_ended(separator.byte, cut.rest) {
        return None;
    }
    Some(Part {
        start: text.len() - cut.before,
        end: text.len() - cut.after,
    })
}
