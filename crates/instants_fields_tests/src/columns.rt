//! Columns of lines: what Python's csv finds in them.

use instants_fields::{Part, Separator, column, first_escape};

// A line, the number of a column and what separates them; where the column begins and ends.
static THERE: [(&str, usize, u8, usize, usize); 19] = [
    ("a,b,c", 2, b',', 2, 3),
    ("a,b,c", 3, b',', 4, 5),
    ("", 1, b',', 0, 0),
    (",", 2, b',', 1, 1),
    ("\"a,b\",c", 1, b',', 1, 4),
    ("\"a,b\",c", 2, b',', 6, 7),
    ("\"a \"\"b\"\"\",c", 1, b',', 1, 8),
    ("\"a \"\"b\"\"\",c", 2, b',', 10, 11),
    ("\"a\"\"\",b", 1, b',', 1, 4),
    ("\"\",\"\"", 2, b',', 4, 4),
    ("a\"b,c", 1, b',', 0, 3),
    ("a,\"b", 1, b',', 0, 1),
    ("a;\"b;c\"", 2, b';', 3, 6),
    ("a\t\"b\tc\"", 2, b'\t', 2, 4),
    ("a\t\"b\tc\"", 3, b'\t', 5, 7),
    ("\"a\tb", 1, b'\t', 0, 2),
    ("a,b\r", 2, b',', 2, 3),
    ("a,\"b\"\r", 2, b',', 3, 4),
    ("\r", 1, b',', 0, 0),
];

// The same, where there is no such column.
static ABSENT: [(&str, usize, u8); 10] = [
    ("a,b,c", 4, b','),
    ("a,b", 0, b','),
    ("", 2, b','),
    (",", 3, b','),
    ("\"a\"b,c", 1, b','),
    ("\"a\"b,c", 2, b','),
    ("\"a,b", 1, b','),
    ("\"a,b", 2, b','),
    ("a,\"b", 2, b','),
    ("a", 1, b'"'),
];

fn part(line: &str, number: usize, separator: u8) -> Option<Part> {
    column(line.as_bytes(), number, Separator::new(separator)?)
}

#[test]
fn columns_of_lines(rt: HostRuntime) {
    for row in &THERE {
        let (line, number, separator, start, end) = *row;
        assert!(rt; part(line, number, separator) == Some(Part { start, end }));
    }
}

#[test]
fn no_columns(rt: HostRuntime) {
    for row in &ABSENT {
        let (line, number, separator) = *row;
        assert!(rt; part(line, number, separator).is_none());
    }
}

#[test]
fn escapes(rt: HostRuntime) {
    assert!(rt; first_escape(b"2021\\u002d01").is_some_and(|place| place == 4));
    assert!(rt; first_escape(b"2021-01").is_none());
}
