//! Texts of asctime, and their moments, as Python prints them.
use asctime_tests::{read_exact, read_fields};

// A text, and its second of Unix time, where it names a moment.
static ROWS: [(&str, Option<i64>); 5] = [
    ("Sun Nov  6 08:49:37 1994", Some(784_111_777)),
    ("Fri Dec 31 23:59:59 9999", Some(253_402_300_799)),
    ("Thu Jan  1 00:00:00 1970", Some(0)),
    ("Thu Feb 29 00:00:00 1970", None),
    ("sun Nov  6 08:49:37 1994", None),
];

fn exactly(text: &[u8]) -> Option<i64> {
    match read_exact(text) {
        Ok(moment) => Some(moment.unix_timestamp()),
        Err(_) => None,
    }
}

fn fast(text: &[u8]) -> Option<i64> {
    let fields = read_fields(text)?;
    Some(fields.moment().unix_timestamp())
}

#[test]
fn texts_are_read(rt: HostRuntime) {
    for row in &ROWS {
        let (text, second) = (row.0.as_bytes(), row.1);
        assert!(rt; exactly(text) == second && fast(text) == second);
    }
}
