//! Words that are wrong, each row with its sentence.

use crate::runs::run;
use std::alloc::Global;

// Words parted by bars, and the sentence after the name of the program, below a heading.
const ROWS: &str = r#" => "": no such mode; there are key, carry, replace, explain, locate
keys|+00:00|-|100|rfc3339 => "keys": no such mode; there are key, carry, replace, explain, locate
KEY|rfc3339 => "KEY": no such mode; there are key, carry, replace, explain, locate
+00:00|-|100|rfc3339 => "+00:00": no such mode; there are key, carry, replace, explain, locate
rfc3339 => "rfc3339": no such mode; there are key, carry, replace, explain, locate
--help|key => "--help": no such mode; there are key, carry, replace, explain, locate
-h|rfc3339 => "-h": no such mode; there are key, carry, replace, explain, locate
access.log => "access.log": no such mode; there are key, carry, replace, explain, locate
key => no source is named; there are rfc3339, rfc2822, iso8601, v1, v2, v3, strftime, and the names of --help
key|+00:00 => no source is named; there are rfc3339, rfc2822, iso8601, v1, v2, v3, strftime, and the names of --help
key|+00:00|- => no source is named; there are rfc3339, rfc2822, iso8601, v1, v2, v3, strftime, and the names of --help
key|+00:00|-|100 => no source is named; there are rfc3339, rfc2822, iso8601, v1, v2, v3, strftime, and the names of --help
carry|Z => no source is named; there are rfc3339, rfc2822, iso8601, v1, v2, v3, strftime, and the names of --help
carry|UTC|UTC => no source is named; there are rfc3339, rfc2822, iso8601, v1, v2, v3, strftime, and the names of --help
key|+24:00|-|100|rfc3339 => "+24:00": no target offset; it must be +HH:MM, -HH:MM, Z or UTC
key|-|rfc3339 => "-": no target offset; it must be +HH:MM, -HH:MM, Z or UTC
key|100|rfc3339 => "100": no target offset; it must be +HH:MM, -HH:MM, Z or UTC
key|+0000|-|100|rfc3339 => "+0000": no target offset; it must be +HH:MM, -HH:MM, Z or UTC
key|+1:00|-|100|rfc3339 => "+1:00": no target offset; it must be +HH:MM, -HH:MM, Z or UTC
key|2024-05-01|rfc3339 => "2024-05-01": no target offset; it must be +HH:MM, -HH:MM, Z or UTC
key|+00:00|100|rfc3339 => "100": no assumed offset; it must be +HH:MM, -HH:MM, Z, UTC or -, or a zone, as +02:00 or Europe/Berlin
key|+00:00|+00:60|100|rfc3339 => "+00:60": no assumed offset; it must be +HH:MM, -HH:MM, Z, UTC or -, or a zone, as +02:00 or Europe/Berlin
key|Z|--|100|rfc3339 => "--": no assumed offset; it must be +HH:MM, -HH:MM, Z, UTC or -, or a zone, as +02:00 or Europe/Berlin
key|UTC|+5|rfc3339 => "+5": no assumed offset; it must be +HH:MM, -HH:MM, Z, UTC or -, or a zone, as +02:00 or Europe/Berlin
key|+00:00|a b/c|rfc3339 => "a b/c": no zone; modes key, carry, replace and locate take one by its name, as Europe/Berlin or :CET
key|+00:00|:|rfc3339 => "": no zone; modes key, carry, replace and locate take one by its name, as Europe/Berlin or :CET
key|+00:00|:a.b|100|rfc => "a.b": no zone; modes key, carry, replace and locate take one by its name, as Europe/Berlin or :CET
explain|+00:00|Europe/Berlin|rfc3339 => "Europe/Berlin": no zone; modes key, carry, replace and locate take one by its name, as Europe/Berlin or :CET
key|+00:00|Europe/Berlin|rfc3339 => "Europe/Berlin": there is no such zone
key|+00:00|:CET|100|rfc3339 => "CET": there is no such zone
carry|+00:00|-|0|rfc3339 => "0": no limit; it must be a number from 1 to 1048576
carry|+00:00|-|1048577|rfc3339 => "1048577": no limit; it must be a number from 1 to 1048576
carry|+00:00|-|-1|rfc3339 => "-1": no limit; it must be a number from 1 to 1048576
carry|+00:00|-|1k|rfc3339 => "1k": no limit; it must be a number from 1 to 1048576
carry|+00:00|-|Z|rfc3339 => "Z": no limit; it must be a number from 1 to 1048576
carry|+00:00|-|00000100|rfc3339 => "00000100": no limit; it must be a number from 1 to 1048576
carry|+00:00|-|1.5|rfc3339 => "1.5": no limit; it must be a number from 1 to 1048576
key|year|24x|rfc3339 => "24x": no year; it must be four digits, as 2024
key|Z|-|100|year|12345|rfc3339 => "12345": no year; it must be four digits, as 2024
key|year|24|rfc3339 => "24": no year; it must be four digits, as 2024
key|+00:00|OFFSET|year|YEAR|syslog => "OFFSET": no assumed offset; it must be +HH:MM, -HH:MM, Z, UTC or -, or a zone, as +02:00 or Europe/Berlin
key|+00:00|Z|year|YEAR|syslog => "YEAR": no year; it must be four digits, as 2024
key|OFFSET|mysql => "OFFSET": no target offset; it must be +HH:MM, -HH:MM, Z or UTC
key|year||rfc3339 => "": no year; it must be four digits, as 2024
key|year|-1|time|25:00|rfc => "-1": no year; it must be four digits, as 2024
key|time|25:00|rfc3339 => "25:00": no time of day; it must be HH:MM
key|year|2024|time|1:30|rfc => "1:30": no time of day; it must be HH:MM
key|time|12:60|rfc3339 => "12:60": no time of day; it must be HH:MM
explain|field|a|rfc3339 => "a": no field; modes key, carry, replace and locate take one
explain|column|2|rfc3339 => "2": no column; modes key, carry, replace and locate take one from 1 to 1048576, where no field is named
key|column|0|rfc3339 => "0": no column; modes key, carry, replace and locate take one from 1 to 1048576, where no field is named
key|column|1048577|rfc3339 => "1048577": no column; modes key, carry, replace and locate take one from 1 to 1048576, where no field is named
key|column|a|rfc3339 => "a": no column; modes key, carry, replace and locate take one from 1 to 1048576, where no field is named
key|field|a|column|2|rfc3339 => "2": no column; modes key, carry, replace and locate take one from 1 to 1048576, where no field is named
key|column|2|separator||rfc3339 => "": no separator; after a column it must be one byte and no quotation mark, or tab
key|column|2|separator|;;|rfc3339 => ";;": no separator; after a column it must be one byte and no quotation mark, or tab
key|column|2|separator|"|rfc3339 => """: no separator; after a column it must be one byte and no quotation mark, or tab
key|column|2|separator|§|rfc3339 => "§": no separator; after a column it must be one byte and no quotation mark, or tab
key|separator|;|rfc3339 => ";": no separator; after a column it must be one byte and no quotation mark, or tab
key|field|a|separator|;|rfc3339 => ";": no separator; after a column it must be one byte and no quotation mark, or tab
key|field|a|time|12:60|rfc3339 => source 1: "time": no such source; there are rfc3339, rfc2822, iso8601, v1, v2, v3, strftime, and the names of --help; an offset before the sources is +HH:MM, -HH:MM, Z or UTC
key|field|a|field|b|rfc3339 => source 1: "field": no such source; there are rfc3339, rfc2822, iso8601, v1, v2, v3, strftime, and the names of --help; an offset before the sources is +HH:MM, -HH:MM, Z or UTC
key|column|2|field|b|rfc3339 => source 1: "field": no such source; there are rfc3339, rfc2822, iso8601, v1, v2, v3, strftime, and the names of --help; an offset before the sources is +HH:MM, -HH:MM, Z or UTC
key|+24:00|year|24x|rfc3339 => "+24:00": no target offset; it must be +HH:MM, -HH:MM, Z or UTC
key|year => no source is named; there are rfc3339, rfc2822, iso8601, v1, v2, v3, strftime, and the names of --help
key|year|24x => no source is named; there are rfc3339, rfc2822, iso8601, v1, v2, v3, strftime, and the names of --help
key|year|2024|time|12:30 => no source is named; there are rfc3339, rfc2822, iso8601, v1, v2, v3, strftime, and the names of --help
key|time|12:30|year|2024|rfc3339 => source 1: "year": no such source; there are rfc3339, rfc2822, iso8601, v1, v2, v3, strftime, and the names of --help; an offset before the sources is +HH:MM, -HH:MM, Z or UTC
key|Z|-|100|year|2024|rfc3339|year => source 2: "year": no such source; there are rfc3339, rfc2822, iso8601, v1, v2, v3, strftime, and the names of --help
carry|+00:00|-|100|RFC3339 => source 1: "RFC3339": no such source; there are rfc3339, rfc2822, iso8601, v1, v2, v3, strftime, and the names of --help
carry|+00:00|-|100|rfc3339|rfc-2822 => source 2: "rfc-2822": no such source; there are rfc3339, rfc2822, iso8601, v1, v2, v3, strftime, and the names of --help
carry|+00:00|-|100|v2|x|v4|x => source 2: "v4": no such source; there are rfc3339, rfc2822, iso8601, v1, v2, v3, strftime, and the names of --help
carry|rfc3339| => source 2: "": no such source; there are rfc3339, rfc2822, iso8601, v1, v2, v3, strftime, and the names of --help
carry|+00:00|-|100|200|rfc3339 => source 1: "200": no such source; there are rfc3339, rfc2822, iso8601, v1, v2, v3, strftime, and the names of --help
carry|+00:00|-|100|%d/%b/%Y => source 1: "%d/%b/%Y": no such source; there are rfc3339, rfc2822, iso8601, v1, v2, v3, strftime, and the names of --help
carry|utc|rfc3339 => source 1: "utc": no such source; there are rfc3339, rfc2822, iso8601, v1, v2, v3, strftime, and the names of --help; an offset before the sources is +HH:MM, -HH:MM, Z or UTC
carry|Europe/Berlin|-|100|rfc3339 => source 1: "Europe/Berlin": no such source; there are rfc3339, rfc2822, iso8601, v1, v2, v3, strftime, and the names of --help; an offset before the sources is +HH:MM, -HH:MM, Z or UTC
carry|RFC3339 => source 1: "RFC3339": no such source; there are rfc3339, rfc2822, iso8601, v1, v2, v3, strftime, and the names of --help; an offset before the sources is +HH:MM, -HH:MM, Z or UTC
carry|+00:00|none|100|rfc3339 => source 1: "none": no such source; there are rfc3339, rfc2822, iso8601, v1, v2, v3, strftime, and the names of --help; an offset before the sources is +HH:MM, -HH:MM, Z or UTC
carry|rfc3339|app.log => source 2: "app.log": no such source; files are read from standard input: instants-lines .. < FILE
carry|+00:00|-|100|/var/log/syslog|rfc3339 => source 1: "/var/log/syslog": no such source; files are read from standard input: instants-lines .. < FILE
carry|app.log|rfc3339 => source 1: "app.log": no such source; files are read from standard input: instants-lines .. < FILE
carry|strftime => source 1: "strftime" needs a description in the next argument
carry|+00:00|-|100|rfc3339|v3 => source 2: "v3" needs a description in the next argument
carry|rfc2822|strftime|%F|v1 => source 3: "v1" needs a description in the next argument
key|+00:00|-|100|rfc3339|strftime|%! => source 2: invalid component name `!` at byte index 1
key|v1|[year => source 1: unclosed opening bracket at byte index 0
replace|+00:00|-|100|label|web|rfc3339 => "web": no label; modes key and carry take one, without tabs and line feeds
locate|label|web|rfc3339 => "web": no label; modes key and carry take one, without tabs and line feeds
key|label|web => no source is named; there are rfc3339, rfc2822, iso8601, v1, v2, v3, strftime, and the names of --help
key|mysql|strftime => source 2: "strftime" needs a description in the next argument
key|+00:00|+00:00|100|strftime|%b %e %T => source 1 names no moment: it has no year
key|+00:00|+00:00|100|rfc3339|strftime|%F => source 2 names no moment: it has no time of day
key|+00:00|-|100|strftime|%F %T => source 1 names no moment: it has no offset
key|+00:00|+00:00|100|v3|%Y-%m-%d => source 1 names no moment: it has no year
key|+00:00|+00:00|100|strftime|%y/%m/%d %T => source 1 names no moment: it has no year
key|+00:00|+00:00|100|strftime|%Y %H => source 1 names no moment: it has no day
explain|+00:00|-|100|iso8601|mysql => source 2 names no moment: it has no offset"#;

// The sentence of words that are refused, before anything is read.
fn sentence(alloc: Global, words: &str) -> Option<String> {
    match run(alloc, words, b"x", Some(0), &mut []) {
        Some(Err(fault)) => format!(in alloc; "{fault}").ok(),
        _ => None,
    }
}

// Whether a row has the sentence of its words.
fn is_refused(alloc: Global, row: &str) -> Option<bool> {
    let (words, wanted) = row.split_once(" => ")?;
    let sentence = sentence(alloc, words)?;
    Some(sentence.as_str().strip_prefix("instants-lines: ") == Some(wanted))
}

#[test]
fn words_that_are_wrong(rt: HostRuntime) {
    for row in ROWS.lines() {
        assert!(rt; is_refused(rt.alloc(), row) == Some(true), "{row}");
    }
}
