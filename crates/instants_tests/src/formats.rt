//! Formats by name.

use instants_formats::{Format, Lacking, format_named, formats, laws};
use instants_sources::Source;
use instants_timeline::SourceText;

static NAMED: [Format; 5] = [
    Format {
        name: "access-log",
        language: "strftime",
        description: "[%d/%b/%Y:%T %z]",
        lacks: Lacking::Nothing,
    },
    Format {
        name: "date-utc",
        language: "strftime",
        description: "%a %b %e %T UTC %Y",
        lacks: Lacking::Utc,
    },
    Format {
        name: "mysql",
        language: "strftime",
        description: "%F %T",
        lacks: Lacking::Offset,
    },
    Format {
        name: "syslog",
        language: "strftime",
        description: "%b %e %T",
        lacks: Lacking::YearAndOffset,
    },
    Format {
        name: "date",
        language: "strftime",
        description: "%F",
        lacks: Lacking::TimeAndOffset,
    },
];

// That each format is found by its name is a law.
fn are_found() -> bool {
    for format in &NAMED {
        if format_named(format.name) != Some(format) {
            return false;
        }
    }
    formats().len() > NAMED.len() && format_named("MySQL").is_none()
}

// The description of a format as a source.
fn described(format: &Format) -> SourceText<'static> {
    if format.language == "strftime" {
        SourceText::Strftime(format.description)
    } else {
        SourceText::V3(format.description)
    }
}

// No description has a fault.
#[test]
fn names_and_descriptions(rt: HostRuntime) {
    laws::names();
    assert!(rt; are_found());
    for format in formats() {
        assert!(rt;
            Source::new(rt.alloc(), described(format)).is_ok(),
            "{}",
            format.name
        );
    }
}
