//! What to do where the words are wrong, as a second sentence after that of the fault.

use instants_formats::formats;
use instants_lines::{LinesFault, WrongWords};
use instants_prefixes::Lack;
use std::fmt::{self, Display, Formatter};

/// What to do.
#[derive(Clone, Copy)]
pub enum Hint {
    Do(&'static str),
    /// There is a format with a name that is near.
    Name(&'static str),
}

impl Display for Hint {
    fn fmt<F: fmt::Write>(&self, f: &mut Formatter<F>) -> fmt::Result {
        match self {
            Hint::Do(text) => f.write_str(text),
            Hint::Name(name) => write!(f, "there is a source {name}"),
        }
    }
}

/// What to do about a fault, where that can be said.
pub fn hint_on(fault: &LinesFault<'_>) -> Option<Hint> {
    match fault {
        LinesFault::Words(wrong) => hint_on_words(wrong),
        LinesFault::Lacks(lacking) => hint_on_lack(lacking.lack),
        LinesFault::Program(_) | LinesFault::Zone(_) => None,
    }
}

fn hint_on_words(wrong: &WrongWords<'_>) -> Option<Hint> {
    match wrong {
        WrongWords::UnknownMode(word) => hint_on_mode(word),
        WrongWords::Year(_) => {
            Some(Hint::Do("the year of the first line stands after year, as year 2024"))
        }
        WrongWords::Source { word, .. } | WrongWords::FirstSource(word) => hint_on_source(word),
        _ => None,
    }
}

fn hint_on_lack(lack: Lack) -> Option<Hint> {
    match lack {
        Lack::Year => Some(Hint::Do("give that of the first line before the sources: year 2024")),
        Lack::Time => Some(Hint::Do("give one before the sources: time 00:00")),
        Lack::Offset => Some(Hint::Do("give one after the target: +00:00 +02:00")),
        Lack::Day => None,
    }
}

fn hint_on_mode(word: &str) -> Option<Hint> {
    if word == "guess" {
        return Some(Hint::Do("guess has no other arguments: instants-lines guess < FILE"));
    }
    near(word).map(|_| Hint::Do("a mode stands before the sources: instants-lines key SOURCE.."))
}

const ORDER: &str =
    "year N, time HH:MM, field NAME or column N separator S, and label TEXT stand in this \
                     order before the sources";

fn hint_on_source(word: &str) -> Option<Hint> {
    match word {
        "year" | "time" | "field" | "column" | "separator" | "label" => Some(Hint::Do(ORDER)),
        _ if is_zone(word) => Some(Hint::Do(
            "a zone stands after the target: +00:00 Europe/Berlin",
        )),
        _ => Some(Hint::Name(near(word)?)),
    }
}

// Whether a word looks like the name of a zone, and not of a file.
fn is_zone(word: &str) -> bool {
    match word.as_bytes() {
        [b'/', ..] => false,
        bytes => bytes.contains(&b'/') && !bytes.contains(&b'.'),
    }
}

// What programs are called whose formats have other names.
static PROGRAMS: [(&str, &str); 12] = [
    ("nginx", "access-log"),
    ("apache", "access-log"),
    ("httpd", "access-log"),
    ("clf", "access-log"),
    ("django", "python-logging"),
    ("spring", "postgres"),
    ("journalctl", "syslog"),
    ("rsyslog", "syslog"),
    ("kubernetes", "klog"),
    ("epoch", "unix-time"),
    ("email", "rfc2822"),
    ("iso", "iso8601"),
];

static FORMATS: [&str; 3] = ["rfc3339", "rfc2822", "iso8601"];

// The name of a source that is near a word: that of what a program writes, or one that begins as the word does.
fn near(word: &str) -> Option<&'static str> {
    if let Some(program) = PROGRAMS.iter().find(|program| program.0 == word) {
        return Some(program.1);
    }
    let names = formats().iter().map(|format| format.name);
    FORMATS
        .iter()
        .copied()
        .chain(names)
        .find(|name| begin_alike(word, name))
}

// Whether one of two words begins as the other one, by three letters or more of either case, whatever marks stand between.
fn begin_alike(one: &str, other: &str) -> bool {
    let ones = one
        .as_bytes()
        .iter()
        .filter(|byte| byte.is_ascii_alphanumeric());
    let others = other
        .as_bytes()
        .iter()
        .filter(|byte| byte.is_ascii_alphanumeric());
    let mut count = 0_usize;
    for (first, second) in ones.zip(others) {
        if !first.eq_ignore_ascii_case(second) {
            return false;
        }
        count = count.saturating_add(1);
    }
    count >= 3
}
