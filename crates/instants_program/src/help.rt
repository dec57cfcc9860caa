//! What the program says of itself. `./instants` prints it from here where no program is built.

ghost use Rattle.std.specs.Prelude.{◌≡◌, ◌||◌, codes, is_some};
ghost use Rattle.std.specs.Str.{bytes_eq};

pub(crate) const VERSION: &str = "instants 0.1.0";

pub(crate) const HELP: &str = "\
instants TARGET ASSUMED LIMIT SOURCE...
    reads lines with dates from standard input and writes one line for each: a
    date-time of fixed width at one offset, or a fault, as `! component month`

    TARGET   the offset at which moments are written: +HH:MM or -HH:MM
    ASSUMED  the offset of lines that have none, or - for none
    LIMIT    the greatest length of a line in bytes, 1 to 1048576
    SOURCE   rfc3339, rfc2822, iso8601, or v1, v2, v3 or strftime with a
             description in the next argument; several are tried in order

    instants +00:00 - 100 rfc3339 rfc2822 strftime '%d/%b/%Y:%H:%M:%S %z' < LINES

instants --help     prints this
instants --version  prints the version

The manual page instants(1) and the guide, GUIDE.md, say more.";

/// The text that a word alone asks for.
pub(crate) fn text_for(word: &str) -> Option<&'static str>
    ensures asked { is_some result
        ≡ (bytes_eq word.now (codes "--help") || (bytes_eq word.now (codes "-h") || bytes_eq word.now (codes "--version"))) }
{
    match word {
        "--help" | "-h" => Some(HELP),
        "--version" => Some(VERSION),
        _ => None,
    }
}
