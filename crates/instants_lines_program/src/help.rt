//! What the program says of itself. `./instants-lines` prints it from here where no program is built.

ghost use Rattle.std.specs.Prelude.{◌≡◌, ◌||◌, codes, is_some};
ghost use Rattle.std.specs.Str.{bytes_eq};

pub(crate) const VERSION: &str = "instants-lines 0.1.0";

pub(crate) const HELP: &str = "\
instants-lines [-q] [--count] MODE [TARGET [ASSUMED [LIMIT]]] [year N]
               [time HH:MM] [field NAME | column N [separator S]]
               [label TEXT] SOURCE...
    reads lines from standard input, finds the date-time of each, and writes
    the line to standard output with that at one offset
instants-lines guess
    reads the first 1048576 bytes of standard input, and writes which formats
    date its lines, and by which words, the best first; put the offset of the
    machine that wrote the lines in the place of OFFSET, as +02:00, or its zone,
    as Europe/Berlin, and the year of the first one in that of YEAR

    -q       no warnings: of a description that names no component, of packed
             input, and of lines none of which has a date
    --count  says on standard error at the end how many lines have which key in
             the modes key, carry and locate, the least and the greatest, and
             which zone was read
    MODE     key      the line after the date-time and a tab; `! none` where it
                      has no date-time, `! doubt` where that is in doubt, `! year`
                      where the year is not written
             carry    the same, but a line without a date-time takes the key of
                      the line above
             replace  the line with the date-time in place of the found one
             locate   where the date-time of each line begins and ends, and by
                      which source, or why it is in doubt
             explain  the number of the source that reads all of the line, and
                      its answer, or each source's number and fault
    TARGET   the offset at which moments are written: +HH:MM, -HH:MM, Z or UTC;
             +00:00 where it is left out
    ASSUMED  the offset of lines that have none, or a zone, as Europe/Berlin or
             :CET, or - for none; none where it is left out
    LIMIT    how many bytes of a line are places at which its date-time may
             begin, 1 to 1048576; the greatest where it is left out
    year N   the year of the first date of lines that say none, in four digits,
             or one near it where lines say its last two
    time HH:MM
             the time of day of dates without one, 00:00 to 23:59
    field NAME
             the member of lines in JSON in whose value the date-time is looked
             for, and nowhere else
    column N
             the column of lines in which it is looked for, counted from 1
    separator S
             the byte between columns, or tab; a comma where it is left out
    label TEXT
             in the modes key and carry, what stands after the key and a tab,
             with a tab after it
    SOURCE   rfc3339, rfc2822, iso8601, or v1, v2, v3 or strftime with a
             description in the next argument, or a format by its name;
             several are tried in order

    instants-lines carry rfc3339 strftime '%d/%b/%Y:%H:%M:%S %z' < LOG

instants-lines --help     prints this
instants-lines --version  prints the version

The manual page instants-lines(1) and the guide, GUIDE.md, say more.

Formats by name, each a language and a description (FORMATS.md):";

/// The text that a word alone asks for.
pub(crate) fn text_for(word: &str) -> Option<&'static str>
    ensures asked { is_some result
        ≡ (bytes_eq word.now (codes "--help") || (bytes_eq word.now (codes "-h")
        || (bytes_eq word.now (codes "--version") || bytes_eq word.now (codes "-V")))) }
{
    match word {
        "--help" | "-h" => Some(HELP),
        "--version" | "-V" => Some(VERSION),
        _ => None,
    }
}
