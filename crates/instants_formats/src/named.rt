//! The formats, and one of them by its name.
ghost use Rattle.std.specs.Prelude.{◌≡◌, map, option_map};
ghost use Rattle.std.specs.List.{find};
ghost use Rattle.std.specs.Str.{bytes_eq};
ghost use Rattle.instants_formats.specs.Format.{format_said};
ghost use Rattle.instants_formats.specs.Named.{named_format};
ghost use Rattle.instants_formats.specs.Table.{table};

use crate::format::Format;
use crate::table::FORMATS;

/// All formats that have a name, the more exact ones before others that read a part of the same text.
pub fn formats() -> &'static [Format]
    ensures { map format_said result.now ≡ table }
{
    &FORMATS
}

// The first of formats with this name.
fn first_named<'a>(formats: &'a [Format], name: &str) -> Option<&'a Format>
    ensures { option_map (λ format. format.now) result
        ≡ find (λ format. bytes_eq format.name.now name.now) formats.now }
{
    formats.iter().find(|format| format.name == name)
}

/// The format of this name.
pub fn format_named(name: &str) -> Option<&'static Format>
    ensures { option_map (λ format. format_said format.now) result ≡ named_format name.now }
{
    first_named(formats(), name)
}
