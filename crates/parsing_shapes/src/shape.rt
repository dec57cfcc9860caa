//! Where lanes take the parts of a layout.
ghost use Rattle.std.specs.Prelude.{◌≡◌, ◌≤◌, ◌<◌, ◌+◌, true};
ghost use Rattle.parsing_places.specs.Windows.{lets_year, are_bounded};

use parsing_places::Windows;

/// Two windows over the start of a text, and where its year stands, which lanes don't take.
///
/// Their lanes take two digits each, in this order: month, day, hour, minute, an offset's hour and minute, its sign, and the
/// second.
#[derive(Clone, Copy)]
pub struct Shape {
    pub windows: Windows,
    /// How many bytes the parts have.
    pub length: usize,
    /// Whether an offset follows the parts, after a fraction or none: the lanes for an offset are left to it.
    pub has_tail: bool,
    /// Where the four digits of the year stand.
    pub year: usize,
    ghost within: { 0 < windows.back_at → windows.back_at + 16 ≤ length },
    ghost year_is: { lets_year windows length year ≡ true },
    ghost bounded: { are_bounded windows has_tail ≡ true },
}
