//! What follows a fraction of any number of digits, taken by a window over the end of a text.
ghost use Rattle.std.specs.Prelude.{◌≡◌, ◌≤◌, ◌<◌, ◌+◌, true, IfSome};
ghost use Rattle.parsing_layout.specs.Layout.{length_of};
ghost use Rattle.parsing_shapes.specs.End.{begins_apart, end_of, fits_end, is_end_bounded, spares_clock};
ghost use Rattle.parsing_shapes.specs.Shape.{takes_all, takes_part};

use crate::fits::{is_offset_bounded, spares_from, takes_part};
use crate::made::{Made, width};
use crate::taker::Taker;
use parsing_layout::Part;
use parsing_places::{LANES, LastBytes, Moves, Window, Windows};

// Whether no digit can be the first byte.
fn begins_apart(parts: &[Part]) -> bool
    ensures { result ≡ begins_apart parts.now }
{
    match parts {
        [] => true,
        [Part::Byte(byte), ..] => !byte.is_ascii_digit(),
        [Part::Sign, ..] => true,
        _ => false,
    }
}

// What takes the end of a text: sixteen bytes, as two windows of which the first takes nothing.
fn end_of(window: &Window) -> Taker
    ensures { result ≡ end_of window.now }
{
    let prefix = Window {
        low: window.low,
        high: window.high,
        taken: Moves {
            lanes: [128; LANES],
        },
    };
    let windows = Windows {
        prefix,
        back: *window,
        back_at: 0,
    };
    Taker {
        windows,
        has_clock: false,
        has_offset: true,
        length: LANES,
        year: None,
    }
}

// Whether it takes parts that begin at a place and end where it does.
fn take_end(taker: &Taker, parts: &[Part], place: usize) -> bool
    ensures all { result ≡ true → takes_all (takes_part taker.now) parts.now place ≡ true }
    ensures end { result ≡ true → place + length_of parts.now ≡ LANES }
{
    let [part, others @ ..] = parts else {
        return place == LANES;
    };
    let width = width(*part);
    if place >= LANES || width > LANES {
        return false;
    }
    takes_part(taker, *part, place) && take_end(taker, others, place + width)
}

/// The last bytes of texts that end with parts after a fraction, with an offset among them or without one: `None` where they are
/// more than sixteen, where a digit can be the first one, or where a part is not known.
pub fn last_bytes_of(parts: &[Part], has_offset: bool) -> Option<LastBytes>
    ensures fits { IfSome result (λ last. fits_end last.window parts.now ≡ true) }
    ensures length { IfSome result (λ last. last.length ≡ length_of parts.now) }
    ensures apart { IfSome result (λ _. begins_apart parts.now ≡ true) }
    ensures clock { IfSome result (λ last. spares_clock last.window ≡ true) }
    ensures offset { IfSome result (λ last. is_end_bounded last.window has_offset ≡ true) }
{
    let made = Made::of(parts);
    let window = made.last_window()?;
    let last = LastBytes::of(window, made.length)?;
    let taker = end_of(&last.window);
    if !begins_apart(parts) || !take_end(&taker, parts, LANES - last.length) {
        return None;
    }
    let windows = &taker.windows;
    if !spares_from(windows, 0, 8) || !spares_from(windows, 14, 2) {
        return None;
    }
    if !is_offset_bounded(windows, !has_offset) {
        return None;
    }
    Some(last)
}
