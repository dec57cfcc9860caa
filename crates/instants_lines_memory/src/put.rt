//! Texts put into lent memory, one after another.
ghost use Rattle.std.specs.Prelude.{◌≡◌, ◌<◌, ◌≤◌, ◌+◌, [], ◌∷◌, ◌++◌, length, option_map, IfOk, OnErr};
ghost use Rattle.base.specs.Bytes.{line_feed};
ghost use Rattle.instants_lines.specs.Going.{label_prefix};
ghost use Rattle.instants_lines_memory.specs.Put.{IsFull, IsPut};

use instants_answers::Answer;
use instants_stream::TooLittleRoom;

// Puts bytes into the room, after as many as stand before the place, where there is room for them.
#[inline(always)]
fn put_whole(room: &mut [u8], at: usize, bytes: &[u8])
    requires { at + length bytes.now ≤ length room.old }
    ensures { IsPut room.old at bytes.now (at + length bytes.now) room.new }
{
    room[at..at + bytes.len()].copy_from_slice(bytes);
}

// Fills the room after a place with the first of these bytes.
#[cold]
#[inline(never)]
fn fill(room: &mut [u8], at: usize, bytes: &[u8])
    requires within { at ≤ length room.old }
    requires less { length room.old < at + length bytes.now }
    ensures { IsFull room.old at bytes.now room.new }
{
    let count = room.len() - at;
    room[at..].copy_from_slice(&bytes[..count]);
}

// Puts bytes into the room, after as many as stand before the place, and tells where they end.
#[inline(always)]
fn put(room: &mut [u8], at: usize, bytes: &[u8]) -> Result<usize, TooLittleRoom>
    requires { at ≤ length room.old }
    ensures put { IfOk result (λ end. IsPut room.old at bytes.now end room.new) }
    ensures full { OnErr result (IsFull room.old at bytes.now room.new) }
{
    if room.len() - at < bytes.len() {
        fill(room, at, bytes);
        return Err(TooLittleRoom);
    }
    put_whole(room, at, bytes);
    Ok(at + bytes.len())
}

// Puts two texts.
#[inline(always)]
#[tactic(auto, using(crate::proofs::Puts::in_turn))]
fn put_both(room: &mut [u8], at: usize, first: &[u8], second: &[u8]) -> Result<usize, TooLittleRoom>
    requires { at ≤ length room.old }
    ensures put { IfOk result (λ end. IsPut room.old at (first.now ++ second.now) end room.new) }
    ensures full { OnErr result (IsFull room.old at (first.now ++ second.now) room.new) }
{
    let Ok(middle) = put(room, at, first) else {
        return Err(TooLittleRoom);
    };
    put(room, middle, second)
}

// Puts a label and a tab, where there is one, and a line and a line feed.
#[inline(always)]
#[tactic(auto, using(crate::proofs::Puts::in_turn))]
fn put_labelled(
    room: &mut [u8],
    at: usize,
    label: Option<&str>,
    line: &[u8],
) -> Result<usize, TooLittleRoom>
    requires { at ≤ length room.old }
    ensures put { IfOk result (λ end. IsPut room.old at
        (label_prefix (option_map (λ text. text.now) label.entry) ++ (line.now ++ line_feed ∷ [])) end room.new) }
    ensures full { OnErr result (IsFull room.old at
        (label_prefix (option_map (λ text. text.now) label.entry) ++ (line.now ++ line_feed ∷ [])) room.new) }
{
    let Some(text) = label else {
        return put_both(room, at, line, b"\n");
    };
    let Ok(middle) = put_both(room, at, text.as_bytes(), b"\t") else {
        return Err(TooLittleRoom);
    };
    put_both(room, middle, line, b"\n")
}

/// Puts a key with its tab, and a line after its label, with a line feed.
#[inline(always)]
#[tactic(auto, using(crate::proofs::Puts::in_turn))]
pub(crate) fn put_keyed(
    room: &mut [u8],
    at: usize,
    key: &Answer,
    label: Option<&str>,
    line: &[u8],
) -> Result<usize, TooLittleRoom>
    requires { at ≤ length room.old }
    ensures put { IfOk result (λ end. IsPut room.old at
        (key.now ++ (label_prefix (option_map (λ text. text.now) label.entry) ++ (line.now ++ line_feed ∷ []))) end room.new) }
    ensures full { OnErr result (IsFull room.old at
        (key.now ++ (label_prefix (option_map (λ text. text.now) label.entry) ++ (line.now ++ line_feed ∷ []))) room.new) }
{
    let Ok(middle) = put(room, at, key.as_bytes()) else {
        return Err(TooLittleRoom);
    };
    put_labelled(room, middle, label, line)
}
