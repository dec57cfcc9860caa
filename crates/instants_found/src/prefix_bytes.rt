//! The key of a description, by the bytes that can stand at the first four places of its dates.
ghost use Rattle.std.specs.Prelude.{◌≤◌, IfSome};
ghost use Rattle.instants_found.specs.Keys.{IsKeyOf};

use crate::key::Key;
use parsing_item_layouts::FirstBytes;

// The only byte that can stand at a place, if there is one.
fn only_byte(first_bytes: &FirstBytes, place: usize) -> Option<u8>
    ensures { IfSome result
        (λ byte. IsKeyOf first_bytes.now (record { place = place; byte = byte })) }
{
    let mut only = None;
    for byte in 0..256usize {
        if first_bytes.can_stand(place, byte as u8) {
            if only.is_some() {
                return None;
            }
            only = Some(byte as u8);
        }
    }
    only
}

/// The key of a description with these first bytes, if one is found.
pub(crate) fn key_of_first_bytes(first_bytes: &FirstBytes) -> Option<Key>
    ensures near { IfSome result (λ key. key.place ≤ 4) }
    ensures key { IfSome result (IsKeyOf first_bytes.now) }
{
    for place in 0..4usize {
        if let Some(byte) = only_byte(first_bytes, place) {
            return Some(Key { place, byte });
        }
    }
    None
}
