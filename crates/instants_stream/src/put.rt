//! An answer put into lent memory.
ghost use Rattle.std.specs.Prelude.{◌≡◌, ◌+◌, ◌-◌, ◌<◌, ◌≤◌, ◌++◌, length, take, drop, OnErr, IfOk};

/// The answers are longer than the room for them.
#[derive(Clone, Copy, Debug, PartialEq, Eq)]
pub struct TooLittleRoom;

// How many bytes an answer with a moment has that is shown in UTC, its line feed included.
const MOMENT: usize = 31;

// Puts bytes into the room, after as many as stand before the place.
#[inline(always)]
fn put_whole(room: &mut [u8], at: usize, bytes: &[u8])
    requires { at + length bytes.now ≤ length room.old }
    ensures prefix { take (at + length bytes.now) room.new ≡ take at room.old ++ bytes.now }
    ensures after { drop (at + length bytes.now) room.new
        ≡ drop (at + length bytes.now) room.old }
{
    room[at..at + bytes.len()].copy_from_slice(bytes);
}

// Puts the first bytes of a moment's answer into the room. The compiler knows their count: two loads and two stores.
#[inline(always)]
fn put_moment(room: &mut [u8], at: usize, bytes: &[u8; 64])
    requires { at + MOMENT ≤ length room.old }
    ensures prefix { take (at + MOMENT) room.new ≡ take at room.old ++ take MOMENT bytes.now }
    ensures after { drop (at + MOMENT) room.new ≡ drop (at + MOMENT) room.old }
{
    put_whole(room, at, &bytes[..MOMENT]);
}

// Fills the room after a place with the first of these bytes.
#[cold]
#[inline(never)]
fn fill(room: &mut [u8], at: usize, bytes: &[u8])
    requires within { at ≤ length room.old }
    requires less { length room.old < at + length bytes.now }
    ensures { room.new ≡ take at room.old ++ take (length room.old - at) bytes.now }
{
    let count = room.len() - at;
    room[at..].copy_from_slice(&bytes[..count]);
}

/// Puts an answer, the first of these bytes, into the room, after as many bytes as stand before the place, and tells where it
/// ends. Where there is too little room, it is filled with the beginning.
#[inline(always)]
pub(crate) fn put(
    room: &mut [u8],
    at: usize,
    answer: &[u8; 64],
    len: usize,
) -> Result<usize, TooLittleRoom>
    requires at { at ≤ length room.old }
    requires most { len ≤ 64 }
    ensures end { IfOk result (λ end. end ≡ at + length (take len answer.now)) }
    ensures within { IfOk result (λ end. end ≤ length room.old) }
    ensures prefix { IfOk result (λ end. take end room.new ≡ take at room.old ++ take len answer.now) }
    ensures after { IfOk result (λ end. drop end room.new ≡ drop end room.old) }
    ensures less { OnErr result (length room.old < at + length (take len answer.now)) }
    ensures full { OnErr result
        (room.new ≡ take at room.old ++ take (length room.old - at) (take len answer.now)) }
{
    if room.len() - at < len {
        fill(room, at, &answer[..len]);
        return Err(TooLittleRoom);
    }
    if len == MOMENT {
        put_moment(room, at, answer);
    } else {
        put_whole(room, at, &answer[..len]);
    }
    Ok(at + len)
}
