//! The names of all zones, and the version of their data, in the file `tzdata.zi` below their folder.
ghost use Rattle.std.specs.Prelude.{◌≡◌, ◌≤◌, length, IfOk};

use std::alloc::AllocError;
use std::fs;
use std::io::{ErrorKind, Read};
use std::path::PathBuf;

// The file has some 100 KiB.
const ROOM: usize = 1_048_576;

// So many letters at the beginning are alike where a name is near.
const LEAST: usize = 3;

/// The first bytes of a file, as far as there is room.
pub(crate) fn read_bytes(rt: &HostRuntime, path: &str, room: &mut [u8]) -> Result<usize, ErrorKind>
    ensures count { IfOk result (λ count. count ≤ length room.new) }
    ensures len { length room.new ≡ length room.old }
{
    let mut file = fs::open(rt, path).map_err(|fault| fault.kind())?;
    let mut count = 0;
    while count < room.len() {
        let more = file.read(&mut room[count..]).map_err(|fault| fault.kind())?;
        if more == 0 {
            break;
        }
        count += more;
    }
    Ok(count)
}

/// The text of the file below a folder: empty where there is none.
pub fn read_names(rt: &HostRuntime, folder: &PathBuf) -> Result<String, AllocError> {
    let path = folder.as_path().join(rt.alloc(), "tzdata.zi")?;
    read_text(rt, path.as_str(), ROOM)
}

// The text of a file, of which so many bytes are read at most: empty where it can't be read.
fn read_text(rt: &HostRuntime, path: &str, size: usize) -> Result<String, AllocError> {
    let mut room = vec![in rt.alloc(); 0; size]?;
    let count = read_bytes(rt, path, room.as_mut_slice()).unwrap_or(0);
    let text = str::from_utf8(&room.as_slice()[..count]).unwrap_or("");
    String::from_str(rt.alloc(), text)
}

/// The version of the data, as `2025b`, by the first line, `# version 2025b`.
pub fn version(text: &str) -> Option<&str> {
    text.lines().next()?.strip_prefix("# version ")
}

// The name of a zone that a line has: `Z NAME ..`, or `L NAME OTHER` for another name of a zone.
fn name_in(line: &str) -> Option<&str> {
    let mut words = line.split(' ');
    match words.next()? {
        "Z" => words.next(),
        "L" => words.nth(1),
        _ => None,
    }
}

// How many bytes at the beginning of two names are alike, in either case.
fn count_alike(one: &str, other: &str) -> usize {
    let pairs = one.as_bytes().iter().zip(other.as_bytes().iter());
    pairs
        .take_while(|pair| pair.0.eq_ignore_ascii_case(pair.1))
        .count()
}

// What stands after the last slash of a name.
fn last_part(name: &str) -> &str {
    match name.rsplit_once('/') {
        Some((_, part)) => part,
        None => name,
    }
}

// How near a name is to another one: how much of it, or of its last part, is alike.
fn nearness(name: &str, wanted: &str) -> usize {
    let parts = count_alike(last_part(name), last_part(wanted));
    count_alike(name, wanted).max(parts)
}

/// The name that is nearest to another one, if one is near.
pub fn near<'a>(text: &'a str, wanted: &str) -> Option<&'a str> {
    let mut best = None;
    let mut most = LEAST;
    for line in text.lines() {
        if let Some(name) = name_in(line) {
            let alike = nearness(name, wanted);
            if alike > most {
                best = Some(name);
                most = alike;
            }
        }
    }
    best
}
