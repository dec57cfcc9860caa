//! Zones by name: the files that hold their clocks, below a folder.
use crate::zone_names::{near, read_bytes, read_names, version};
use std::alloc::AllocError;
use std::fmt::{self, Display, Formatter};
use std::io::ErrorKind;
use std::path::PathBuf;
use std::{env, fs};
use zones::{FILE_LIMIT, Zone, ZoneFault, is_zone_name, read_zone};

// Where the files are, where TZDIR names no other folder.
const FOLDER: &str = "/usr/share/zoneinfo";

// One byte more than a zone's file may have.
const ROOM: usize = FILE_LIMIT + 1;

/// Why a zone is not there.
#[derive(Clone, Copy)]
enum Cause {
    /// There is no folder of zones.
    NoFolder,
    /// There is no file of this name.
    NoFile,
    /// It is no plain file.
    NotPlain,
    /// It can't be read.
    Device(ErrorKind),
    /// It holds no zone.
    Fault(ZoneFault),
    /// There is no memory.
    Memory,
}

impl From<AllocError> for Cause {
    fn from(_fault: AllocError) -> Self {
        Cause::Memory
    }
}

/// A zone of this name that is not there, below a folder, with the text of all names.
#[derive(Drop)]
pub struct NoZone<'a> {
    name: &'a str,
    folder: Option<PathBuf>,
    names: Option<String>,
    cause: Cause,
}

/// A zone that was read.
#[derive(Drop)]
pub struct NamedZone<'a> {
    /// Its clock.
    pub zone: Zone,
    name: &'a str,
    // How many bytes its file has.
    size: usize,
    names: Option<String>,
}

impl Display for NamedZone<'_> {
    fn fmt<F: fmt::Write>(&self, f: &mut Formatter<F>) -> fmt::Result {
        let (name, size) = (self.name, self.size);
        let version = self
            .names
            .as_ref()
            .and_then(|names| version(names.as_str()))
            .unwrap_or("unknown");
        write!(f, "zone {name}, tzdata {version}, {size} bytes")
    }
}

impl NoZone<'_> {
    // A name that is near, of those that are there.
    fn near(&self) -> Option<&str> {
        match &self.names {
            Some(names) => near(names.as_str(), self.name),
            None => None,
        }
    }

    /// The status to end with: 1 where memory or reading failed, else 2.
    pub fn status(&self) -> u8 {
        match self.cause {
            Cause::Device(_) | Cause::Memory => 1,
            _ => 2,
        }
    }
}

// What is wrong with a file that holds no zone.
fn said(fault: ZoneFault) -> &'static str {
    match fault {
        ZoneFault::Long => "it has more than 65536 bytes",
        ZoneFault::Header => "it does not begin as one",
        ZoneFault::Version => "its version is not known",
        ZoneFault::Length => "it is cut off",
        ZoneFault::LeapSeconds => "it counts leap seconds; take the zone without right/",
        ZoneFault::UnknownType => "a transition is to nothing that is there",
        ZoneFault::Offset => "an offset is 26 hours or more",
        ZoneFault::Order => "its transitions are not in order",
        ZoneFault::Footer => "the rule at its end can't be read",
        ZoneFault::Crossing => "by the rule at its end the years are not in order",
        ZoneFault::Disagrees => "the rule at its end is not as its last transition",
        ZoneFault::Memory => "there is no memory",
    }
}

impl Display for NoZone<'_> {
    fn fmt<F: fmt::Write>(&self, f: &mut Formatter<F>) -> fmt::Result {
        let name = self.name;
        let folder = match &self.folder {
            Some(folder) => folder.as_str(),
            None => FOLDER,
        };
        match self.cause {
            Cause::NoFolder => {
                write!(
                    f,
                    "no zone {name}: there is no folder {folder}; install tzdata, or set TZDIR"
                )
            }
            Cause::NoFile => {
                write!(f, "no zone {name} below {folder}")?;
                match self.near() {
                    Some(other) => write!(f, "; there is {other}"),
                    None => Ok(()),
                }
            }
            Cause::NotPlain => write!(f, "{folder}/{name} is no zone's file: it is no plain file"),
            Cause::Device(kind) => write!(f, "{folder}/{name}: {kind}"),
            Cause::Fault(fault) => {
                let said = said(fault);
                write!(f, "{folder}/{name} is no zone's file: {said}")
            }
            Cause::Memory => f.write_str("out of memory"),
        }
    }
}

// The folder of the zones.
fn folder(rt: &HostRuntime) -> Result<PathBuf, AllocError> {
    match env::var(rt, "TZDIR") {
        Ok(folder) if !folder.as_str().is_empty() => PathBuf::from_str(rt.alloc(), folder.as_str()),
        _ => PathBuf::from_str(rt.alloc(), FOLDER),
    }
}

// The zone in a file, of which so many bytes are read at most, and how many it has.
fn read_some(rt: &HostRuntime, path: &str, size: usize) -> Result<(Zone, usize), Cause> {
    let mut room = vec![in rt.alloc(); 0; size]?;
    let count = read_bytes(rt, path, room.as_mut_slice()).map_err(Cause::Device)?;
    match read_zone(rt.alloc(), &room.as_slice()[..count]) {
        Ok(zone) => Ok((zone, count)),
        Err(fault) => Err(Cause::Fault(fault)),
    }
}

// The zone in a file, and how many bytes it has. Only a plain file is opened, since another one may never end.
fn read_file(rt: &HostRuntime, path: &str) -> Result<(Zone, usize), Cause> {
    match fs::metadata(rt, path) {
        Ok(found) if found.is_file() => read_some(rt, path, ROOM),
        Ok(_) => Err(Cause::NotPlain),
        Err(_) => Err(Cause::NoFile),
    }
}

// The zone of a name below a folder.
fn read_below(rt: &HostRuntime, folder: &PathBuf, name: &str) -> Result<(Zone, usize), Cause> {
    match fs::metadata(rt, folder.as_str()) {
        Ok(found) if found.is_dir() => {}
        _ => return Err(Cause::NoFolder),
    }
    if !is_zone_name(name.as_bytes()) {
        return Err(Cause::NoFile);
    }
    let path = folder.as_path().join(rt.alloc(), name)?;
    read_file(rt, path.as_str())
}

/// The zone of a name. The text of all names is read where it is asked for, since it has the version, and where there is no zone.
pub fn read_named<'a>(
    rt: &HostRuntime,
    name: &'a str,
    asks_version: bool,
) -> Result<NamedZone<'a>, NoZone<'a>> {
    let Ok(folder) = folder(rt) else {
        return Err(NoZone {
            name,
            folder: None,
            names: None,
            cause: Cause::Memory,
        });
    };
    let found = read_below(rt, &folder, name);
    let names = if asks_version || found.is_err() {
        read_names(rt, &folder).ok()
    } else {
        None
    };
    match found {
        Ok((zone, size)) => Ok(NamedZone {
            zone,
            name,
            size,
            names,
        }),
        Err(cause) => Err(NoZone {
            name,
            folder: Some(folder),
            names,
            cause,
        }),
    }
}
