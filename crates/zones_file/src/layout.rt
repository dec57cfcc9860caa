//! Where the parts of a file lie, and what is wrong with its headers.
ghost use Rattle.std.specs.Prelude.{◌≡◌, ◌+◌, ◌^◌, ◌<◌, ◌≤◌, length, IfOk, OnOk};
ghost use Rattle.std.specs.Result.{result_err};
ghost use Rattle.zones_file.specs.Layout.{has_magic, counts_at, layout_of, time_size, data_place, data_layout, IsTimeSize, IsLaidOut};
ghost use Rattle.zones_file.specs.Faults.{header_fault, version_fault, start_fault, counts_fault, block_fault, layout_fault};

use crate::bytes::count_at;
use crate::fault::ZoneFault;

/// The most bytes that a file may have.
pub const FILE_LIMIT: usize = 65_536;

/// How many bytes a header has.
const HEADER: usize = 44;

/// The counts of a header, in the order in which they stand.
#[derive(Clone, Copy)]
pub(crate) struct Counts {
    pub(crate) ut_flags: u32,
    pub(crate) standard_flags: u32,
    pub(crate) leap_seconds: u32,
    pub(crate) steps: u32,
    pub(crate) types: u32,
    pub(crate) letters: u32,
}

/// How many bytes an instant has, where the parts of a block begin, how many items each has, and where the block ends.
#[derive(Clone, Copy)]
pub(crate) struct Layout {
    pub(crate) time_size: usize,
    pub(crate) times: usize,
    pub(crate) step_count: usize,
    pub(crate) indexes: usize,
    pub(crate) types: usize,
    pub(crate) type_count: usize,
    pub(crate) letters: usize,
    pub(crate) letter_count: usize,
    pub(crate) end: usize,
}

// Whether the first bytes of a header are there.
fn has_magic(bytes: &[u8], place: usize) -> bool
    requires { place + 44 ≤ length bytes.now }
    ensures { result ≡ has_magic bytes.now place }
{
    bytes[place..].starts_with(b"TZif")
}

// The counts of a header.
fn counts_at(bytes: &[u8], place: usize) -> Counts
    requires { place + 44 ≤ length bytes.now }
    ensures { result ≡ counts_at bytes.now place }
{
    Counts {
        ut_flags: count_at(bytes, place + 20),
        standard_flags: count_at(bytes, place + 24),
        leap_seconds: count_at(bytes, place + 28),
        steps: count_at(bytes, place + 32),
        types: count_at(bytes, place + 36),
        letters: count_at(bytes, place + 40),
    }
}

// The layout that the counts of a header at a place announce.
fn layout_of(counts: Counts, place: usize, time_size: usize) -> Layout
    requires size { IsTimeSize time_size }
    requires place { place ≤ 65536 }
    ensures { result ≡ layout_of counts place time_size }
{
    let times = place + HEADER;
    let indexes = times + counts.steps as usize * time_size;
    let types = indexes + counts.steps as usize;
    let letters = types + counts.types as usize * 6;
    let leap_seconds = letters + counts.letters as usize;
    let flags = leap_seconds + counts.leap_seconds as usize * (time_size + 4);
    Layout {
        time_size,
        times,
        step_count: counts.steps as usize,
        indexes,
        types,
        type_count: counts.types as usize,
        letters,
        letter_count: counts.letters as usize,
        end: flags + counts.standard_flags as usize + counts.ut_flags as usize,
    }
}

// Whether a header begins at a place.
#[tactic(auto, unfolding(crate::specs::Faults::header_fault))]
fn check_header(bytes: &[u8], place: usize) -> Result<(), ZoneFault>
    requires { place ≤ 2 ^ 48 }
    ensures fault { result_err result ≡ header_fault bytes.now place }
    ensures whole { OnOk result (place + 44 ≤ length bytes.now) }
{
    if bytes.len() < place + HEADER {
        return Err(ZoneFault::Length);
    }
    if !has_magic(bytes, place) {
        return Err(ZoneFault::Header);
    }
    Ok(())
}

// Whether the version is known.
#[tactic(auto, unfolding(crate::specs::Faults::version_fault))]
fn check_version(bytes: &[u8]) -> Result<(), ZoneFault>
    requires { 44 ≤ length bytes.now }
    ensures { result_err result ≡ version_fault bytes.now }
{
    match bytes[4] {
        0 | b'2'..=b'4' => Ok(()),
        _ => Err(ZoneFault::Version),
    }
}

// Whether a header's counts can stand together.
#[tactic(auto, unfolding(crate::specs::Faults::counts_fault))]
fn check_counts(counts: Counts) -> Result<(), ZoneFault>
    ensures fault { result_err result ≡ counts_fault counts }
    ensures types { OnOk result (0 < counts.types) }
    ensures letters { OnOk result (0 < counts.letters) }
{
    if counts.leap_seconds > 0 {
        return Err(ZoneFault::LeapSeconds);
    }
    if counts.types == 0 || counts.letters == 0 {
        return Err(ZoneFault::Header);
    }
    if counts.ut_flags > 0 && counts.ut_flags != counts.types {
        return Err(ZoneFault::Header);
    }
    if counts.standard_flags > 0 && counts.standard_flags != counts.types {
        return Err(ZoneFault::Header);
    }
    Ok(())
}

// Where the header stands that counts, and how many bytes an instant has after it.
#[tactic(auto, unfolding(crate::specs::Faults::start_fault))]
fn find_data(bytes: &[u8]) -> Result<(usize, usize), ZoneFault>
    ensures place { IfOk result (λ found. found ≡ (data_place bytes.now, time_size bytes.now)) }
    ensures fault { result_err result ≡ start_fault bytes.now }
    ensures whole { IfOk result (λ found. found.0 + 44 ≤ length bytes.now) }
    ensures short { OnOk result (length bytes.now ≤ 65536) }
{
    if bytes.len() > FILE_LIMIT {
        return Err(ZoneFault::Long);
    }
    check_header(bytes, 0)?;
    check_version(bytes)?;
    if bytes[4] == 0 {
        return Ok((0, 4));
    }
    let place = layout_of(counts_at(bytes, 0), 0, 4).end;
    check_header(bytes, place)?;
    Ok((place, 8))
}

// The layout of the block that counts.
#[tactic(auto, unfolding(crate::specs::Faults::layout_fault, crate::specs::Layout::data_layout))]
pub(crate) fn read_layout(bytes: &[u8]) -> Result<Layout, ZoneFault>
    ensures layout { IfOk result (λ layout. layout ≡ data_layout bytes.now) }
    ensures fault { result_err result ≡ layout_fault bytes.now }
    ensures laid { IfOk result (λ layout. IsLaidOut layout (length bytes.now)) }
{
    let (place, time_size) = find_data(bytes)?;
    let counts = counts_at(bytes, place);
    check_counts(counts)?;
    let layout = layout_of(counts, place, time_size);
    check_block(bytes, layout)?;
    Ok(layout)
}

// Whether a block is there, and its letters end with a 0.
#[tactic(auto, unfolding(crate::specs::Faults::block_fault))]
fn check_block(bytes: &[u8], layout: Layout) -> Result<(), ZoneFault>
    requires letters { 0 < layout.letter_count }
    requires within { layout.letters + layout.letter_count ≤ layout.end }
    ensures fault { result_err result ≡ block_fault bytes.now layout }
    ensures whole { OnOk result (layout.end ≤ length bytes.now) }
{
    if layout.end > bytes.len() {
        return Err(ZoneFault::Length);
    }
    if bytes[layout.letters + layout.letter_count - 1] != 0 {
        return Err(ZoneFault::Header);
    }
    Ok(())
}
