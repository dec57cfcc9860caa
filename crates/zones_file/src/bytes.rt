//! Numbers in a file, with their most significant byte first.
ghost use Rattle.std.specs.Prelude.{◌≡◌, ◌+◌, ◌≤◌, length};
ghost use Rattle.zones_file.specs.Bytes.{be_u32, be_i32, be_i64};

/// A count of four bytes.
pub(crate) fn count_at(bytes: &[u8], place: usize) -> u32
    requires { place + 4 ≤ length bytes.now }
    ensures { result ≡ be_u32 bytes.now place }
{
    let b = &bytes[place..place + 4];
    u32::from_be_bytes([b[0], b[1], b[2], b[3]])
}

/// A signed number of four bytes.
pub(crate) fn int_at(bytes: &[u8], place: usize) -> i32
    requires { place + 4 ≤ length bytes.now }
    ensures { result ≡ be_i32 bytes.now place }
{
    count_at(bytes, place).cast_signed()
}

/// A signed number of eight bytes.
pub(crate) fn long_at(bytes: &[u8], place: usize) -> i64
    requires { place + 8 ≤ length bytes.now }
    ensures { result ≡ be_i64 bytes.now place }
{
    let b = &bytes[place..place + 8];
    i64::from_be_bytes([b[0], b[1], b[2], b[3], b[4], b[5], b[6], b[7]])
}
