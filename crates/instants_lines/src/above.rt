//! What lines take of those above them.

/// What lines take of those above them in mode `carry`: nothing, where all is 0.
#[repr(C)]
#[derive(Clone, Copy)]
pub struct Above {
    /// How deep the last line with a date begins, where one is above.
    pub indent: usize,
    /// 0 at the beginning, 1 below lines without a date, 2 below a line with one.
    pub state: u32,
    /// How many bytes the key has, at most 63.
    pub len: u32,
    /// The key that a line without a date takes.
    pub key: [u8; 64],
}
