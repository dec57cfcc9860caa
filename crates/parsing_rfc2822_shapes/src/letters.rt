//! The names of weekdays and months in any case, each looked up at once with the byte beside it.
//!
//! Four bytes stand in one number, the first one lowest, and the highest bits of a product of that number say where it
//! would stand in a table. No other byte becomes a letter by the bit of small letters.
ghost use Rattle.std.specs.Prelude.{◌≡◌, ◌≤◌, IfSome, true, length};
ghost use Rattle.std.specs.Int.{IsInRange};
ghost use Rattle.parsing_rfc2822_shapes.specs.Names.{HasWeekday, HasMonth, number_of_four};

// The first four bytes.
#[inline(always)]
fn four_bytes(text: &[u8]) -> u32
    requires { 4 ≤ length text.now }
    ensures { result ≡ number_of_four text.now }
{
    u32::from_le_bytes([text[0], text[1], text[2], text[3]])
}

// `sun,`, `sat,`, `thu,`, `wed,`, `tue,`, `fri,`, `mon,`.
static WEEKDAYS: [u32; 8] = [
    0x2c6e_7573,
    0x2c74_6173,
    0x2c75_6874,
    0,
    0x2c64_6577,
    0x2c65_7574,
    0x2c69_7266,
    0x2c6e_6f6d,
];

/// Whether a weekday, a comma and a space stand at the start.
#[inline(always)]
pub(crate) fn has_weekday(text: &[u8]) -> bool
    requires { 5 ≤ length text.now }
    ensures { result ≡ true → HasWeekday text.now }
{
    let word = four_bytes(text) | 0x0020_2020;
    let place = word.wrapping_mul(0x9a2) >> 29;
    if WEEKDAYS[place as usize] != word || text[4] != b' ' {
        return false;
    }
    true
}

// ` oct`, ` feb`, ` dec`, ` jul`, ` nov`, ` jan`, ` jun`, ` may`, ` sep`, ` aug`, ` mar`, ` apr`.
static MONTHS: [u32; 16] = [
    0,
    0x7463_6f20,
    0x6265_6620,
    0,
    0x6365_6420,
    0x6c75_6a20,
    0x766f_6e20,
    0x6e61_6a20,
    0x6e75_6a20,
    0,
    0x7961_6d20,
    0x7065_7320,
    0x6775_6120,
    0,
    0x7261_6d20,
    0x7270_6120,
];

// The numbers of these months, at the same places.
static NUMBERS: [u8; 16] = [0, 10, 2, 0, 12, 7, 11, 1, 6, 0, 5, 9, 8, 0, 3, 4];

/// The number of the month that stands after a space.
#[inline(always)]
pub(crate) fn month_number(text: &[u8]) -> Option<u8>
    requires { 4 ≤ length text.now }
    ensures there { IfSome result (HasMonth text.now) }
    ensures bound { IfSome result (IsInRange 1 12) }
{
    let word = four_bytes(text) | 0x2020_2000;
    let place = word.wrapping_mul(0x11c) >> 28;
    if MONTHS[place as usize] != word {
        return None;
    }
    Some(NUMBERS[place as usize])
}
