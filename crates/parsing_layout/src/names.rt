//! Names of three letters at places of a text, each looked up at once with the byte beside it.
ghost use Rattle.std.specs.Prelude.{◌≡◌, ◌≤◌, ◌+◌, ◌%◌, Some, IfSome, take, drop, length, true, option_map};
ghost use Rattle.calendar_count.specs.Month as Month;
ghost use Rattle.parsing_combinator.specs.Names.{named, short_months, short_weekdays};
ghost use Rattle.parsing_layout.specs.Layout as Layout;
ghost use Rattle.parsing_layout.specs.Layout.{name_piece};
ghost use Rattle.parsing_layout.specs.Letters.{letters_of};
ghost use Rattle.parsing_layout.specs.declared.parts.Names.TheVariants as names;

use std::simd::prelude::*;

// `Oct`, `Feb`, `Dec`, `Jul`, `Nov`, `Jan`, `Jun`, `May`, `Sep`, `Aug`, `Mar`, `Apr`, in one number each, the first letter
// lowest, after the number of its month. The highest bits of a product of the letters say where in the table they would
// stand, so that no jump depends on the month.
static MONTHS: [u32; 16] = [
    0,
    0x7463_4f0a,
    0x6265_4602,
    0,
    0x6365_440c,
    0x6c75_4a07,
    0x766f_4e0b,
    0x6e61_4a01,
    0x6e75_4a06,
    0,
    0x7961_4d05,
    0x7065_5309,
    0x6775_4108,
    0,
    0x7261_4d03,
    0x7270_4104,
];

// `Fri`, `Tue`, `Sat`, `Mon`, `Sun`, `Wed`, `Thu`, with nothing before them; the last entry is none.
static WEEKDAYS: [u32; 8] = [
    0x6972_4600,
    0x6575_5400,
    0x7461_5300,
    0x6e6f_4d00,
    0x6e75_5300,
    0x6465_5700,
    0x7568_5400,
    1,
];

// The numbers of these weekdays, at the same places, and one for none.
static NUMBERS: [u8; 8] = [5, 2, 6, 1, 7, 3, 4, 1];

// The three letters at a place in one number, the first one lowest, after a byte of zero.
#[inline(always)]
fn letters_at(text: &[u8], place: usize) -> u32
    requires { place + 4 ≤ length text.now }
    ensures zero { result % 256 ≡ 0 }
    ensures letters { letters_of result ≡ take 3 (drop place text.now) }
{
    let four = u8x4::from_slice(&text[place..]).to_array();
    u32::from_le_bytes(four).wrapping_mul(256)
}

// The number of the month that has these letters.
#[inline(always)]
fn month_number(word: u32) -> Option<u8>
    requires { word % 256 ≡ 0 }
    ensures named { IfSome result
        (λ n. option_map Month.month_number (named true short_months (letters_of word)) ≡ Some n) }
    ensures bound { IfSome result (λ n. (1 ≤ n) × (n ≤ 12)) }
{
    let place = word.wrapping_mul(0x11c) >> 28;
    let number = MONTHS[place as usize].wrapping_sub(word);
    if number < 1 || number > 12 {
        return None;
    }
    Some(number as u8)
}

// The number of the weekday that has these letters.
#[inline(always)]
fn weekday_number(word: u32) -> Option<u8>
    requires { word % 256 ≡ 0 }
    ensures named { IfSome result
        (λ n. option_map Layout.weekday_number (named true short_weekdays (letters_of word)) ≡ Some n) }
    ensures bound { IfSome result (λ n. (1 ≤ n) × (n ≤ 7)) }
{
    let place = word.wrapping_mul(0x7c) >> 29;
    if WEEKDAYS[place as usize] != word {
        return None;
    }
    Some(NUMBERS[place as usize])
}

/// The number of the month whose short name is at a place, as it is written.
#[inline(always)]
#[tactic(auto, using(crate::proofs::NameLemmas::month_at))]
pub fn month_name_at(text: &[u8], place: usize) -> Option<u8>
    requires { place + 4 ≤ length text.now }
    ensures says { IfSome result (λ n. name_piece names.ShortMonth true (drop place text.now)
        ≡ Some (n, drop (place + 3) text.now)) }
    ensures bound { IfSome result (λ n. (1 ≤ n) × (n ≤ 12)) }
{
    let number = month_number(letters_at(text, place))?;
    Some(number)
}

/// The number of the weekday whose short name is at a place, as it is written: 1 is Monday.
#[inline(always)]
#[tactic(auto, using(crate::proofs::NameLemmas::weekday_at))]
pub fn weekday_name_at(text: &[u8], place: usize) -> Option<u8>
    requires { place + 4 ≤ length text.now }
    ensures says { IfSome result (λ n. name_piece names.ShortWeekday true (drop place text.now)
        ≡ Some (n, drop (place + 3) text.now)) }
    ensures bound { IfSome result (λ n. (1 ≤ n) × (n ≤ 7)) }
{
    let number = weekday_number(letters_at(text, place))?;
    Some(number)
}
