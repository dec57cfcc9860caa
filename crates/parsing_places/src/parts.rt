//! The minutes of an offset.
ghost use Rattle.std.specs.Prelude.{◌≡◌, ◌≤◌, ◌<◌, ◌+◌, ◌*◌, ◌*ℤ◌, ℕ, pos, unsigned_abs, Ok};
ghost use Rattle.parsing_values.specs.Resolution.{signed_offset_of};

/// The minutes of an offset under its sign.
#[tactic(auto, unfolding(parsing_values::specs::Resolution::signed_offset_of, calendar_clock::specs::UtcOffset::offset_of))]
#[inline(always)]
pub fn signed(minutes: u32, is_negative: bool) -> i16
    requires { minutes < 1440 }
    ensures value { (hour minute : ℕ) → minutes ≡ 60 * hour + minute → hour ≤ 23 → minute ≤ 59
        → signed_offset_of is_negative hour minute ≡ Ok (pos 60 *ℤ result) }
    ensures bound { unsigned_abs result ≤ 1559 }
{
    let minutes = minutes as i16;
    if is_negative { -minutes } else { minutes }
}
