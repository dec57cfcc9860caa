//! Minutes of the day, and offsets in minutes.
ghost use Rattle.std.specs.Prelude.{◌≡◌, ◌+◌, ◌*◌, ◌≤◌, ◌↔◌, IsSome, IfSome, Ok, pos, ◌*ℤ◌, unsigned_abs};
ghost use Rattle.parsing_values.specs.Resolution.{signed_offset_of};

/// The minute of the day of an hour below 24 and a minute below 60.
#[inline(always)]
pub fn minute_of_day(hour: u8, minute: u8) -> Option<u16>
    ensures some { IsSome result ↔ ((hour ≤ 23) × (minute ≤ 59)) }
    ensures value { IfSome result (λ m. m ≡ hour * 60 + minute) }
{
    if hour > 23 || minute > 59 {
        return None;
    }
    Some(u16::from(hour) * 60 + u16::from(minute))
}

/// The minutes of an offset of hours and minutes under one sign.
#[tactic(auto, using(std::proofs::lemmas::Int::ints, crate::proofs::OffsetMinutes::offset_ahead))]
#[inline(always)]
pub fn offset_minutes(is_negative: bool, hours: u8, minutes: u8) -> i16
    requires hours { hours ≤ 25 }
    requires minutes { minutes ≤ 59 }
    ensures value { signed_offset_of is_negative hours minutes ≡ Ok (pos 60 *ℤ result) }
    ensures bound { unsigned_abs result ≤ 1559 }
{
    let length = i16::from(hours) * 60 + i16::from(minutes);
    if is_negative { -length } else { length }
}
