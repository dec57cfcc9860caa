//! Quotients by constants: each is a product and a shift, exact below the bound that is required.
ghost use Rattle.std.specs.Prelude.{◌≡◌, ◌+◌, ◌*◌, ◌/◌, ◌%◌, ◌<◌, ◌^◌};
ghost use Rattle.calendar_count.specs.March.{march_days};
ghost use Rattle.std.specs.Int.{IsInRange};

/// The centuries of the first days, where the days of each 400 years are 146,097.
#[inline(always)]
pub fn centuries(days: u64) -> u64
    requires { days < 2 ^ 30 }
    ensures { result ≡ (4 * days + 3) / 146_097 }
{
    ((4 * days + 3) * 963_315_389) >> 47
}

/// The quotient and the remainder by the 1,461 days of four years.
#[inline(always)]
pub fn four_years(days: u64) -> (u64, u64)
    requires { days < 2 ^ 32 }
    ensures quotient { result.0 ≡ days / 1461 }
    ensures remainder { result.1 ≡ days % 1461 }
{
    let product = days * 376_287_347;
    (product >> 39, ((product & 0x7f_ffff_ffff) * 1461) >> 39)
}

/// The month of a year that begins on 1 March, 3 for March to 14 for February, and the days of it
/// that have passed.
#[inline(always)]
pub fn month_from_march(day: u64) -> (u64, u64)
    requires { day < 366 }
    ensures value { march_days result.0 + result.1 ≡ day }
    ensures within { day < march_days (result.0 + 1) }
    ensures month { IsInRange 3 14 result.0 }
{
    let scaled = 2141 * day + 197_913;
    (scaled >> 16, ((scaled & 0xffff) * 31_345) >> 26)
}

/// The remainder by the seven days of a week, from what its product leaves below the shift.
#[inline(always)]
pub fn day_of_week(days: u64) -> u64
    requires { days < 2 ^ 30 }
    ensures { result ≡ days % 7 }
{
    (((days * 613_566_757) & 0xffff_ffff) * 7) >> 32
}

/// The whole weeks of the first days of a year.
#[inline(always)]
pub fn weeks_of_year(days: u64) -> u64
    requires { days < 400 }
    ensures { result ≡ days / 7 }
{
    (days * 9363) >> 16
}

/// The whole days of seconds. The product takes more than 64 bits.
#[inline(always)]
pub fn days_of_seconds(seconds: u64) -> u64
    requires { seconds < 2 ^ 46 }
    ensures { result ≡ seconds / 86_400 }
{
    ((seconds as u128 * 213_503_982_334_602) >> 64) as u64
}

/// The hour, the minute and the second of a second of the day.
#[inline(always)]
pub fn clock(second: u64) -> (u64, u64, u64)
    requires { second < 86_400 }
    ensures hour { result.0 ≡ second / 3600 }
    ensures minute { result.1 ≡ second / 60 % 60 }
    ensures second { result.2 ≡ second % 60 }
{
    let minutes = (second * 139_811) >> 23;
    let hour = (minutes * 2185) >> 17;
    (hour, minutes - 60 * hour, second - 60 * minutes)
}
