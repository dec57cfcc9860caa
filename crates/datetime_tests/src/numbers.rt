//! Products of durations with numbers, and quotients by numbers.
use calendar::SignedDuration;

// By numbers of all types, one after the other: before the duration, and after it.
fn multiplied_before() -> i128 {
    let one = SignedDuration::nanoseconds(1);
    (5u32 * (3u16 * (2u8 * (-5i32 * (-3i16 * (-2i8 * one)))))).whole_nanoseconds()
}

fn multiplied_after() -> i128 {
    let one = SignedDuration::nanoseconds(1);
    (one * -2i8 * -3i16 * -5i32 * 2u8 * 3u16 * 5u32).whole_nanoseconds()
}

fn divided() -> i128 {
    let whole = SignedDuration::nanoseconds(-2_700_000);
    (whole / -2i8 / -3i16 / -5i32 / 2u8 / 3u16 / 5u32).whole_nanoseconds()
}

fn multiplied_in_place() -> i128 {
    let mut product = SignedDuration::nanoseconds(1);
    product *= -2i8;
    product *= -3i16;
    product *= -5i32;
    product *= 2u8;
    product *= 3u16;
    product *= 5u32;
    product.whole_nanoseconds()
}

fn divided_in_place() -> i128 {
    let mut quotient = SignedDuration::nanoseconds(-2_700_000);
    quotient /= -2i8;
    quotient /= -3i16;
    quotient /= -5i32;
    quotient /= 2u8;
    quotient /= 3u16;
    quotient /= 5u32;
    quotient.whole_nanoseconds()
}

#[test]
fn multiplies_and_divides(rt: HostRuntime) {
    let products = [
        multiplied_before(),
        multiplied_after(),
        multiplied_in_place(),
    ];
    assert!(rt; products == [-900; 3] && [divided(), divided_in_place()] == [3000; 2]);
}
