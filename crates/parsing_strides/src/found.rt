//! The numbers that were found in a text.
ghost use Rattle.std.specs.Prelude.{◌≤◌, ◌<◌, ◌≡◌, true, false};

use crate::lanes::{all_above, are_at_most};
use parsing_layout::{Field, place_of};
use parsing_places::LANES;
use parsing_values::{Fraction, Year};
use std::simd::prelude::*;

/// The numbers that were found in a text, by what they mean.
#[derive(Clone, Copy)]
pub struct Found {
    // Those of all fields but the last three, each at the place of its field.
    pub(crate) lanes: [u8; LANES],
    pub(crate) year: Year,
    pub(crate) fraction: Fraction,
    pub(crate) unix: u64,
    ghost four_digits: { year ≤ 9999 },
    ghost below_a_second: { fraction < 1_000_000_000 },
}

// The least number of each field, and how far the greatest lies above it.
const LEAST: [u8; LANES] = [1, 1, 1, 0, 1, 0, 0, 0, b'+', 0, 0, 1, 0, 0, 0, 0];

const WIDTH: [u8; LANES] = [11, 30, 6, 23, 11, 1, 59, 59, 2, 25, 59, 52, 36, 9, 255, 255];

// A number that is out of every range, if this holds, and else another one.
fn out_or(holds: bool, other: u8) -> u8
    ensures out { holds ≡ true → result ≡ 255 }
    ensures other { holds ≡ false → result ≡ other }
{
    if holds { 255 } else { other }
}

impl Found {
    ghost use Rattle.std.specs.Prelude.{◌==◌};
    ghost use Rattle.parsing_layout.specs.declared.parts.Field.{Field};
    ghost use Rattle.parsing_layout.specs.Range.{AreUnread, IsAllInRange};
    ghost use Rattle.parsing_layout.specs.Said.{place_of};
    ghost use Rattle.parsing_layout.specs.declared.parts.Field.TheVariants as field;
    ghost use Rattle.parsing_strides.specs.Found.{is_lane, values_in};

    /// What stands for numbers that are not read: a second of 0, without a fraction. Nothing is promised of the others.
    #[inline(always)]
    pub fn usual() -> Found
        ensures nanosecond { values_in result field.Nanosecond ≡ 0 }
        ensures second { values_in result field.Second ≡ 0 }
    {
        Found {
            lanes: LEAST,
            year: Year::new(0),
            fraction: Fraction::new(0),
            unix: 0,
        }
    }

    /// What stands for each number before it is read: one out of its range, where it has to be read.
    pub fn unread(is_half: bool, has_second: bool, has_offset: bool) -> Found
        ensures { AreUnread is_half has_second has_offset (values_in result) }
    {
        let hour = out_or(!is_half, 0);
        let half_hour = out_or(is_half, 1);
        let half = out_or(is_half, 0);
        let second = out_or(has_second, 0);
        let offset = out_or(has_offset, 0);
        let mut found = Found::usual();
        found.lanes = [
            255, 255, 1, hour, half_hour, half, 255, second, b'+', offset, offset, 1, 0, 0, 0, 0,
        ];
        found
    }

    /// The number of a field that is a lane.
    #[inline(always)]
    pub fn get(&self, field: Field) -> u8
        requires { is_lane field ≡ true }
        ensures { result ≡ values_in self.now field }
    {
        self.lanes[place_of(field)]
    }

    /// The year.
    #[inline(always)]
    pub fn year(&self) -> Year
        ensures value { result ≡ values_in self.now field.Year }
        ensures bound { result ≤ 9999 }
    {
        self.year
    }

    /// The fraction of a second.
    #[inline(always)]
    pub fn fraction(&self) -> Fraction
        ensures value { result ≡ values_in self.now field.Nanosecond }
        ensures bound { result < 1_000_000_000 }
    {
        self.fraction
    }

    /// Unix time.
    #[inline(always)]
    pub fn unix(&self) -> u64
        ensures { result ≡ values_in self.now field.Unix }
    {
        self.unix
    }

    /// Whether the number of each field is in its range. (A leap second is not.)
    #[inline(always)]
    pub fn is_in_range(&self) -> bool
        ensures { result ≡ true → IsAllInRange (values_in self.now) }
    {
        let above = all_above(u8x16::from_array(self.lanes), u8x16::from_array(LEAST));
        are_at_most(above, u8x16::from_array(WIDTH)) && self.unix <= 9_999_999_999
    }

    // Puts the numbers of lanes, and a year.
    #[inline(always)]
    pub(crate) fn put_lanes(&mut self, lanes: [u8; LANES], year: Year)
        requires { year ≤ 9999 }
        ensures lanes { self.new.lanes ≡ lanes }
        ensures year { self.new.year ≡ year }
        ensures fraction { self.new.fraction ≡ self.old.fraction }
        ensures unix { self.new.unix ≡ self.old.unix }
    {
        self.lanes = lanes;
        self.year = year;
    }

    // Puts the number of a field, and returns whether it fits there.
    #[inline(always)]
    pub(crate) fn put(&mut self, field: Field, number: u64) -> bool
        ensures there { result ≡ true → values_in self.new field ≡ number }
        ensures others { (f : Field) → (place_of field == place_of f) ≡ false
            → values_in self.new f ≡ values_in self.old f }
    {
        let place = place_of(field);
        if place < LANES - 2 && number < 256 {
            self.lanes[place] = number as u8;
            return true;
        }
        match field {
            Field::Year if number <= 9999 => self.year = Year::new(number as u16),
            Field::Nanosecond if number < 1_000_000_000 => {
                self.fraction = Fraction::new(number as u32);
            }
            Field::Unix => self.unix = number,
            _ => return false,
        }
        true
    }
}
