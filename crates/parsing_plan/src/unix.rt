//! Unix time alone on a line.
ghost use Rattle.std.specs.Prelude.{◌≡◌, ◌+◌, ◌<◌, ◌≤◌, drop, length, Option, ℤ, IfSome};
ghost use Rattle.parsing_combinator.specs.Written.{WriteFraction};
ghost use Rattle.parsing_components.specs.Prefix.{NamesWhole};
ghost use Rattle.parsing_components.specs.Reads.{reading};
ghost use Rattle.parsing_plan.specs.UnixTime.{IsUnixOf};

use parsing_combinator::{nine_digits, one_digit};
use parsing_components::{Node, NodeStep, unix_digits};
use parsing_values::{Fields, Fraction};

// The digits of the seconds, those of the years 2001 to 2286.
const SECOND_DIGITS: usize = 10;

/// Unix time alone: ten digits of seconds, and so many digits of a fraction after them.
#[derive(Clone, Copy)]
pub struct UnixTime {
    pub(crate) finer: usize,
    ghost few: { finer ≤ 9 },
}

// How many digits of a fraction the timestamp has that a node is, where it needs no sign.
fn finer_of<N: Node>(node: &N) -> Option<usize>
    ensures few { IfSome result (λ finer. finer ≤ 9) }
    ensures reads { IfSome result (IsUnixOf (reading N.language (N.tree node.now))) }
{
    match node.step() {
        NodeStep::Component(component) => unix_digits(&component),
        _ => None,
    }
}

// The fraction that the digits after the seconds write, which may be none.
#[inline(always)]
fn fraction_after(line: &[u8], finer: usize) -> Option<Fraction>
    requires long { SECOND_DIGITS + finer ≡ length line.now }
    requires few { finer ≤ 9 }
    ensures writes { IfSome result (WriteFraction (drop SECOND_DIGITS line.now) finer) }
    ensures bound { IfSome result (λ f. f < 1_000_000_000) }
{
    match finer {
        0 => Some(Fraction::new(0)),
        9 => {
            let Some(read) = Fraction::read(&line[SECOND_DIGITS..]) else {
                return None;
            };
            if !read.1.is_empty() {
                return None;
            }
            Some(read.0)
        }
        _ => Fraction::of_digits(line, line.len(), finer),
    }
}

impl UnixTime {
    ghost use Rattle.std.specs.Prelude.{map};
    ghost use Rattle.description_items.specs.Tree.{listed};
    ghost use Rattle.parsing_components.specs.Reads.{reading_of_all};
    ghost use Rattle.parsing_plan.specs.Places.{IsUnixTimeOf};

    /// Unix time, where an item alone reads it.
    pub fn of_nodes<N: Node>(items: &[N]) -> Option<UnixTime>
        ensures { IfSome result
            (IsUnixTimeOf (reading_of_all N.language (listed (map N.tree items.now)))) }
    {
        if items.len() != 1 {
            return None;
        }
        let finer = finer_of(&items[0])?;
        Some(UnixTime { finer })
    }

    /// The fields of a line, in UTC, by a call of its own, so that what calls it stays small: `None` says nothing of the line.
    #[inline(never)]
    pub fn read(&self, line: &[u8]) -> Option<Fields>
        ensures { (assumed : Option ℤ) → NamesWhole (λ m. IsUnixTimeOf m self.now) line.now assumed result }
    {
        self.read_within(line)
    }

    /// The fields of a line, in UTC: `None` says nothing of the line.
    #[inline(always)]
    pub fn read_within(&self, line: &[u8]) -> Option<Fields>
        ensures { (assumed : Option ℤ) → NamesWhole (λ m. IsUnixTimeOf m self.now) line.now assumed result }
    {
        if line.len() != SECOND_DIGITS + self.finer {
            return None;
        }
        let (first, rest) = one_digit(line)?;
        let (last, _after) = nine_digits(rest)?;
        let second = u64::from(first) * 1_000_000_000 + u64::from(last);
        let fraction = fraction_after(line, self.finer)?;
        Fields::of_unix(second, fraction)
    }
}
