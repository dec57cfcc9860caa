//! What a caller knows that is generic over `Parsable` or `TwoRoads`: the moment that bytes name, by the bound alone.
ghost use Rattle.std.specs.Prelude.{Some};
ghost use Rattle.parsing_combinator.specs.FaultOf.{Gives, fault_of};
ghost use Rattle.parsing_record.specs.Meaning.{meaning};
ghost use Rattle.parsing_record.specs.Whole.{whole, names, moment_named};

use datetime_types::OffsetDateTime;
use parsing::{Iso8601, Parsable, Parse, Parsed, Rfc2822, Rfc3339, TwoRoads};

// With defaults: that of the record which all of the bytes set.
fn with_defaults<P: Parsable>(
    format: &P,
    input: &[u8],
    defaults: Parsed,
) -> Result<OffsetDateTime, Parse>
    ensures { Gives (λ moment. moment) fault_of result
        (names moment_named (whole (meaning (P.reading format.now)) (Some defaults) input.now)) }
{
    format.parse_offset_date_time(input, Some(defaults))
}

// Without defaults: that of the direct reading.
fn without_defaults<T: TwoRoads>(format: &T, input: &[u8]) -> Result<OffsetDateTime, Parse>
    ensures { Gives (λ moment. moment) fault_of result (T.moment format.now input.now) }
{
    format.parse_offset_date_time(input, None)
}

// The Unix time of the moment with defaults that hold no field.
fn second<P: Parsable>(format: &P, input: &[u8]) -> Option<i64> {
    match with_defaults(format, input, Parsed::new()) {
        Ok(moment) => Some(moment.unix_timestamp()),
        Err(_) => None,
    }
}

// Whether a line names without defaults what it names read directly, and read into a record.
fn are_alike(line: &[u8]) -> bool {
    let moment = without_defaults(&Rfc2822, line);
    moment == Rfc2822.read_direct(line) && moment == Rfc2822.read_staged(line, Parsed::new())
}

#[test]
fn moments(rt: HostRuntime) {
    assert!(rt;
        second(&Iso8601, b"19700101T000007Z") == Some(7)
            && second(&&Rfc3339, b"1970-01-01T00:00:07Z") == Some(7)
            && are_alike(b"1 Jan 1970 00:00:07 GMT")
    );
}
