//! The moment that a text names, kept as it was read.

use datetime_types::OffsetDateTime;
use parsing_values::Fields;
use std::marker::Model;

// As fields, which are written as they are, or as a moment, whose day is a number.
#[derive(Clone, Copy)]
pub(crate) enum Kept {
    Fields(Fields),
    Moment(OffsetDateTime),
}

/// The moment that a text names. A contract sees the moment.
///
/// Where its fields were read it keeps them, since from fields an answer is written sooner.
#[derive(Drop)]
pub struct Named {
    kept: Kept,
}

impl Model for Named {
    ghost use Rattle.datetime_wall.specs.Wall.{Shown};
    ghost use Rattle.instants_sources.specs.Kept.{moment_kept};

    ghost Value = { Shown };

    ghost view = { λ n. moment_kept n.kept };
}

impl Named {
    ghost use Rattle.std.specs.Prelude.{◌≡◌, IfSome};
    ghost use Rattle.parsing_values.specs.Moment.{moment_of};

    /// The moment of fields.
    #[inline(always)]
    pub fn of_fields(fields: Fields) -> Named
        ensures { result ≡ moment_of fields }
    {
        Named {
            kept: Kept::Fields(fields),
        }
    }

    /// A moment.
    #[inline(always)]
    pub fn of_moment(moment: OffsetDateTime) -> Named
        ensures { result ≡ moment }
    {
        Named {
            kept: Kept::Moment(moment),
        }
    }

    /// Its fields, where those are kept: `None` says nothing of the moment.
    #[inline(always)]
    pub fn fields(&self) -> Option<&Fields>
        ensures { IfSome result (λ fields. moment_of fields.now ≡ self.now) }
    {
        match &self.kept {
            Kept::Fields(fields) => Some(fields),
            Kept::Moment(_) => None,
        }
    }

    /// The moment.
    #[inline(always)]
    pub fn moment(&self) -> OffsetDateTime
        ensures { result ≡ self.now }
    {
        match self.kept {
            Kept::Fields(fields) => fields.moment(),
            Kept::Moment(moment) => moment,
        }
    }
}
