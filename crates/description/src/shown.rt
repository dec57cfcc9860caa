//! Descriptions as a programmer reads them.

use crate::described::Description;
use std::fmt;

impl fmt::Debug for Description<'_> {
    fn fmt<W: fmt::Write>(&self, f: &mut fmt::Formatter<W>) -> fmt::Result {
        match self {
            Description::Items(items) => write!(f, "Items({items:?})"),
            Description::V3(tree) => write!(f, "V3({tree:?})"),
        }
    }
}
