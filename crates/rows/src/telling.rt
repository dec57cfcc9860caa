//! What telling an answer comes to.

use description::DescriptionFault;
use std::alloc::AllocError;
use std::fmt::{Debug, Display};

/// An answer is told, or memory ran out.
pub type Told = Result<(), AllocError>;

/// Tells that there is no such call, or that an argument can't be read.
pub fn tell_no_call(told: &mut String) -> Told {
    told.push_str("?")
}

pub fn tell_debug<T: Debug>(told: &mut String, value: &T) -> Told {
    write!(told, "{value:?}")
}

pub fn tell_display<T: Display>(told: &mut String, value: &T) -> Told {
    write!(told, "{value}")
}

/// Tells the sentence of a fault, unless memory ran out.
pub fn tell_fault(told: &mut String, fault: DescriptionFault<'_>) -> Told {
    match fault {
        DescriptionFault::Description(fault) => tell_display(told, &fault),
        DescriptionFault::Memory => Err(AllocError),
    }
}

/// Where the other telling differs, takes it in place of what is told, with how it came about, and says so.
pub fn tells_other<T: Display + Drop>(
    told: &mut String,
    other: &str,
    how: T,
) -> Result<bool, AllocError> {
    if other == told.as_str() {
        return Ok(false);
    }
    told.clear();
    write!(told, "{other} ({how})")?;
    Ok(true)
}
