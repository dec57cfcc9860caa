//! What is shown for debugging.

use std::fmt::Debug;

// Adds a value on a line of its own. Where memory runs out the line is missing, which fails the test.
pub fn tell<T: Debug + Drop>(told: &mut String, value: T) {
    let _ = write!(told, "\n{value:?}");
}

// Adds values, each on a line of its own.
pub fn tell_all<T: Debug>(told: &mut String, values: &[T]) {
    for value in values {
        let _ = write!(told, "\n{value:?}");
    }
}
