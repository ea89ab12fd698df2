//! What is left of an outcome, whatever it consists of.

use std::test::Fail;

/// What was made, if it was.
pub fn made<T: Drop, F: Drop>(outcome: Result<T, F>) -> Option<T> {
    match outcome {
        Ok(made) => Some(made),
        Err(_) => None,
    }
}

/// What was made, or the fault; what was handed back beside it is dropped.
pub fn told<T: Drop, B: Drop, F: Drop>(outcome: Result<T, (B, F)>) -> Result<T, F> {
    match outcome {
        Ok(made) => Ok(made),
        Err((_, fault)) => Err(fault),
    }
}

/// What is there, or a failure of that name.
pub fn there<T: Drop>(found: Option<T>, name: &'static str) -> Result<T, Fail> {
    match found {
        Some(found) => Ok(found),
        None => Err(name.into()),
    }
}

/// Puts a value in the place of another one.
pub fn put<T: Drop>(place: &mut T, value: T) {
    *place = value;
}

/// Adds what is there to a list. Whether it is there, and there is memory for it.
pub fn is_added<T: Drop>(list: &mut Vec<T>, found: Option<T>) -> bool {
    match found {
        Some(value) => list.push(value).is_ok(),
        None => false,
    }
}
