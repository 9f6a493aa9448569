//! Places in functions.

pub(crate) use told_places::{add_function, shown};
