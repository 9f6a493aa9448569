//! An edge, as a detector learns it.

/// An edge whose source has a clock that is kept.
#[derive(Clone, Copy)]
pub struct Known {
    /// To which process it comes.
    pub process: usize,
    /// The name of its source's clock.
    pub name: usize,
}
