//! How far a search has come, for those who wait for it.

/// Is told how far a search has come. What it makes of that is outside the contracts.
pub trait Progress {
    /// A search of so many placements begins.
    fn begin(&mut self, all: u64);

    /// One placement more was gone through.
    fn tell(&mut self);

    /// The search is over.
    fn end(&mut self);
}

/// Says nothing.
#[derive(Drop)]
pub struct Silent;

impl Progress for Silent {
    fn begin(&mut self, _all: u64) {}

    fn tell(&mut self) {}

    fn end(&mut self) {}
}
