//! The steps of a schedule among which places lie.

ghost use Rattle.std.specs.Prelude.{◌≡◌, ◌-◌};

/// The places after the first steps of a schedule, up to a last one: none if `within` isn't above `after`.
#[derive(Clone, Copy)]
pub struct Stretch {
    /// After how many steps they begin.
    pub after: u32,
    /// The last place.
    pub within: u32,
}

impl Stretch {
    /// How many places it has.
    pub(crate) fn size(&self) -> u32
        ensures size { result ≡ self.now.within - self.now.after }
    {
        self.within.saturating_sub(self.after)
    }
}
