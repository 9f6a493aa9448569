//! What was told last, so that it isn't looked up once more.

/// How many are kept.
const KEPT: usize = 64;

/// A byte, and two places that race for it.
#[derive(Clone, Copy)]
pub(crate) struct Spot {
    pub(crate) byte: u32,
    /// The lower place.
    pub(crate) low: u32,
    /// The higher place.
    pub(crate) high: u32,
}

impl Spot {
    // Whether it is the same as another one.
    fn is(&self, other: &Spot) -> bool {
        self.byte == other.byte && self.low == other.low && self.high == other.high
    }
}

/// The last spots.
#[derive(Drop)]
pub(crate) struct Recent {
    spots: [Option<Spot>; KEPT],
    next: usize,
}

impl Recent {
    /// None so far.
    pub(crate) fn new() -> Recent {
        Recent {
            spots: [None; KEPT],
            next: 0,
        }
    }

    /// Forgets them.
    pub(crate) fn clear(&mut self) {
        self.spots = [None; KEPT];
    }

    /// Whether a spot is among them.
    pub(crate) fn has(&self, spot: &Spot) -> bool {
        for kept in &self.spots {
            if let Some(kept) = kept {
                if kept.is(spot) {
                    return true;
                }
            }
        }
        false
    }

    /// Keeps a spot, in place of the oldest one.
    pub(crate) fn keep(&mut self, spot: Spot) {
        let at = self.next % KEPT;
        self.spots[at] = Some(spot);
        self.next = (at + 1) % KEPT;
    }
}
