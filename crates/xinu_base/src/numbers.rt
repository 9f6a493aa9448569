//! Numbers below a bound: each is a type, so that what indexes a table is within it.

ghost use Rattle.std.specs.Prelude.{ℕ, ◌≡◌, ◌<◌, nat_lt, Some, None, if◌then◌else◌};

use std::marker::Model;

/// A number below `N`.
#[derive(Clone, Copy, PartialEq, Eq)]
pub struct Below<const N: u8> {
    number: u8,
}

/// The number of a process.
pub type Pid = Below<64>;

/// The number of a semaphore.
pub type Sem = Below<128>;

/// The number of a buffer pool.
pub type PoolId = Below<20>;

/// The number of a port.
pub type Port = Below<30>;

/// The number of a device.
pub type Dev = Below<10>;

impl<const N: u8> Model for Below<N> {
    ghost Value = { ℕ };

    ghost view = { λ n. n.number };

    ghost invariant = { λ n. n.number < N };

    ghost inverse = { λ n. record { number = n } };
}

impl<const N: u8> Below<N> {
    /// The number that a word holds. `None` if and only if the word isn't below the bound.
    pub fn from_word(w: u32) -> Option<Self>
        ensures { result ≡ (if nat_lt w N then Some w else None) }
    {
        if w < N as u32 {
            Some(Below { number: w as u8 })
        } else {
            None
        }
    }

    /// The number of a place in the table, which is below the bound.
    pub fn at(index: usize) -> Self
        requires below { index < N }
        ensures number { result ≡ index }
    {
        Below {
            number: index as u8,
        }
    }

    /// The place in the table that the number indexes: the number itself.
    pub fn index(self) -> usize
        ensures index { result ≡ self.entry }
        ensures bound { result < N }
    {
        self.number as usize
    }
}

impl Default for Below<64> {
    ghost is_default = { λ n. n ≡ 0 };

    fn default() -> Self {
        Below { number: 0 }
    }
}

impl Default for Below<128> {
    ghost is_default = { λ n. n ≡ 0 };

    fn default() -> Self {
        Below { number: 0 }
    }
}

impl Default for Below<30> {
    ghost is_default = { λ n. n ≡ 0 };

    fn default() -> Self {
        Below { number: 0 }
    }
}
