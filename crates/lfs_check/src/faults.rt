//! What the checker answers.

ghost use Rattle.std.specs.Prelude.{◌≡◌};
ghost use Rattle.lfs_check.specs.Faults.{named, either_fault};

use std::alloc::AllocError;

/// A rule that is broken, and the block where it is.
#[derive(Clone, Copy)]
pub struct DiskFault {
    pub block: u32,
    pub rule: u8,
}

/// Why an image is not accepted: a rule is broken, or memory ran out before that was known.
#[derive(Clone, Copy)]
pub enum CheckFault {
    Broken(DiskFault),
    NoMemory,
}

impl From<AllocError> for CheckFault {
    ghost use Rattle.lfs_check.specs.declared.faults.CheckFault.TheVariants.{NoMemory};

    ghost from_gives = { λ _ e. e ≡ NoMemory };

    fn from(_e: AllocError) -> CheckFault {
        CheckFault::NoMemory
    }
}

/// What is on a clean image: the number of its files, of free data blocks and of free index blocks.
#[derive(Clone, Copy)]
pub struct Report {
    pub files: u32,
    pub free_data: u32,
    pub free_index: u32,
}

// A block that breaks a rule.
pub(crate) fn fault_at(rule: u8, found: Option<u32>) -> Option<DiskFault>
    ensures { result ≡ named rule found }
{
    match found {
        None => None,
        Some(block) => Some(DiskFault { block, rule }),
    }
}

// The first of two faults, if there is one.
pub(crate) fn first_of_two(a: Option<DiskFault>, b: Option<DiskFault>) -> Option<DiskFault>
    ensures { result ≡ either_fault a b }
{
    match a {
        None => b,
        Some(fault) => Some(fault),
    }
}
