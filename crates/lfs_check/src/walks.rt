//! Walks of chains.

ghost use Rattle.std.specs.Prelude.{◌≡◌, ◌≤◌, ◌<◌, length, [], IfOk};
ghost use Rattle.lfs_check.specs.Walks.{walk, walk_end, is_open};

use std::alloc::{AllocError, Global};

/// What a walk met, in order, and the number that ended it.
#[derive(Drop)]
pub(crate) struct Walk {
    pub met: Vec<u32>,
    pub end: u32,
}

// Whether a walk goes on to a number.
fn may_go_on(seen: &[bool], low: u32, high: u32, at: u32) -> bool
    requires { high ≤ length seen.now }
    ensures { result ≡ is_open seen.now low high at }
{
    at < high && at >= low && !seen[at as usize]
}

/// Walks a chain from `start`, at most `steps` numbers long, over numbers from `low` to `high`.
pub(crate) fn walk_chain(
    alloc: Global,
    links: &[u32],
    low: u32,
    high: u32,
    steps: usize,
    start: u32,
) -> Result<Walk, AllocError>
    requires { high ≤ length links.now }
    ensures met { IfOk result (λ w. w.met.items ≡ walk links.now low high steps [] start) }
    ensures end { IfOk result (λ w. w.end ≡ walk_end links.now low high steps [] start) }
    ensures few { IfOk result (λ w. length w.met.items ≤ steps) }
{
    let mut seen = vec![in alloc; false; links.len()]?;
    let mut met = Vec::new(alloc);
    let mut at = start;
    let mut left = steps;
    while left > 0 {
        if !may_go_on(&seen, low, high, at) {
            return Ok(Walk { met, end: at });
        }
        seen[at as usize] = true;
        met.push(at)?;
        at = links[at as usize];
        left -= 1;
    }
    Ok(Walk { met, end: at })
}
