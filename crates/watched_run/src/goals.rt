//! How far the run goes.

ghost use Rattle.std.specs.Prelude.{◌≡◌};
ghost use Rattle.watched_run.specs.Goals as goals;

use xinu_base::Pid;

/// How far the run goes.
#[derive(Clone, Copy)]
pub enum Goal {
    /// One instruction of this process.
    Instruction(Pid),
    /// One instruction of whoever runs.
    Any,
    /// Until a point.
    Point,
    /// Until a point of this process: the debugger steps it over a point, and is told of no other.
    Alone(Pid),
}

impl Goal {
    /// Whether an instruction of this process reaches it.
    pub(crate) fn is_met(&self, p: Pid) -> bool
        ensures met { result ≡ goals.is_met self.now p }
    {
        match self {
            Goal::Instruction(q) => p.index() == q.index(),
            Goal::Any => true,
            Goal::Point | Goal::Alone(_) => false,
        }
    }

    /// Whether a trap of this process may be told.
    pub(crate) fn tells(&self, p: Pid) -> bool
        ensures tells { result ≡ goals.tells self.now p }
    {
        match self {
            Goal::Alone(q) => p.index() == q.index(),
            Goal::Instruction(_) | Goal::Any | Goal::Point => true,
        }
    }

    /// Whether the points of this process stop the run.
    pub(crate) fn has_points(&self, p: Pid) -> bool
        ensures points { result ≡ goals.has_points self.now p }
    {
        match self {
            Goal::Alone(q) => p.index() == q.index(),
            Goal::Point => true,
            Goal::Instruction(_) | Goal::Any => false,
        }
    }

    /// Whether nothing but a trap stops the run, if there are no points.
    pub(crate) fn is_free(&self) -> bool
        ensures free { result ≡ goals.is_free self.now }
    {
        match self {
            Goal::Point => true,
            Goal::Instruction(_) | Goal::Any | Goal::Alone(_) => false,
        }
    }

    /// Whether it is a point of one process.
    pub(crate) fn is_alone(&self) -> bool
        ensures alone { result ≡ goals.is_alone self.now }
    {
        match self {
            Goal::Alone(_) => true,
            Goal::Instruction(_) | Goal::Any | Goal::Point => false,
        }
    }

    /// The process that a change is told of, if this one made it.
    pub(crate) fn teller(&self, p: Pid) -> Pid
        ensures teller { result ≡ goals.teller self.now p }
    {
        match self {
            Goal::Alone(q) => *q,
            Goal::Instruction(_) | Goal::Any | Goal::Point => p,
        }
    }
}

/// One instruction of a process; of anyone, if it is the null process, which makes none.
pub fn one_of(p: Pid) -> Goal
    ensures one { result ≡ goals.one_of p }
{
    if p.index() == 0 {
        Goal::Any
    } else {
        Goal::Instruction(p)
    }
}
