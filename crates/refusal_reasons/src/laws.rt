//! The laws of reasons. Each is the contract of a function that does nothing.

ghost use Rattle.std.specs.Prelude.{◌≡◌, ◌↔◌, ℕ, List, [], IsSome, Some, Bool, slice_index};
ghost use Rattle.xinu_base.specs.Constants.{SYSERR};
ghost use Rattle.refusal_reasons.specs.Later.{GoesOn, completion_reason, effect_reason, later_reason};
ghost use Rattle.refusal_reasons.specs.Reasons.{causes_of, reason};
ghost use Rattle.refusal_reasons.specs.Causes.{IsFirst};
ghost use Rattle.refusal_reasons.specs.declared.reasons.Reason.{Reason};
ghost use Rattle.event_laws.specs.Ownership.GivingAway.{next};
ghost use Rattle.event_laws.specs.Replies.{IsCalling};
ghost use Rattle.xinu_model.specs.Events.{stepped, with_executed};
ghost use Rattle.xinu_model.specs.Sound.State.{IsSound};
ghost use Rattle.xinu_base.specs.declared.processes.Rest.{Rest};
ghost use Rattle.xinu_model.specs.Calls.{called, continued};
ghost use Rattle.xinu_model.specs.Files.Calls.{FileCall, file_effect};
ghost use Rattle.xinu_model.specs.Files.Systems.{FileSystem};
ghost use Rattle.xinu_model.specs.Machine.{Xinu, Returns, end_of_event};
ghost use Rattle.xinu_model.specs.RawDisk.Completions.{served};
ghost use Rattle.xinu_model.specs.RawDisk.Requests.{RawDisk, Request};
ghost use Rattle.xinu_model.specs.Sound.Pools.{ArePools};
ghost use Rattle.xinu_model.specs.Sound.Ports.{ArePorts};
ghost use Rattle.xinu_model.specs.Sound.Tables.{IsSoundTables};
ghost use Rattle.xinu_model.specs.Tables.{process_at};

/// A call of any number, with any arguments, is answered -1 in its event if and only if it has a reason, which is that of the first of
/// its causes that holds. The reason can be read off the state ahead of the event.
pub fn refusals_have_reasons()
    ensures calls { (number : ℕ) (args : List ℕ) (s : Xinu) → IsSoundTables s.tables → ArePools s.tables s.parts.pools →
        ArePorts s.tables s.parts.ports → ((called number args s).answer ≡ Returns SYSERR ↔ IsSome (reason number args s)) }
    ensures first { (number : ℕ) (args : List ℕ) (s : Xinu) (r : Reason) → reason number args s ≡ Some r →
        IsFirst (causes_of number (slice_index args) s) r }
    ensures ahead { (old : Xinu) (number : ℕ) (args : List ℕ) → IsSound old → IsCalling old →
        ((called number args (with_executed (next old) old)).answer ≡ Returns SYSERR ↔ IsSome (reason number args old)) }
{}

/// A call that waited is answered -1 as it goes on if and only if it has a later reason. It goes on in the state ahead of the event.
pub fn later_refusals_have_reasons()
    ensures calls { (left : Rest) (s : Xinu) → ((continued left s).answer ≡ Returns SYSERR ↔ IsSome (later_reason left s)) }
    ensures ahead { (s : Xinu) → GoesOn s →
        stepped s ≡ end_of_event s.tables.current [] (continued (process_at s.tables s.tables.current).rest s) }
{}

/// A call on files replies -1 as it takes effect if and only if it has a reason then, and so does a request of the raw disk at its completion.
pub fn refused_effects_have_reasons()
    ensures files { (call : FileCall) (bytes : List ℕ) (s : FileSystem) → ((file_effect call bytes s).reply ≡ SYSERR ↔ IsSome (effect_reason call bytes s)) }
    ensures disk { (good : Bool) (r : Request) (d : RawDisk) → ((served good r d).reply ≡ SYSERR ↔ IsSome (completion_reason good)) }
{}
