//! What a refusal leaves, and which answers tell of one; what those answer who waited on semaphores, ports, the console and the disks; and
//! when the kernel panics.

ghost use Rattle.std.specs.Prelude.{◌≡◌, ◌≢◌, ◌⊎◌, ◌<◌, ◌≤◌, ℕ, suc, ℤ, Bool, true, false, if◌then◌else◌, nat_le, List, [], ◌∷◌, None, Some, slice_index, ◌++◌, map, take, pos};
ghost use Rattle.std.specs.List.{AllByRecursion};
ghost use Rattle.xinu_base.specs.Constants.{OK, SYSERR, EOF, TIMEOUT};
ghost use Rattle.xinu_base.specs.declared.events.Event.{Event};
ghost use Rattle.xinu_base.specs.declared.events.Event.TheVariants.{Step};
ghost use Rattle.xinu_base.specs.declared.lines.FileMoment.{FileMoment};
ghost use Rattle.xinu_base.specs.declared.lines.TranscriptLine.{TranscriptLine};
ghost use Rattle.xinu_base.specs.declared.processes.PortTicket.{PortTicket};
ghost use Rattle.xinu_base.specs.declared.processes.Rest.{Rest};
ghost use Rattle.xinu_base.specs.declared.processes.Rest.TheVariants.{Timed, PtSend, PtRecv, TtyGet, TtyRead, Disk};
ghost use Rattle.xinu_base.specs.declared.processes.Span.{Span};
ghost use Rattle.xinu_base.specs.declared.processes.State.TheVariants.{Ready};
ghost use Rattle.part_laws.specs.Consoles.{IsAtEnd};
ghost use Rattle.xinu_model.specs.Process.Scheduling.{ready_all};
ghost use Rattle.event_laws.specs.Ownership.GivingAway.{next};
ghost use Rattle.event_laws.specs.Replies.{AnswersFirst, IsCalling, IsFullCall, IsFullSend, IsRefused, LeavesRefused, LeavesRefusedEffect, value_kept, value_told};
ghost use Rattle.xinu_model.specs.Calls.{called, continued};
ghost use Rattle.xinu_model.specs.Clock.{wakeup};
ghost use Rattle.xinu_model.specs.Console.Taking.{TY_ISEM, console_of, console_getc, console_read};
ghost use Rattle.xinu_model.specs.Events.{Happens, next_file_call, panics_in, step_at_once, with_executed};
ghost use Rattle.xinu_model.specs.Files.Calls.{FileCall, file_effect};
ghost use Rattle.xinu_model.specs.Files.Syscalls.{files_of, request_for, asks_files, file_step, after_step, at_once};
ghost use Rattle.xinu_model.specs.Files.Systems.{FileSystem};
ghost use Rattle.xinu_model.specs.Files.Work.{FileRequest, FileNote, bytes_written, calls_completed};
ghost use Rattle.xinu_model.specs.Machine.{Xinu, CallState, Panics, Returns, Waits, goes_on, refused};
ghost use Rattle.xinu_model.specs.Memory.{in_ram};
ghost use Rattle.xinu_model.specs.Messages.{held};
ghost use Rattle.xinu_model.specs.Ports.Queues.{MessagePort, is_stale, most_nodes, nodes, port_at};
ghost use Rattle.xinu_model.specs.RawDisk.Calls.{disk_of, may_request, disk_read, disk_write, after_served};
ghost use Rattle.xinu_model.specs.RawDisk.Completions.{Served, raw_completed, served};
ghost use Rattle.xinu_model.specs.RawDisk.Requests.{RawDisk, Request};
ghost use Rattle.xinu_model.specs.Semaphores.Calls.{semdelete, semreset};
ghost use Rattle.xinu_model.specs.Semaphores.Counts.{is_good, with_semaphore};
ghost use Rattle.xinu_model.specs.Semaphores.Waiting.{signalled, signalled_times};
ghost use Rattle.xinu_model.specs.Sound.Pools.{ArePools};
ghost use Rattle.xinu_model.specs.Sound.Ports.{ArePorts};
ghost use Rattle.xinu_model.specs.Sound.State.{IsSound};
ghost use Rattle.xinu_model.specs.Sound.Tables.{IsInside};
ghost use Rattle.xinu_model.specs.Tables.{no_semaphore, process_at, semaphore_at, state_at};

/// A call that is refused in its own event changes nothing but its caller's a0 and pc, and the event prints the call and its reply.
pub fn refusals_change_nothing()
    ensures { (old : Xinu) (lines : List TranscriptLine) (new : Xinu) → IsSound old → IsCalling old → IsRefused old →
        Happens old Step lines new → LeavesRefused old lines new }
{}

/// A call that answers -1 was refused, unless that is the priority, the count or the message that it answers.
pub fn refusals_are_told()
    ensures { (number : ℕ) (args : List ℕ) (s : Xinu) → ArePools s.tables s.parts.pools → ArePorts s.tables s.parts.ports →
        (called number args s).answer ≡ Returns SYSERR →
        (called number args s ≡ refused s) ⊎ (value_told number (slice_index args) s ≡ Some SYSERR) }
{}

/// A call that waited and answers -1 as it goes on is refused, which changes nothing but its message and what is left of it; or -1 is the
/// value that it answers: a message, a priority, or the reply of a completion.
pub fn continued_refusals_change_nothing()
    ensures { (left : Rest) (s : Xinu) → (continued left s).answer ≡ Returns SYSERR →
        (continued left s ≡ refused (goes_on (held s) s)) ⊎ (value_kept left s ≡ Some SYSERR) }
{}

/// Who waits on a semaphore that a process made answers -1 if it is deleted, which changes nothing but who waits and the semaphore itself.
/// However else a waiter is released, it answers 0. Those who are released answer in the order in which they came.
pub fn waiters_are_answered()
    ensures deleted { (sem : ℕ) (s : Xinu) → IsInside s.tables → is_good sem s.tables ≡ true →
        (semdelete sem s).call.released ≡ map (λ p. (p, SYSERR)) (semaphore_at s.tables sem).waiters }
    ensures left { (sem : ℕ) (s : Xinu) → is_good sem s.tables ≡ true →
        (semdelete sem s).call.state ≡ record s { tables = with_semaphore sem no_semaphore (ready_all (semaphore_at s.tables sem).waiters s.tables) } }
    ensures reset { (sem n : ℕ) (s : Xinu) → IsInside s.tables → is_good sem s.tables ≡ true →
        (semreset sem (pos n) s).call.released ≡ map (λ p. (p, OK)) (semaphore_at s.tables sem).waiters }
    ensures signal { (sem : ℕ) (d : CallState) → IsInside d.state.tables → is_good sem d.state.tables ≡ true →
        (signalled sem d).released ≡ d.released ++ map (λ p. (p, OK)) (take 1 (semaphore_at d.state.tables sem).waiters) }
    ensures signals { (sem n : ℕ) (d : CallState) → IsInside d.state.tables → is_good sem d.state.tables ≡ true →
        (signalled_times sem n d).released ≡ d.released ++ map (λ p. (p, OK)) (take n (semaphore_at d.state.tables sem).waiters) }
{}

/// Who waited on a port is refused if and only if the port was renewed since the call began: then no late message comes into it, and none
/// is taken from it. Else a sender's message comes into it, unless all ports together are full, and a receiver gets the first message.
pub fn stale_tickets_are_refused()
    ensures renewed { (ticket : PortTicket) (ports : List MessagePort) → ticket.seq < (port_at ports ticket.port).seq →
        is_stale ticket ports ≡ true }
    ensures send { (ticket : PortTicket) (message : ℕ) (s : Xinu) → is_stale ticket s.parts.ports ≡ true →
        continued (PtSend ticket message) s ≡ refused (goes_on (held s) s) }
    ensures receive { (ticket : PortTicket) (s : Xinu) → is_stale ticket s.parts.ports ≡ true →
        continued (PtRecv ticket) s ≡ refused (goes_on (held s) s) }
    ensures fresh_send { (ticket : PortTicket) (message : ℕ) (s : Xinu) → is_stale ticket s.parts.ports ≡ false →
        (continued (PtSend ticket message) s).answer ≡ (if nat_le most_nodes (nodes s.parts.ports) then Panics else Returns OK) }
    ensures fresh_receive { (ticket : PortTicket) (s : Xinu) → IsSound s → (process_at s.tables s.tables.current).rest ≡ PtRecv ticket →
        is_stale ticket s.parts.ports ≡ false →
        AnswersFirst (port_at s.parts.ports ticket.port).queue (continued (PtRecv ticket) s).answer }
{}

/// The end of the input is told by -2, which is answered if and only if the caller, once it has its token, finds the end mark first in
/// cooked mode; a read, only if it hasn't stored a byte.
pub fn end_of_input_is_told()
    ensures getc { (s : Xinu) → (console_getc s).answer ≡ Returns EOF → IsAtEnd (console_of s) }
    ensures getc_waited { (s : Xinu) → (continued TtyGet s).answer ≡ Returns EOF → IsAtEnd (console_of s) }
    ensures read { (at : ℕ) (n : ℤ) (s : Xinu) → (console_read at n s).answer ≡ Returns EOF → IsAtEnd (console_of s) }
    ensures read_waited { (part : Span) (s : Xinu) → (continued (TtyRead part) s).answer ≡ Returns EOF →
        (part.done ≡ 0) × IsAtEnd (console_of s) }
    ensures getc_at_end { (s : Xinu) → 0 < (semaphore_at s.tables TY_ISEM).tokens → IsAtEnd (console_of s) →
        (console_getc s).answer ≡ Returns EOF }
    ensures getc_waited_at_end { (s : Xinu) → IsAtEnd (console_of s) → (continued TtyGet s).answer ≡ Returns EOF }
    ensures read_at_end { (at n : ℕ) (s : Xinu) → 0 < (semaphore_at s.tables TY_ISEM).tokens → in_ram at (suc n) ≡ true → IsAtEnd (console_of s) →
        (console_read at (pos (suc n)) s).answer ≡ Returns EOF }
    ensures read_waited_at_end { (part : Span) (s : Xinu) → part.done ≡ 0 → IsAtEnd (console_of s) →
        (continued (TtyRead part) s).answer ≡ Returns EOF }
{}

/// A read or a write of the raw disk is refused if there is no such block or its bytes would leave RAM; else its caller waits. The completion
/// that serves its request makes it ready, and the reply of that completion is what it answers.
pub fn disk_callers_are_answered()
    ensures refused { (at block : ℕ) (s : Xinu) → may_request at block s ≡ false →
        (disk_read at block s ≡ refused s) × (disk_write at block s ≡ refused s) }
    ensures waits { (at block : ℕ) (s : Xinu) → may_request at block s ≡ true →
        ((disk_read at block s).answer ≡ Waits) × ((disk_write at block s).answer ≡ Waits) }
    ensures served { (good : Bool) (x : Served) (p : ℕ) (s : Xinu) → IsSound s → raw_completed good (disk_of s) ≡ Some x → x.request.caller ≡ Some p →
        (state_at (after_served x s).state.tables p ≡ Ready) × ((process_at (after_served x s).state.tables p).rest ≡ Disk (Some x.reply)) }
    ensures answered { (reply : ℤ) (s : Xinu) → (continued (Disk (Some reply)) s).answer ≡ Returns reply }
{}

/// A call on files that its arguments refuse changes nothing; else it goes after those under way, and its caller waits. A good completion makes
/// each caller ready of whose call it tells that it took effect, and what that replied is what the caller answers. A call that takes effect as
/// it is made is answered so in its own event.
pub fn file_callers_are_answered()
    ensures refused { (at : ℕ) (s : Xinu) → asks_files None at s ≡ refused s }
    ensures waits { (call : FileCall) (at : ℕ) (s : Xinu) → (asks_files (Some call) at s).answer ≡ Waits }
    ensures queued { (call : FileCall) (at : ℕ) (s : Xinu) →
        (files_of (asks_files (Some call) at s).call.state).calls ≡ (files_of s).calls ++ request_for call at s ∷ [] }
    ensures told { (k p : ℕ) (moment : FileMoment) (reply : ℤ) (before after : List FileNote) (s : Xinu) → IsSound s →
        (calls_completed k (file_step s)).notes ≡ before ++ (record { caller = Some p; moment = moment; reply = Some reply }) ∷ after →
        (state_at (after_step (calls_completed k (file_step s)) s).state.tables p ≡ Ready) ×
        ((process_at (after_step (calls_completed k (file_step s)) s).state.tables p).rest ≡ Disk (Some reply)) }
    ensures at_once { (a : FileRequest) (s : Xinu) → (files_of s).calls ≡ [] →
        (at_once a s).answer ≡ Returns (file_effect a.call (bytes_written a.call a.at s.memory) (files_of s).system).reply }
{}

/// A call on files that takes effect as it is made, and is refused then, changes nothing but its caller's a0 and pc. Its event prints the call,
/// that it took effect, and its reply.
pub fn refused_effects_are_told()
    ensures { (a : FileRequest) (old : Xinu) → IsSound old → IsCalling old → next_file_call old ≡ Some a →
        (at_once a (with_executed (next old) old)).answer ≡ Returns SYSERR → LeavesRefusedEffect old (step_at_once a old).lines (step_at_once a old).state }
{}

/// The kernel panics only in a step that sends a message to a port while all ports together hold as many as they can: in the event of the
/// call, or as it goes on, if the port wasn't renewed meanwhile.
pub fn full_ports_panic()
    ensures calls { (number : ℕ) (args : List ℕ) (s : Xinu) → (called number args s).answer ≡ Panics →
        (number ≡ 34) × (most_nodes ≤ nodes s.parts.ports) }
    ensures continued { (left : Rest) (s : Xinu) → (continued left s).answer ≡ Panics → IsFullSend left s }
    ensures events { (old : Xinu) (e : Event) → panics_in old e ≡ true →
        (e ≡ Step) × (IsFullCall old ⊎ IsFullSend (process_at old.tables old.tables.current).rest old) }
{}

/// Who answers -3 as it goes on with its call called `recvtime`, and its time ran out before a message came; or -3 is the value that its call
/// answers: the message, or the priority of a process that suspended itself. No completion of a disk replies so, and a tick answers 0.
pub fn only_recvtime_times_out()
    ensures continued { (s : Xinu) → IsSound s → (continued (process_at s.tables s.tables.current).rest s).answer ≡ Returns TIMEOUT →
        (value_kept (process_at s.tables s.tables.current).rest s ≡ Some TIMEOUT) ⊎
        (((process_at s.tables s.tables.current).rest ≡ Timed) × (held s ≡ None)) }
    ensures timed { (s : Xinu) → held s ≡ None → (continued Timed s).answer ≡ Returns TIMEOUT }
    ensures disk { (good : Bool) (r : Request) (d : RawDisk) → (served good r d).reply ≢ TIMEOUT }
    ensures files { (call : FileCall) (bytes : List ℕ) (s : FileSystem) → (file_effect call bytes s).reply ≢ TIMEOUT }
    ensures tick { (s : Xinu) → AllByRecursion (λ (r : ℕ × ℤ). r.1 ≡ OK) (wakeup s).released }
{}
