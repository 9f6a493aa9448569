//! What a process that was killed asked of disks (book, chapters 18 and 19).

ghost use Rattle.std.specs.Prelude.{◌≡◌, if◌then◌else◌};
ghost use Rattle.reference_calls.specs.GivenUp.{first_given_up};
ghost use Rattle.xinu_model.specs.Files.Work as work;
ghost use Rattle.xinu_model.specs.RawDisk.Callers as callers;
ghost use Rattle.xinu_model.specs.RawDisk.Requests as requests;

use reference_state::{FileRequest, FileWork, RawDisk, Request};
use xinu_base::Pid;

/// `p` was killed: the first request goes on, without a caller if it was `p`'s, and `p`'s others are taken out.
pub(crate) fn give_up_requests(disk: &mut RawDisk, p: Pid)
    ensures given { disk.new ≡ requests.requests_given_up p disk.old }
{
    orphan_first_request(&mut disk.requests, p);
    leave_requests(&mut disk.requests, p);
}

/// The same of the calls on files.
pub(crate) fn give_up_calls(w: &mut FileWork, p: Pid)
    ensures given { w.new ≡ work.calls_given_up p w.old }
{
    orphan_first_call(&mut w.calls, p);
    leave_calls(&mut w.calls, p);
}

// The first request has no caller, if that was `p`.
fn orphan_first_request(list: &mut Vec<Request>, p: Pid)
    ensures orphaned { list.new.items ≡ first_given_up (λ (r : requests.Request). r.caller) requests.orphaned_request p list.old.items }
{
    if let Some(first) = list.first_mut() {
        orphan_request(first, p);
    }
}

// The first call has no caller, if that was `p`.
fn orphan_first_call(list: &mut Vec<FileRequest>, p: Pid)
    ensures orphaned { list.new.items ≡ first_given_up (λ (a : work.FileRequest). a.caller) work.orphaned_call p list.old.items }
{
    if let Some(first) = list.first_mut() {
        orphan_call(first, p);
    }
}

// A request has no caller, if that was `p`.
fn orphan_request(r: &mut Request, p: Pid)
    ensures orphaned { r.new ≡ (if callers.is_caller p r.old.caller then requests.orphaned_request r.old else r.old) }
{
    if is_caller(p, r.caller) {
        r.caller = None;
    }
}

// A call has no caller, if that was `p`.
fn orphan_call(a: &mut FileRequest, p: Pid)
    ensures orphaned { a.new ≡ (if callers.is_caller p a.old.caller then work.orphaned_call a.old else a.old) }
{
    if is_caller(p, a.caller) {
        a.caller = None;
    }
}

// The requests that aren't `p`'s.
fn leave_requests(list: &mut Vec<Request>, p: Pid)
    ensures others { list.new.items ≡ callers.others (λ (r : requests.Request). r.caller) p list.old.items }
{
    list.retain(|r| !is_caller(p, r.caller));
}

// The calls that aren't `p`'s.
fn leave_calls(list: &mut Vec<FileRequest>, p: Pid)
    ensures others { list.new.items ≡ callers.others (λ (a : work.FileRequest). a.caller) p list.old.items }
{
    list.retain(|a| !is_caller(p, a.caller));
}

// Whether this is the caller.
fn is_caller(p: Pid, caller: Option<Pid>) -> bool
    ensures is { result ≡ callers.is_caller p caller }
{
    match caller {
        None => false,
        Some(q) => q == p,
    }
}
