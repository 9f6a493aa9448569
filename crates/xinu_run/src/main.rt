//! The program: its first argument says what it does, and it exits with the status of that.
//!
//! | First argument | The work is done by |
//! |---|---|
//! | `explain` | [`explain`] of `explain_command`: a run is told in plain English |
//! | `timeline` | [`timeline`] of `timeline_command`: a run is drawn |
//! | `judge` | [`judge`] of `judge_command`: the data races of a run are told |
//! | `races` | [`races`] of `races_command`: a program is run with preemptions at every place |
//! | `listing` | [`listing`] of `listing_command`: what each line of a source puts where |
//! | `prove` | [`prove`] of `prove_command`: a program is proved to keep the rule of a lock on every schedule |
//! | `gdb` | [`debug`] of `gdb_command`: a debugger's packets come on standard input, and are answered on standard output |
//! | another, or none | the top call, [`xinu`] of `xinu_commands`, which gets all arguments |
//!
//! Each goes over the host of the program, and the first seven get the arguments after their name.
#![tactic(auto)]

mod progress;
mod terminals;

use crate::progress::Terminal;
use crate::terminals::{STANDARD_INPUT, is_terminal};
use explain_command::explain;
use gdb_command::debug;
use host_port::{Host, RealHost};
use judge_command::judge;
use listing_command::listing;
use prove_command::prove;
use races_command::{Progress, races};
use std::alloc::Global;
use std::env;
use std::io::{self, ErrorKind, Read, Write};
use std::process::ExitCode;
use std::rt::Env;
use timeline_command::timeline;
use xinu_commands::xinu;

/// What is said to somebody who types `xinu_run gdb` at a terminal.
const WAITS: &str =
    "gdb starts this command and sends it packets: (gdb) target remote | xinu_run gdb --schedule FILE IMAGE ..";

fn main(rt: HostRuntime) -> ExitCode {
    let alloc = rt.alloc();
    let args = match args_of(alloc, &rt) {
        Ok(args) => args,
        // Arguments that are no text are no command.
        Err(error) if error.kind() == ErrorKind::InvalidData => Vec::new(alloc),
        Err(_) => {
            let _ = rt.eprintln("xinu: no memory");
            return ExitCode::from(7);
        }
    };
    let mut input = rt.stdin();
    let mut output = rt.stdout();
    let Ok(terminal) = rt.clone() else {
        let _ = rt.eprintln("xinu: no memory");
        return ExitCode::from(7);
    };
    if asks_for_gdb(args.as_slice()) && is_terminal(&terminal, STANDARD_INPUT) {
        let _ = terminal.eprintln(WAITS);
    }
    let mut progress = Terminal::new(terminal);
    let mut host = RealHost::new(rt);
    let status = carry_out(
        alloc,
        args.as_slice(),
        &mut host,
        &mut input,
        &mut output,
        &mut progress,
    );
    ExitCode::from(status)
}

// The arguments after the program's name.
fn args_of<R: Env + AllocGlobal>(alloc: Global, rt: &R) -> io::Result<Vec<String>> {
    let mut args = Vec::new(alloc);
    for arg in env::args(rt)?.skip(1) {
        args.push(arg)?;
    }
    Ok(args)
}

// Whether the first argument names the command that serves a debugger.
fn asks_for_gdb(args: &[String]) -> bool {
    match args {
        [first, ..] => first.as_str() == "gdb",
        [] => false,
    }
}

// Carries out the command that the first argument names.
fn carry_out<H: Host, R: Read, W: Write, P: Progress>(
    alloc: Global,
    args: &[String],
    host: &mut H,
    input: &mut R,
    output: &mut W,
    progress: &mut P,
) -> u8 {
    let (name, rest) = match args {
        [first, rest @ ..] => (first.as_str(), rest),
        [] => ("", args),
    };
    match name {
        "explain" => explain(alloc, rest, host),
        "timeline" => timeline(alloc, rest, host),
        "judge" => judge(alloc, rest, host),
        "races" => races(alloc, rest, host, progress),
        "listing" => listing(alloc, rest, host),
        "prove" => prove(alloc, rest, host),
        "gdb" => debug(alloc, rest, host, input, output),
        _ => top(alloc, args, host),
    }
}

// The status of the top call. The machine that it leaves is let go.
fn top<H: Host>(alloc: Global, args: &[String], host: &mut H) -> u8 {
    let mut last = None;
    xinu(alloc, args, host, &mut last)
}
