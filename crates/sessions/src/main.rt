//! Plays the sessions of the texts that its arguments name. It prints how many commands printed what is written, how many of the
//! transcripts that they printed `check` accepts, and where it was otherwise.
//!
//! A text is Markdown. Below each heading its lines that are indented by four spaces are a session at a terminal. A line of it that begins
//! with `$` is a command, and the lines below are its own:
//!
//! | Command | Its lines |
//! |---|---|
//! | `$ file NAME` | the text of a file |
//! | `$ bytes NAME` | the bytes of a file, two digits each; `07*4096` is a byte so many times, and `@512` zeros up to that place |
//! | `$ stored NAME` | none: the file lies beside the text |
//! | `$ same NAME NAME` | `the same` or `not the same`: whether two files have the same bytes |
//! | `$ calls PRIORITY` | the calls of a process, which loops afterwards, a line each |
//! | `$ program PRIORITY` | the text of assembler of a process |
//! | `$ xinu ARGUMENTS` | what the top call prints with these arguments: what it sends on Out and on Fault, and its status if it isn't 0 |
//! | `$ full K ARGUMENTS` | likewise over a host that has no memory at its call K, the first being 1 |
//! | `$ failing ARGUMENTS` | for each call of the host that `xinu` makes with these arguments: its status, how many lines it prints and what it tells if that call fails, and if the next one fails too; the last line is that of a call that isn't made |
//! | `$ explain ARGUMENTS`, `$ judge ARGUMENTS`, `$ listing ARGUMENTS`, `$ prove ARGUMENTS`, `$ races ARGUMENTS`, `$ timeline ARGUMENTS` | likewise of these commands of `xinu_run` |
//! | `$ picture ARGUMENTS` | the events of the picture that `timeline` draws in place of the picture, and whether it is a file of the session |
//! | `$ gdb ARGUMENTS` | what a debugger sends to `xinu_run gdb`, and below each line what is answered |
//!
//! The first process of a session is the image file `1`, the next is `2`, and so on. Image k begins at 4096 * (k - 1) and has 4096 bytes of
//! content, with zeros after those of its text. What a command writes into the files of `--out`, `--out0` and `--out1` is there for the
//! next one. A session ends at the next heading, and its files are forgotten.
//!
//! A line of `$ picture` is an event, with each text that the picture has there and the row in which it is. A line of `$ gdb` that begins
//! with `> ` is what a packet says; after `!` it is sent as it stands, and one unit answers it; after `~` likewise, and nothing answers it.
//! `*` and a number send a packet of so many bytes that has no end, and one unit answers it. What is shown on the debugger's console is printed as text after `shows`, with `|` for the end of a line.
//!
//! An argument `''` has no bytes. What `$ failing` prints is told too if it isn't the beginning of what is printed if no call fails.
//!
//! A byte that isn't a printable character is shown as `\x` and two digits. Output whose last line doesn't end has a `\` there.
//!
//! A difference is told by the line of the text that isn't what was printed, with its heading, as `ports.md:57 (A full port)`, and below it
//! what was wanted and what came. A command that isn't known, or whose process can't be assembled, is told by its own line.
#![tactic(auto)]

mod bytes;
mod failing;
mod full_host;
mod images;
mod output;
mod packets;
mod pictures;
mod player;
mod programs;
mod session;
mod trouble;

use player::Player;
use std::{env, fs, io};

fn main(rt: HostRuntime) -> io::Result<()> {
    let mut player = Player::new(rt.alloc());
    for name in env::args(&rt)?.skip(1) {
        let text = fs::read_to_string(&rt, name.as_str())?;
        player.play(&rt, name.as_str(), text.as_str())?;
    }
    player.report(&rt)
}
