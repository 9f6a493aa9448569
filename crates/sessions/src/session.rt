//! A session: the files that its commands make, and the programs that are run over them.

use crate::failing::run_failing;
use crate::full_host::FullHost;
use crate::programs::{printed, run, run_xinu};
use host_port::{Channel, MemoryHost, QuietMemoryHost};
use std::alloc::Global;
use std::io::{self, ErrorKind};

/// How many addresses the image of a process has.
const IMAGE_SIZE: u32 = 4096;

/// The name of the file with the transcript that is judged.
const TRANSCRIPT: &str = "transcript";

/// The options that name a file that is written, each with the channel of its bytes.
const WRITTEN: [(&str, Channel); 4] = [
    ("--out", Channel::Image),
    ("--out", Channel::Disk1),
    ("--out0", Channel::Disk0),
    ("--out1", Channel::Disk1),
];

/// What came of a command.
#[derive(Drop)]
pub(crate) struct Outcome {
    /// What it printed.
    pub(crate) printed: String,
    /// Whether `check` accepts what it printed, if that is the transcript of a whole run.
    pub(crate) is_accepted: Option<bool>,
}

/// A file of a session.
#[derive(Drop)]
struct File {
    name: String,
    bytes: Vec<u8>,
}

/// The files of a session.
#[derive(Drop)]
pub(crate) struct Session {
    alloc: Global,
    files: Vec<File>,
    /// How many of them are images of processes.
    images: u32,
}

impl Session {
    /// A session without files.
    pub(crate) fn new(alloc: Global) -> Session {
        Session {
            alloc,
            files: Vec::new(alloc),
            images: 0,
        }
    }

    /// Forgets the files.
    pub(crate) fn clear(&mut self) {
        self.files.clear();
        self.images = 0;
    }

    /// Adds a file, in place of an earlier one of its name.
    ///
    /// # Errors
    /// Out of memory.
    pub(crate) fn add_file(&mut self, name: &str, bytes: &[u8]) -> io::Result<()> {
        self.files.push(File {
            name: String::from_str(self.alloc, name)?,
            bytes: Vec::from_slice(self.alloc, bytes)?,
        })?;
        Ok(())
    }

    /// The first address of the next image.
    pub(crate) fn next_place(&self) -> u32 {
        self.images.saturating_mul(IMAGE_SIZE)
    }

    /// Adds the next image.
    ///
    /// # Errors
    /// Out of memory.
    pub(crate) fn add_image(&mut self, bytes: &[u8]) -> io::Result<()> {
        self.images = self.images.saturating_add(1);
        let name = format!(in self.alloc; "{}", self.images)?;
        self.add_file(name.as_str(), bytes)
    }

    /// Runs the program of a command with these arguments; none if there is no such program. If it prints the transcript of a whole run,
    /// `check` judges that on the same files. The files that it writes are of the session afterwards.
    ///
    /// # Errors
    /// Out of memory.
    pub(crate) fn run(
        &mut self,
        command: &str,
        arguments: &str,
        lines: &str,
    ) -> io::Result<Option<Outcome>> {
        let args = words_of(self.alloc, arguments)?;
        let args = args.as_slice();
        let printed = match command {
            "same" => self.compared(args)?,
            "failing" => run_failing(self.alloc, self, args)?,
            "full" => self.run_full(args)?,
            _ => return self.run_program(command, args, arguments, lines),
        };
        Ok(Some(Outcome {
            printed,
            is_accepted: None,
        }))
    }

    // Runs the program of a command.
    fn run_program(
        &mut self,
        command: &str,
        args: &[String],
        arguments: &str,
        lines: &str,
    ) -> io::Result<Option<Outcome>> {
        let mut host = self.host()?;
        self.run_over(&mut host, command, args, arguments, lines)
    }

    // Runs the program of a command over a host with the files of the session.
    fn run_over(
        &mut self,
        host: &mut MemoryHost,
        command: &str,
        args: &[String],
        arguments: &str,
        lines: &str,
    ) -> io::Result<Option<Outcome>> {
        let Some(status) = run(self.alloc, command, args, lines, host)? else {
            return Ok(None);
        };
        let (out, fault) = (host.sent(Channel::Out), host.sent(Channel::Fault));
        let mut printed = printed(self.alloc, command, lines, out, fault, status)?;
        if command == "picture" && self.has_file(out) {
            printed.push_str("the picture is as it is stored\n")?;
        }
        let is_accepted = if status == 0 {
            self.judged(arguments, out)?
        } else {
            None
        };
        self.keep_written(arguments, host)?;
        Ok(Some(Outcome {
            printed,
            is_accepted,
        }))
    }

    // Whether `check` accepts what a run with these arguments printed; none if they aren't those of a run that prints its transcript.
    fn judged(&self, arguments: &str, transcript: &[u8]) -> io::Result<Option<bool>> {
        let Some(args) = check_arguments(self.alloc, arguments)? else {
            return Ok(None);
        };
        let mut host = self.host()?;
        if host.add_file(TRANSCRIPT, transcript).is_err() {
            return Err(ErrorKind::OutOfMemory)?;
        }
        let status = run_xinu(self.alloc, args.as_slice(), &mut host);
        Ok(Some(status == 0 && host.sent(Channel::Out) == b"yes\n".as_slice()))
    }

    // Runs the top call over a host that has no memory at the call whose number comes first.
    fn run_full(&self, words: &[String]) -> io::Result<String> {
        let [call, args @ ..] = words else {
            return Ok(String::new(self.alloc));
        };
        let mut host = FullHost {
            quiet: QuietMemoryHost::new(self.alloc),
            full_at: call.as_str().parse::<u64>().unwrap_or(0),
            calls: 0,
        };
        self.run_full_over(args, &mut host)
    }

    // Runs the top call over a host to which the files of the session are added.
    fn run_full_over(&self, args: &[String], host: &mut FullHost) -> io::Result<String> {
        for file in self.files.iter() {
            let (name, bytes) = (file.name.as_str(), file.bytes.as_slice());
            if host.quiet.add_file(name, bytes).is_err() {
                return Err(ErrorKind::OutOfMemory)?;
            }
        }
        let status = run_xinu(self.alloc, args, host);
        let (out, fault) = (
            host.quiet.sent(Channel::Out),
            host.quiet.sent(Channel::Fault),
        );
        Ok(printed(self.alloc, "full", "", out, fault, status)?)
    }

    // Says whether two files have the same bytes.
    fn compared(&self, names: &[String]) -> io::Result<String> {
        let text = match names {
            [one, other] if self.are_same(one.as_str(), other.as_str()) => "the same\n",
            _ => "not the same\n",
        };
        Ok(String::from_str(self.alloc, text)?)
    }

    // Whether there are files of these names, with the same bytes.
    fn are_same(&self, one: &str, other: &str) -> bool {
        match self.bytes_of(one) {
            Some(bytes) => self.bytes_of(other) == Some(bytes),
            None => false,
        }
    }

    // The bytes of the file of a name, if there is one.
    fn bytes_of(&self, name: &str) -> Option<&[u8]> {
        let mut bytes = None;
        for file in self.files.iter() {
            if file.name.as_str() == name {
                bytes = Some(file.bytes.as_slice());
            }
        }
        bytes
    }

    /// A host with the files of the session.
    ///
    /// # Errors
    /// Out of memory.
    pub(crate) fn host(&self) -> io::Result<MemoryHost> {
        let mut host = MemoryHost::new(self.alloc);
        self.fill(&mut host)?;
        Ok(host)
    }

    // Adds the files of the session to a host.
    fn fill(&self, host: &mut MemoryHost) -> io::Result<()> {
        for file in self.files.iter() {
            let (name, bytes) = (file.name.as_str(), file.bytes.as_slice());
            if host.add_file(name, bytes).is_err() {
                return Err(ErrorKind::OutOfMemory)?;
            }
        }
        Ok(())
    }

    // Whether a file of the session has exactly these bytes.
    fn has_file(&self, bytes: &[u8]) -> bool {
        self.files.iter().any(|file| file.bytes.as_slice() == bytes)
    }

    // Keeps what a command wrote into the files that options name.
    fn keep_written(&mut self, arguments: &str, host: &MemoryHost) -> io::Result<()> {
        for (option, channel) in WRITTEN {
            let bytes = host.sent(channel);
            if let Some(name) = value_of(arguments, option)
                && !bytes.is_empty()
            {
                self.add_file(name, bytes)?;
            }
        }
        Ok(())
    }
}

// The words of a text, of which `''` has no bytes.
fn words_of(alloc: Global, text: &str) -> io::Result<Vec<String>> {
    let mut words = Vec::new(alloc);
    for word in text.split_whitespace() {
        let word = if word == "''" { "" } else { word };
        words.push(String::from_str(alloc, word)?)?;
    }
    Ok(words)
}

// The arguments with which `check` judges what a run with these arguments prints: the same but for the files that are written; none if it
// prints no transcript.
fn check_arguments(alloc: Global, arguments: &str) -> io::Result<Option<Vec<String>>> {
    let mut words = arguments.split_whitespace();
    if words.next().unwrap_or("") != "run" {
        return Ok(None);
    }
    let mut args = Vec::new(alloc);
    for word in ["check", "--trace", TRANSCRIPT] {
        args.push(String::from_str(alloc, word)?)?;
    }
    let mut is_written = false;
    for word in words {
        if word == "--plain" {
            return Ok(None);
        }
        if !is_written && !word.starts_with("--out") {
            args.push(String::from_str(alloc, word)?)?;
        }
        is_written = word == "--out0" || word == "--out1";
    }
    Ok(Some(args))
}

// The value of an option: the word after it, or what follows the `=` after it.
fn value_of<'a>(arguments: &'a str, option: &str) -> Option<&'a str> {
    let mut is_next = false;
    for word in arguments.split_whitespace() {
        if is_next {
            return Some(word);
        }
        if let Some((name, value)) = word.split_once("=")
            && name == option
        {
            return Some(value);
        }
        is_next = word == option;
    }
    None
}
