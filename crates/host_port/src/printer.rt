//! The printer of a transcript: it sends lines to a host until the host refuses one.

ghost use Rattle.std.specs.Prelude.{◌≡◌, [], ◌∷◌, None, if◌then◌else◌};
ghost use Rattle.host_port.specs.LineText.{con_text};
ghost use Rattle.host_port.specs.Printing.{Printing, Prints};

use crate::host::{Channel, Host, HostFault};
use crate::line::Line;
use std::marker::Model;

/// Sends lines on the channel `Out`, one call of the host a line, up to the first refusal. It takes no memory of its own.
#[derive(Drop)]
pub struct Printer {
    is_plain: bool,
    refused: Option<HostFault>,
}

impl Model for Printer {
    ghost Value = { Printing };

    ghost view = { λ p. record { plain = p.is_plain; failure = p.refused } };
}

impl Printer {
    /// A printer that was refused nothing. If `plain`, it sends the bytes of the console alone, as they are.
    pub fn new(plain: bool) -> Self
        ensures fresh { result ≡ record { plain = plain; failure = None } }
    {
        Printer {
            is_plain: plain,
            refused: None,
        }
    }

    /// Prints a line; nothing if the output is plain.
    pub fn line<H: Host>(&mut self, host: &mut H, line: &Line)
        ensures prints { Prints self.old self.new (H.view host.old) (H.view host.new) (if self.old.plain then [] else line.now) }
    {
        if !self.is_plain {
            self.send(host, line.bytes());
        }
    }

    /// Prints a byte that the console transmitted: the line `con` and its two hexadecimal digits, or the byte alone if the
    /// output is plain.
    pub fn con<H: Host>(&mut self, host: &mut H, b: u8)
        ensures prints { Prints self.old self.new (H.view host.old) (H.view host.new) (if self.old.plain then b ∷ [] else con_text b) }
    {
        if self.is_plain {
            self.send(host, &[b]);
        } else {
            let mut line = Line::new();
            line.word("con");
            line.word("");
            line.hex2(b);
            line.end();
            self.send(host, line.bytes());
        }
    }

    /// The first refusal; `None` if nothing was refused.
    pub fn failed(&self) -> Option<HostFault>
        ensures failed { result ≡ self.now.failure }
    {
        self.refused
    }

    // Sends bytes, if there are any, unless a call was refused before.
    fn send<H: Host>(&mut self, host: &mut H, bytes: &[u8])
        ensures prints { Prints self.old self.new (H.view host.old) (H.view host.new) bytes.now }
    {
        if self.refused.is_none() && !bytes.is_empty() {
            if let Err(fault) = host.emit(Channel::Out, bytes) {
                self.refused = Some(fault);
            }
        }
    }
}
