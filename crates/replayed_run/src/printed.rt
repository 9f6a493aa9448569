//! What was printed, kept in memory.

ghost use Rattle.std.specs.Prelude.{ℕ, ◌≡◌, List, IfSome, None, false};
ghost use Rattle.host_port.specs.Printing.{Prints};
ghost use Rattle.host_port.specs.QuietHost.{quiet_empty, quiet_view};
ghost use Rattle.std.specs.Str.{IsUtf8};

use host_port::{Channel, Printer, QuietMemoryHost};
use std::marker::Model;
use std::str;

/// What was printed. A clause sees the bytes.
#[derive(Drop)]
pub struct Printed {
    host: QuietMemoryHost,
}

impl Model for Printed {
    ghost use Rattle.std.specs.Prelude.{ℕ, List, [], unwrap_or};
    ghost use Rattle.host_port.specs.QuietHost.{quiet_view};

    ghost Value = { List ℕ };

    ghost view = { λ p. unwrap_or (quiet_view p.host).out [] };
}

impl Printed {
    /// What was printed, in bytes.
    pub fn bytes(&self) -> &[u8]
        ensures bytes { result.now ≡ self.now }
    {
        self.host.sent(Channel::Out)
    }

    /// What was printed, as a text, if the bytes are one.
    pub fn lines(&self) -> &str
        ensures lines { IsUtf8 self.now → result.now ≡ self.now }
    {
        text_of(self.bytes())
    }
}

// A text of these bytes, if they are one.
fn text_of(bytes: &[u8]) -> &str
    ensures text { IsUtf8 bytes.now → result.now ≡ bytes.now }
{
    match str::from_utf8(bytes) {
        Ok(text) => text,
        Err(_) => "",
    }
}

/// What a new printer sent to a new host, unless memory ran out.
pub(crate) fn sent(host: QuietMemoryHost, out: &Printer) -> Option<Printed>
    ensures sent { IfSome result (λ printed. (bytes : List ℕ) → Prints (record { plain = false; failure = None }) out.now quiet_empty (quiet_view host) bytes → printed ≡ bytes) }
{
    if out.failed().is_some() {
        return None;
    }
    Some(Printed { host })
}
