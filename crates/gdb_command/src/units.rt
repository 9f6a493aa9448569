//! The units of the input: packets, which are obeyed, and the answers to packets.

ghost use Rattle.std.specs.Prelude.{◌≡◌, ◌++◌, [], false, OnOk, IfOk};
ghost use Rattle.gdb_command.specs.Serving.{IsServed, IsTaken, SendsMore, ServesAll, acknowledgement};
ghost use Rattle.gdb_packets.specs.SeenUnits.{seen};
ghost use Rattle.gdb_packets.specs.Units as units;

use crate::session::Session;
use gdb_packets::{InputUnit, first_unit, unescaped};
use host_port::HostFault;
use std::alloc::AllocError;

/// What was sent for some of an input, and what is left of it.
#[derive(Drop)]
pub(crate) struct Served {
    pub(crate) sent: Vec<u8>,
    pub(crate) rest: Vec<u8>,
}

impl Session {
    /// Serves the units that are whole, up to one that ends the session.
    ///
    /// # Errors
    /// Out of memory; `Failed` if an event printed something else when it was taken before.
    pub(crate) fn units(&mut self, input: &[u8]) -> Result<Served, HostFault>
        ensures serves { IfOk result (λ served. ServesAll self.old input.now self.new served.sent.items served.rest.items) }
    {
        let mut sent = Vec::new(self.alloc);
        let mut rest = input;
        while !self.has_ended {
            let (unit, next) = first_unit(rest);
            if let InputUnit::Partial = unit {
                break;
            }
            rest = next;
            self.append(unit, &mut sent)?;
        }
        let rest = Vec::from_slice(self.alloc, rest)?;
        Ok(Served { sent, rest })
    }

    // Serves a unit, and appends what is sent for it to what was sent before.
    fn append(&mut self, unit: InputUnit<'_>, sent: &mut Vec<u8>) -> Result<(), HostFault>
        ensures sends { OnOk result (SendsMore self.old self.new (seen unit.entry) sent.old.items sent.new.items) }
    {
        let mut more = Vec::new(self.alloc);
        self.unit(unit, &mut more)?;
        sent.extend_from_slice(more.as_slice())?;
        Ok(())
    }

    // Serves a unit: appends what is sent for it.
    fn unit(&mut self, unit: InputUnit<'_>, out: &mut Vec<u8>) -> Result<(), HostFault>
        requires fresh { out.old.items ≡ [] }
        ensures served { OnOk result (IsServed self.old self.new (seen unit.entry) out.new.items) }
    {
        match unit {
            InputUnit::Packet(bytes) => self.packet(bytes, out),
            InputUnit::Damaged => {
                out.push(b'-')?;
                Ok(())
            }
            InputUnit::Refused => {
                out.extend_from_slice(self.sent.as_slice())?;
                Ok(())
            }
            InputUnit::Accepted | InputUnit::Interrupt | InputUnit::Noise | InputUnit::Partial =>
                Ok(()),
        }
    }

    // Serves a packet with these bytes.
    fn packet(&mut self, bytes: &[u8], out: &mut Vec<u8>) -> Result<(), HostFault>
        requires fresh { out.old.items ≡ [] }
        ensures taken { OnOk result (IsTaken self.old self.new (units.unescaped bytes.now) out.new.items) }
    {
        self.acknowledge(out)?;
        let payload = unescaped(self.alloc, bytes)?;
        let mut reply = Vec::new(self.alloc);
        self.obey(payload.as_slice(), &mut reply)?;
        out.extend_from_slice(reply.as_slice())?;
        Ok(())
    }

    // Acknowledges a packet, as long as packets are.
    fn acknowledge(&self, out: &mut Vec<u8>) -> Result<(), AllocError>
        ensures acknowledged { OnOk result (out.new.items ≡ out.old.items ++ acknowledgement self.now.has_acks) }
    {
        if self.has_acks {
            out.push(b'+')?;
        }
        Ok(())
    }
}
