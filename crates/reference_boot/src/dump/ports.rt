//! The lines of the ports with their messages.

ghost use Rattle.std.specs.Prelude.{ℕ, ◌≡◌, ◌<◌, ◌≤◌, ◌++◌, ◌∷◌, IfOk, IfSome, length, map};
ghost use Rattle.xinu_base.specs.declared.lines.TranscriptLine.TheVariants as line;
ghost use Rattle.xinu_model.specs.Ports.Queues.{port_at};
ghost use Rattle.xinu_model.specs.Text as model;

use reference_state::{MessagePort, PortQueue};
use reference_tables::push;
use xinu_base::{NoMemory, Port, TranscriptLine};

/// The lines of the ports in use, each before its messages.
pub(crate) fn push_ports(
    lines: &mut Vec<TranscriptLine>,
    ports: &[MessagePort],
) -> Result<(), NoMemory>
    requires many { length ports.now ≤ 30 }
    requires few { (q : ℕ) → IfSome (port_at ports.now q).queue (λ queue. length queue.messages ≤ 4294967295) }
    ensures pushed { IfOk result (λ _. lines.new.items ≡ lines.old.items ++ model.port_lines 0 ports.now) }
{
    for (number, port) in ports.iter().enumerate() {
        push_port(lines, Port::at(number), port)?;
    }
    Ok(())
}

// The lines of a port and its messages, if it is in use.
fn push_port(lines: &mut Vec<TranscriptLine>, q: Port, port: &MessagePort) -> Result<(), NoMemory>
    requires few { IfSome port.now.queue (λ queue. length queue.messages ≤ 4294967295) }
    ensures pushed { IfOk result (λ _. lines.new.items ≡ lines.old.items ++ model.port_line q port.now.seq port.now.queue) }
{
    match &port.queue {
        None => Ok(()),
        Some(queue) => push_queue(lines, q, port.seq, queue),
    }
}

// The lines of a port in use and its messages.
fn push_queue(
    lines: &mut Vec<TranscriptLine>,
    port: Port,
    seq: u32,
    queue: &PortQueue,
) -> Result<(), NoMemory>
    requires few { length queue.now.messages ≤ 4294967295 }
    ensures pushed { IfOk result (λ _. lines.new.items ≡
        lines.old.items ++ line.Port port seq (length queue.now.messages) ∷ map (line.Node port) queue.now.messages) }
{
    let messages = queue.messages.len() as u32;
    let line = TranscriptLine::Port {
        port,
        seq,
        messages,
    };
    push(lines, line)?;
    push_nodes(lines, port, &queue.messages)?;
    Ok(())
}

// The lines of the messages of a port.
fn push_nodes(lines: &mut Vec<TranscriptLine>, q: Port, messages: &[u32]) -> Result<(), NoMemory>
    ensures pushed { IfOk result (λ _. lines.new.items ≡ lines.old.items ++ map (line.Node q) messages.now) }
{
    for message in messages {
        push(lines, TranscriptLine::Node(q, *message))?;
    }
    Ok(())
}
