//! Ports (book, chapter 11).

use std::marker::Model;
use xinu_base::Sem;

/// What a port in use has: how many messages it can hold, the semaphores of room and of messages, and the messages, in order. It can
/// hold at most as many as the greatest count of a semaphore.
#[derive(Drop)]
pub struct PortQueue {
    /// How many messages it can hold.
    pub first_count: u32,
    /// The semaphore of the room that is left.
    pub send: Sem,
    /// The semaphore of the messages.
    pub receive: Sem,
    /// The messages.
    pub messages: Vec<u32>,
}

impl Model for PortQueue {
    ghost use Rattle.std.specs.Prelude.{◌≤◌};
    ghost use Rattle.xinu_model.specs.Ports.Queues as model;

    ghost Value = { model.PortQueue };

    ghost view = { λ q. record { first_count = q.first_count; send = q.send; receive = q.receive; messages = q.messages.items } };

    ghost invariant = { λ q. q.first_count ≤ 2147483647 };
}

/// A port: a number that rises each time the port is made, reset or deleted, and its queue if it is in use.
#[derive(Drop)]
pub struct MessagePort {
    /// Its sequence number.
    pub seq: u32,
    /// Its queue.
    pub queue: Option<PortQueue>,
}

impl Model for MessagePort {
    ghost use Rattle.xinu_model.specs.Ports.Queues as model;

    ghost Value = { model.MessagePort };

    ghost view = { λ p. record { seq = p.seq; queue = p.queue } };
}
