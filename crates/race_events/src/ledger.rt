//! Who gave what is still to be taken, and who died: the names of the clocks of those parts.

use crate::names::Names;
use crate::tokens::Tokens;
use event_acts::{
    Ahead, absent, dies, is_remade, is_renewed, is_sent, semaphore_of, takes_message,
};
use kernel_state::KernelState;
use race_detector::{Detector, Known};
use std::alloc::{AllocError, Global};
use std::collections::{BTreeMap, VecDeque};
use xinu_base::{Pid, PoolId, Port, Sem};

/// The names of the clocks of those who die in an event, by their numbers.
pub(crate) type Dead = [Option<usize>; 64];

/// Who gave what is still to be taken.
#[derive(Drop)]
pub(crate) struct Ledger {
    /// The names.
    pub(crate) names: Names,
    // Of each semaphore who gave its tokens.
    tokens: Vec<Tokens>,
    // Of each process who put the message that it holds.
    messages: Vec<Vec<usize>>,
    // Of each port who put its messages, in order.
    ports: Vec<VecDeque<usize>>,
    // Of each buffer, by its address, who gave it back, or made it.
    buffers: BTreeMap<u32, usize>,
    // Of each number in which part its last process died.
    deaths: Dead,
}

impl Ledger {
    /// Nothing was given, and nobody died.
    ///
    /// # Errors
    /// Out of memory.
    pub(crate) fn new(alloc: Global) -> Result<Ledger, AllocError> {
        let mut tokens = Vec::new(alloc);
        for _ in 0..128 {
            tokens.push(Tokens::new(alloc))?;
        }
        let mut messages = Vec::new(alloc);
        for _ in 0..64 {
            messages.push(Vec::new(alloc))?;
        }
        let mut ports = Vec::new(alloc);
        for _ in 0..30 {
            ports.push(VecDeque::new(alloc))?;
        }
        Ok(Ledger {
            names: Names::new(alloc),
            tokens,
            messages,
            ports,
            buffers: BTreeMap::new(alloc),
            deaths: [None; 64],
        })
    }

    /// The edges to the process that steps, from those who gave what it takes, and who died if it is told that their number is free.
    ///
    /// # Errors
    /// Out of memory.
    pub(crate) fn learn(
        &self,
        known: &mut Vec<Known>,
        u: Pid,
        ahead: &Ahead,
        k: &KernelState,
    ) -> Result<(), AllocError> {
        if takes_message(ahead, k, u) {
            if let Some(names) = self.messages.get(u.index()) {
                for name in names {
                    known.push(known_to(u, *name))?;
                }
            }
        }
        self.learn_tokens(known, u, ahead, k)?;
        self.learn_ports(known, u, ahead, k)?;
        self.learn_buffers(known, u, ahead, k)?;
        if let Some(p) = absent(ahead) {
            if let Some(name) = self.deaths[p.index()] {
                known.push(known_to(u, name))?;
            }
        }
        Ok(())
    }

    // From those who gave the tokens that it takes.
    fn learn_tokens(
        &self,
        known: &mut Vec<Known>,
        u: Pid,
        ahead: &Ahead,
        k: &KernelState,
    ) -> Result<(), AllocError> {
        for sem in 0..128 {
            let was = &ahead.semaphores[sem];
            if !was.orders || is_remade(ahead, k, Sem::at(sem)) {
                continue;
            }
            let is = semaphore_of(k, Sem::at(sem)).tokens;
            if let Some(tokens) = self.tokens.get(sem) {
                tokens.learn(known, u.index(), was.tokens.saturating_sub(is))?;
            }
        }
        Ok(())
    }

    // From those who put the messages that it takes from ports.
    fn learn_ports(
        &self,
        known: &mut Vec<Known>,
        u: Pid,
        ahead: &Ahead,
        k: &KernelState,
    ) -> Result<(), AllocError> {
        for q in 0..30 {
            let was = ahead.ports[q].messages;
            let is = k.ports.messages_of(Port::at(q)).len();
            let Some(names) = self.ports.get(q) else {
                continue;
            };
            let taken = if is_renewed(ahead, k, Port::at(q)) {
                names.len()
            } else {
                was.saturating_sub(is)
            };
            for name in names.iter().take(taken) {
                known.push(known_to(u, *name))?;
            }
        }
        Ok(())
    }

    // From who gave back, or made, the buffer that it gets.
    fn learn_buffers(
        &self,
        known: &mut Vec<Known>,
        u: Pid,
        ahead: &Ahead,
        k: &KernelState,
    ) -> Result<(), AllocError> {
        for i in 0..k.pools.count() {
            if i >= ahead.count || k.pools.free_count(PoolId::at(i)) >= ahead.pools[i].free {
                continue;
            }
            if let Some(address) = ahead.pools[i].first {
                if let Some(name) = self.buffers.get(&address) {
                    known.push(known_to(u, *name))?;
                }
            }
        }
        Ok(())
    }

    /// Keeps the clocks of those who die in an event, but of who steps.
    ///
    /// # Errors
    /// Out of memory.
    pub(crate) fn keep_dead(
        &mut self,
        detector: &mut Detector,
        event: u32,
        u: Pid,
        ahead: &Ahead,
        k: &KernelState,
    ) -> Result<Dead, AllocError> {
        let mut dead: Dead = [None; 64];
        for w in 0..64 {
            let p = Pid::at(w);
            if w != u.index() && dies(ahead, k, p) {
                let name = self.names.keep(detector, event, p)?;
                dead[w] = Some(name);
            }
        }
        Ok(dead)
    }

    /// What was given in an event is noted, by the part of this name, and what was taken is no longer there.
    ///
    /// # Errors
    /// Out of memory.
    pub(crate) fn note(
        &mut self,
        own: usize,
        dead: &Dead,
        ahead: &Ahead,
        k: &KernelState,
    ) -> Result<(), AllocError> {
        self.note_messages(own, dead, ahead, k)?;
        self.note_tokens(own, ahead, k)?;
        self.note_ports(own, ahead, k)?;
        self.note_buffers(own, ahead, k)?;
        for w in 0..64 {
            if let Some(name) = dead[w] {
                self.names.add(name);
                if let Some(before) = self.deaths[w] {
                    self.names.release(before);
                }
                self.deaths[w] = Some(name);
            }
        }
        Ok(())
    }

    // Messages that are put for processes: by who steps and, if one tells of a death, by who dies.
    fn note_messages(
        &mut self,
        own: usize,
        dead: &Dead,
        ahead: &Ahead,
        k: &KernelState,
    ) -> Result<(), AllocError> {
        for p in 0..64 {
            if !is_sent(ahead, k, Pid::at(p)) {
                continue;
            }
            if let Some(names) = self.messages.get_mut(p) {
                for name in &*names {
                    self.names.release(*name);
                }
                names.clear();
                names.push(own)?;
                self.names.add(own);
                for w in 0..64 {
                    if let Some(name) = dead[w] {
                        if ahead.processes[w].parent.index() == p {
                            names.push(name)?;
                            self.names.add(name);
                        }
                    }
                }
            }
        }
        Ok(())
    }

    // Tokens of semaphores that order processes.
    fn note_tokens(
        &mut self,
        own: usize,
        ahead: &Ahead,
        k: &KernelState,
    ) -> Result<(), AllocError> {
        for sem in 0..128 {
            let was = &ahead.semaphores[sem];
            let is = semaphore_of(k, Sem::at(sem));
            if !was.orders && !is.orders {
                continue;
            }
            let Some(tokens) = self.tokens.get_mut(sem) else {
                continue;
            };
            if is_remade(ahead, k, Sem::at(sem)) {
                tokens.clear(&mut self.names);
                if is.orders {
                    tokens.put(own, is.tokens, &mut self.names)?;
                }
            } else {
                tokens.take(was.tokens.saturating_sub(is.tokens), &mut self.names);
                tokens.put(own, is.tokens.saturating_sub(was.tokens), &mut self.names)?;
            }
        }
        Ok(())
    }

    // Messages of ports.
    fn note_ports(&mut self, own: usize, ahead: &Ahead, k: &KernelState) -> Result<(), AllocError> {
        for q in 0..30 {
            let was = ahead.ports[q].messages;
            let is = k.ports.messages_of(Port::at(q)).len();
            let is_renewed = is_renewed(ahead, k, Port::at(q));
            let Some(names) = self.ports.get_mut(q) else {
                continue;
            };
            let taken = if is_renewed {
                names.len()
            } else {
                was.saturating_sub(is)
            };
            for _ in 0..taken {
                if let Some(name) = names.pop_front() {
                    self.names.release(name);
                }
            }
            if !is_renewed {
                for _ in 0..is.saturating_sub(was) {
                    names.push_back(own)?;
                    self.names.add(own);
                }
            }
        }
        Ok(())
    }

    // Buffers that are given back, or made.
    fn note_buffers(
        &mut self,
        own: usize,
        ahead: &Ahead,
        k: &KernelState,
    ) -> Result<(), AllocError> {
        for i in 0..k.pools.count() {
            let was = if i < ahead.count {
                ahead.pools[i].free
            } else {
                0
            };
            let is = k.pools.free_count(PoolId::at(i));
            for j in 0..is.saturating_sub(was) as usize {
                if let Some(address) = k.pools.free_at(PoolId::at(i), j) {
                    self.note_buffer(address, own)?;
                }
            }
        }
        Ok(())
    }

    // A buffer that is given back, or made.
    fn note_buffer(&mut self, address: u32, own: usize) -> Result<(), AllocError> {
        self.names.add(own);
        match self.buffers.insert(address, own) {
            Ok(Some(before)) => {
                self.names.release(before);
                Ok(())
            }
            Ok(None) => Ok(()),
            Err(_) => Err(AllocError),
        }
    }
}

// An edge to a process from the part whose clock has this name.
fn known_to(u: Pid, name: usize) -> Known {
    Known {
        process: u.index(),
        name,
    }
}
