//! The second pass: each line is judged and its bytes are put, with the labels of all lines known.

ghost use Rattle.std.specs.Prelude.{◌≡◌, ◌≤◌, ◌++◌, length, unwrap_or, if◌then◌else◌, Option, Some, None, OnOk, IfOk, IfErr};
ghost use Rattle.asm_syntax.specs.CodeStatements.{seen_statement, IsProper};
ghost use Rattle.asm_syntax.specs.Statements.{line_of};
ghost use Rattle.rv_asm.specs.Assembly.{bytes_at, content, lines_in};
ghost use Rattle.rv_asm.specs.CodeAssembly.{IsFirst};
ghost use Rattle.rv_asm.specs.CodeLabels.{found};
ghost use Rattle.rv_asm.specs.CodeLayouts.{seen_layout};
ghost use Rattle.rv_asm.specs.Faults.{fault_of, fault_or, first_fault, astray_at, first_astray};
ghost use Rattle.rv_asm.specs.Layouts.{start, after, after_statement};

use crate::bytes::push_statement;
use crate::faults::AsmFault;
use crate::judging::{fault_in, is_astray};
use crate::layouts::Layout;
use asm_syntax::{Statement, statement_in};
use std::alloc::Global;
use text_lines::first_line;

/// What the lines so far have given.
#[derive(Drop)]
pub(crate) struct Pass<'a> {
    /// What they have set.
    layout: Layout<'a>,
    /// Their bytes.
    pub(crate) content: Vec<u8>,
    /// The first fault of an offset or an entry.
    pub(crate) astray: Option<AsmFault>,
}

impl<'a> Pass<'a> {
    // Takes a line, given what all lines set.
    fn take(&mut self, all: &Layout<'_>, number: u32, line: &'a [u8]) -> Result<(), AsmFault>
        ensures fault { IfErr result (λ fault. IsFirst fault (fault_of (found all.now.labels) number (line_of line.now) (seen_layout self.old.layout))) }
        ensures sound { OnOk result (fault_of (found all.now.labels) number (line_of line.now) (seen_layout self.old.layout) ≡ None) }
        ensures layout { OnOk result (seen_layout self.new.layout ≡ after (line_of line.now) (seen_layout self.old.layout)) }
        ensures content { OnOk result (self.new.content.items ≡ self.old.content.items ++ bytes_at (found all.now.labels) self.old.layout.at (line_of line.now).statement) }
        ensures astray { OnOk result (self.new.astray ≡ fault_or self.old.astray (astray_at (found all.now.labels) (unwrap_or all.now.place 0) all.now.at number self.old.layout.at (line_of line.now).statement)) }
    {
        let (double, rest) = self.layout.take_labels(line)?;
        let statement = statement_in(rest);
        match fault_in(&all.labels, number, &statement, double, &self.layout) {
            Some(fault) => Err(fault),
            None => self.put(all, number, &statement),
        }
    }

    // Puts the bytes of a statement.
    fn put(
        &mut self,
        all: &Layout<'_>,
        number: u32,
        statement: &Statement<'a>,
    ) -> Result<(), AsmFault>
        requires proper { IsProper statement.now }
        ensures memory { IfErr result (λ fault. fault ≡ AsmFault.NoMemory) }
        ensures layout { OnOk result (seen_layout self.new.layout ≡ after_statement (seen_statement statement.now) (seen_layout self.old.layout)) }
        ensures content { OnOk result (self.new.content.items ≡ self.old.content.items ++ bytes_at (found all.now.labels) self.old.layout.at (seen_statement statement.now)) }
        ensures astray { OnOk result (self.new.astray ≡ fault_or self.old.astray (astray_at (found all.now.labels) (unwrap_or all.now.place 0) all.now.at number self.old.layout.at (seen_statement statement.now))) }
    {
        let at = self.layout.at;
        let is_late = is_astray(&all.labels, all.place.unwrap_or(0), all.at, at, statement);
        self.astray = first(self.astray, is_late, number);
        push_statement(&mut self.content, &all.labels, at, statement)?;
        self.layout.take(statement);
        Ok(())
    }
}

// The first of these faults, given whether line k has one.
fn first(fault: Option<AsmFault>, astray: bool, number: u32) -> Option<AsmFault>
    ensures first { result ≡ fault_or fault (if astray then Some (AsmFault.OutOfRange number) else None) }
{
    match fault {
        Some(fault) => Some(fault),
        None => {
            if astray {
                Some(AsmFault::OutOfRange(number))
            } else {
                None
            }
        }
    }
}

/// Takes the lines of a text one after another, given what all of them set.
pub(crate) fn run_over<'a>(
    alloc: Global,
    all: &Layout<'_>,
    text: &'a [u8],
) -> Result<Pass<'a>, AsmFault>
    requires { length text.now ≤ 4294967294 }
    ensures fault { IfErr result (λ fault. IsFirst fault (first_fault (found all.now.labels) 1 (lines_in text.now) start)) }
    ensures sound { OnOk result (first_fault (found all.now.labels) 1 (lines_in text.now) start ≡ None) }
    ensures content { IfOk result (λ pass. pass.content.items ≡ content (found all.now.labels) (lines_in text.now) start) }
    ensures astray { IfOk result (λ pass. pass.astray ≡ first_astray (found all.now.labels) (unwrap_or all.now.place 0) all.now.at 1 (lines_in text.now) start) }
{
    let mut pass = Pass {
        layout: Layout::new(alloc),
        content: Vec::new(alloc),
        astray: None,
    };
    let mut number = 0;
    let mut rest = text;
    while !rest.is_empty() {
        let (line, next) = first_line(rest);
        number += 1;
        pass.take(all, number, line)?;
        rest = next;
    }
    Ok(pass)
}
