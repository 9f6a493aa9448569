//! How the statements of a text lie one after another.

ghost use Rattle.std.specs.Prelude.{◌≡◌, ◌∷◌, ◌||◌, [], is_some, Some, None, OnOk, IfOk};
ghost use Rattle.asm_syntax.specs.CodeStatements.{seen_statement, IsProper};
ghost use Rattle.asm_syntax.specs.Statements.{line_of, said, said_line, statement_of};
ghost use Rattle.asm_syntax.specs.Tokens.{tokens_of};
ghost use Rattle.rv_asm.specs.CodeLabels.{found};
ghost use Rattle.rv_asm.specs.CodeLayouts.{seen_layout};
ghost use Rattle.rv_asm.specs.Assembly.{lines_in};
ghost use Rattle.rv_asm.specs.Faults.{is_double};
ghost use Rattle.rv_asm.specs.Layouts as spec;

use crate::labels::Labels;
use crate::sizes::{is_content, size_at};
use asm_syntax::{Statement, first_label, statement_in};
use std::alloc::{AllocError, Global};
use text_lines::first_line;

/// The least address that is kept no greater: all beyond RAM are alike.
const BEYOND: u64 = 0x1_0000_0000;

/// What the lines so far have set.
#[derive(Drop)]
pub struct Layout<'a> {
    /// The place of the content.
    pub place: Option<u64>,
    /// The label at which the process begins.
    pub entry: Option<&'a [u8]>,
    /// The priority of the process.
    pub priority: Option<u64>,
    /// The size of its stack.
    pub stack: Option<u64>,
    /// The labels.
    pub labels: Labels<'a>,
    /// Whether there was a label or content.
    pub begun: bool,
    /// The address that comes next.
    pub at: u64,
}

impl<'a> Layout<'a> {
    /// Before the first line.
    pub fn new(alloc: Global) -> Layout<'a>
        ensures start { seen_layout result ≡ spec.start }
    {
        Layout {
            place: None,
            entry: None,
            priority: None,
            stack: None,
            labels: Labels::new(alloc),
            begun: false,
            at: 0,
        }
    }

    /// Adds the labels of a line. Answers whether one of them was there already, and the line after them.
    pub fn take_labels(&mut self, line: &'a [u8]) -> Result<(bool, &'a [u8]), AllocError>
        ensures layout { OnOk result (seen_layout self.new ≡ spec.after_labels (line_of line.now).labels (seen_layout self.old)) }
        ensures double { IfOk result (λ taken. taken.0 ≡ is_double (line_of line.now).labels self.old.at (found self.old.labels)) }
        ensures said { IfOk result (λ taken. said (tokens_of taken.1.now) ≡ said_line (tokens_of line.now)) }
        ensures statement { IfOk result (λ taken. statement_of (tokens_of taken.1.now) ≡ (line_of line.now).statement) }
    {
        let mut double = false;
        let mut rest = line;
        while let Some((name, next)) = first_label(rest) {
            let known = self.label(name)?;
            double = double || known;
            rest = next;
        }
        Ok((double, rest))
    }

    /// Adds a label, and answers whether it was there already.
    pub fn label(&mut self, name: &'a [u8]) -> Result<bool, AllocError>
        ensures layout { OnOk result (seen_layout self.new ≡ spec.after_labels (name.now ∷ []) (seen_layout self.old)) }
        ensures known { IfOk result (λ known. known ≡ is_some (found self.old.labels name.now)) }
    {
        let known = self.labels.address(name).is_some();
        self.labels.push(name, self.at)?;
        self.begun = true;
        Ok(known)
    }

    /// Adds a statement, which is a proper one, as a line has it.
    pub fn take(&mut self, statement: &Statement<'a>)
        requires proper { IsProper statement.now }
        ensures layout { seen_layout self.new ≡ spec.after_statement (seen_statement statement.now) (seen_layout self.old) }
    {
        match statement {
            Statement::Place(n) => {
                self.place = Some(*n);
                self.at = (*n).min(BEYOND);
            }
            Statement::Entry(label) => self.entry = Some(*label),
            Statement::Priority(n) => self.priority = Some(*n),
            Statement::Stack(n) => self.stack = Some(*n),
            _ => {
                let size = size_at(self.at, statement);
                self.begun = self.begun || is_content(statement);
                self.at = self.at.saturating_add(size).min(BEYOND);
            }
        }
    }
}

/// What all lines of a text set.
pub fn lay_out<'a>(alloc: Global, text: &'a [u8]) -> Result<Layout<'a>, AllocError>
    ensures layout { IfOk result (λ layout. seen_layout layout ≡ spec.after_all (lines_in text.now) spec.start) }
{
    let mut layout = Layout::new(alloc);
    let mut rest = text;
    while !rest.is_empty() {
        let (line, next) = first_line(rest);
        let (_, behind) = layout.take_labels(line)?;
        layout.take(&statement_in(behind));
        rest = next;
    }
    Ok(layout)
}
