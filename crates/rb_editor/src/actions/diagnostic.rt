//! Diagnostics.

use crate::actions::actual_output::ActualOutput;
use std::marker::Model;

/// The kind of a diagnostic.
#[derive(Clone, Copy, Debug, PartialEq, Eq)]
pub(crate) enum DiagnosticKind {
    /// The first mismatch of a script.
    Mismatch,
    /// A later mismatch, which the first may have caused.
    LaterMismatch,
    /// An expected output that is an error, without a comment that expects one.
    ErrorOutput,
    /// The text isn't a script.
    NoScript,
    /// The line looks like a mistake.
    Slip,
    /// The run of the text stopped at the line's directive, since it had done as much work as it may.
    Stopped,
}

/// A diagnostic of a line.
#[derive(Drop)]
pub(crate) struct Diagnostic {
    /// The line, which counts from 1.
    pub(crate) line: usize,
    /// Its kind.
    pub(crate) kind: DiagnosticKind,
    /// Its message.
    pub(crate) message: Vec<u8>,
    /// The actual output of a mismatch.
    pub(crate) came: Option<ActualOutput>,
}

impl Model for Diagnostic {
    ghost use Rattle.rb_editor.specs.Diagnostics.{PlainDiagnostic};

    ghost Value = { PlainDiagnostic };

    ghost view = { λ d. record { line = d.line; kind = d.kind; message = d.message.items; came = d.came } };
}
