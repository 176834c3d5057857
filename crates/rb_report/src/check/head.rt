//! A directive's head, on one line.

ghost use Rattle.std.specs.Prelude.{◌≡◌, ◌<◌, IsOk, length};
ghost use Rattle.rb_script.specs.Directive.{plain_argument};
ghost use Rattle.rb_script.specs.Tokens.{plain};
ghost use Rattle.rb_script.specs.Writes.{Writes};
ghost use Rattle.rb_report.specs.Heads.{before_value, listed, values_text, argument_text, arguments_text, head_text};

use crate::check::piece::{ReportPiece, put_pieces};
use rb_script::{DirectiveRef, Sink, WriteFault};

// The text before the value at an index.
fn before_value(index: usize) -> &'static [u8]
    ensures { result.now ≡ before_value index }
{
    if index == 0 { b"" } else { b"," }
}

// Writes the values of an argument, separated by commas.
fn put_listed<S: Sink>(
    sink: &mut S,
    directive: &DirectiveRef<'_>,
    argument: usize,
) -> Result<(), WriteFault>
    requires { argument < length (plain directive.now).args }
    ensures wrote { Writes result (S.held sink.old) (S.held sink.new) (listed 0 (plain_argument (plain directive.now) argument).values) }
    ensures all { S.takes_all sink.old → IsOk result × S.takes_all sink.new }
{
    for i in 0..directive.values(argument) {
        put_pieces(
            sink,
            &[
                ReportPiece::Bytes(before_value(i)),
                ReportPiece::Bytes(directive.value(argument, i)),
            ],
        )?;
    }
    Ok(())
}

// Writes the text after the `=` of an argument.
fn put_values<S: Sink>(
    sink: &mut S,
    directive: &DirectiveRef<'_>,
    argument: usize,
) -> Result<(), WriteFault>
    requires { argument < length (plain directive.now).args }
    ensures wrote { Writes result (S.held sink.old) (S.held sink.new) (values_text (plain_argument (plain directive.now) argument).values) }
    ensures all { S.takes_all sink.old → IsOk result × S.takes_all sink.new }
{
    if directive.values(argument) == 1 {
        return sink.put(directive.value(argument, 0));
    }
    sink.put(b"(")?;
    put_listed(sink, directive, argument)?;
    sink.put(b")")
}

// Writes an argument, after a blank.
fn put_argument<S: Sink>(
    sink: &mut S,
    directive: &DirectiveRef<'_>,
    argument: usize,
) -> Result<(), WriteFault>
    requires { argument < length (plain directive.now).args }
    ensures wrote { Writes result (S.held sink.old) (S.held sink.new) (argument_text (plain_argument (plain directive.now) argument)) }
    ensures all { S.takes_all sink.old → IsOk result × S.takes_all sink.new }
{
    let key = directive.key(argument);
    if !directive.has_equals(argument) {
        return put_pieces(sink, &[ReportPiece::Bytes(b" "), ReportPiece::Bytes(key)]);
    }
    put_pieces(
        sink,
        &[
            ReportPiece::Bytes(b" "),
            ReportPiece::Bytes(key),
            ReportPiece::Bytes(b"="),
        ],
    )?;
    put_values(sink, directive, argument)
}

// Writes the arguments, each after a blank.
fn put_arguments<S: Sink>(sink: &mut S, directive: &DirectiveRef<'_>) -> Result<(), WriteFault>
    ensures wrote { Writes result (S.held sink.old) (S.held sink.new) (arguments_text (plain directive.now).args) }
    ensures all { S.takes_all sink.old → IsOk result × S.takes_all sink.new }
{
    for i in 0..directive.args() {
        put_argument(sink, directive, i)?;
    }
    Ok(())
}

/// Writes the name and the arguments. On a failure a beginning of the text was written.
pub fn put_head<S: Sink>(sink: &mut S, directive: &DirectiveRef<'_>) -> Result<(), WriteFault>
    ensures wrote { Writes result (S.held sink.old) (S.held sink.new) (head_text (plain directive.now)) }
    ensures all { S.takes_all sink.old → IsOk result × S.takes_all sink.new }
{
    sink.put(directive.name())?;
    put_arguments(sink, directive)
}
