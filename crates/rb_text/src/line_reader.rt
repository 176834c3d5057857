//! Reading a source line by line.

ghost use Rattle.std.specs.Prelude.{◌≡◌, ◌+◌, ◌<◌, ◌≤◌, ◌++◌, ℕ, List, Option, [], Ok, false, length, IsOk, IfOk, OnOk, OnErr};
ghost use Rattle.std.specs.Io.KnownBytes.{Keeps};
ghost use Rattle.rb_text.specs.Begun.{Holds};
ghost use Rattle.rb_text.specs.Left.{calls_of, left_of, line_of};
ghost use Rattle.rb_text.specs.Given.{GivesNext};
ghost use Rattle.rb_text.specs.Asked.{GoesOn, HasCallsFor, Stops, size_of, wanted};
ghost use Rattle.rb_text.specs.Taken.{StopsInLine, TakesNext};
ghost use Rattle.rb_text.specs.Pushing.{Takes};

use crate::input_buffer::InputBuffer;
use crate::{InputFault, LineBuffer, PushByte, Source};
use std::alloc::{AllocError, Global};

/// The result of reading a line.
#[derive(Clone, Copy, Debug, PartialEq, Eq)]
pub enum Next {
    /// A line. [`LineReader::line`] returns it.
    Line,
    /// A line that is too long. The next call would read the rest of it.
    TooLong,
    /// The end of the source.
    End,
}

/// Reads the lines of a source, one at a time.
#[derive(Drop)]
pub struct LineReader {
    line: LineBuffer,
    unread: InputBuffer,
    calls: u64,
    has_ended: bool,
}

impl LineReader {
    /// Allocates room for the longest line. The source is called at most `calls` times; a further call counts as a failure.
    ///
    /// # Errors
    ///
    /// If there is no memory. No other call allocates.
    pub fn new(alloc: Global, calls: u64) -> Result<LineReader, AllocError>
        ensures left { IfOk result (λ lines. (known : Option (List ℕ)) → left_of lines known ≡ known) }
        ensures calls { IfOk result (λ lines. calls_of lines ≡ calls) }
        ensures wanted { IfOk result (λ lines. (bytes : List ℕ) → wanted lines bytes ≡ length bytes + 1) }
    {
        let line = LineBuffer::new(alloc)?;
        Ok(LineReader {
            line,
            unread: InputBuffer::new(),
            calls,
            has_ended: false,
        })
    }

    /// Reads the next line. Pass the same source to each call. After its end, the source isn't called again.
    ///
    /// # Errors
    ///
    /// At the first error of the source, also an interrupted call, and if no calls are left. A partial line is lost.
    pub fn next<S: Source>(&mut self, source: &mut S) -> Result<Next, InputFault>
        ensures given { IfOk result (λ next. GivesNext next (left_of self.old (S.left source.old))
            (left_of self.new (S.left source.new)) (line_of self.new)) }
        ensures failed { OnErr result (StopsInLine self.old (S.left source.old) (S.left source.new)) }
        // A line is consumed up to its end, and nothing of the next one.
        ensures takes { IfOk result (λ next. TakesNext next self.old self.new (S.left source.old) (S.left source.new)) }
        // The number of calls of the source: they are counted, and at most as many as the bytes require.
        ensures goes { OnOk result (GoesOn self.old self.new (S.left source.old) (S.left source.new) (S.asked source.old) (S.asked source.new)) }
        ensures stops { OnErr result (Stops self.old (S.left source.old) (S.asked source.old) (S.asked source.new)) }
        ensures smaller { result ≡ Ok Next.Line → size_of self.new < size_of self.old }
        // With a source that never fails, it fails only if no calls are left.
        ensures all { S.gives_all source.old → HasCallsFor self.old (S.left source.old) → IsOk result × S.gives_all source.new }
    {
        self.line.clear();
        while !self.has_ended {
            match take_line(&mut self.line, &mut self.unread) {
                PushByte::Continue => self.refill(source)?,
                PushByte::EndOfLine => return Ok(Next::Line),
                PushByte::TooLong => return Ok(Next::TooLong),
            }
        }
        if self.line.is_empty() {
            Ok(Next::End)
        } else {
            Ok(Next::Line)
        }
    }

    /// The last line, without its end.
    pub fn line(&self) -> &[u8]
        ensures { result.now ≡ line_of self.now }
    {
        self.line.line()
    }

    // Calls the source once more, if a call is left.
    fn refill<S: Source>(&mut self, source: &mut S) -> Result<(), InputFault>
        requires taken { self.old.unread ≡ [] }
        requires going { self.old.has_ended ≡ false }
        ensures counted { OnOk result (self.new.calls < self.old.calls) }
        ensures line { self.new.line ≡ self.old.line }
        ensures left { Keeps (left_of self.old (S.left source.old)) (left_of self.new (S.left source.new)) }
        ensures spent { OnErr result ((self.new.unread ≡ []) × (self.new.has_ended ≡ false)) }
        ensures goes { OnOk result (GoesOn self.old self.new (S.left source.old) (S.left source.new) (S.asked source.old) (S.asked source.new)) }
        ensures smaller { OnOk result (size_of self.new < size_of self.old) }
        ensures stops { OnErr result (Stops self.old (S.left source.old) (S.asked source.old) (S.asked source.new)) }
        ensures all { S.gives_all source.old → HasCallsFor self.old (S.left source.old) → IsOk result × S.gives_all source.new }
    {
        if self.calls == 0 {
            return Err(InputFault);
        }
        self.calls -= 1;
        self.unread.fill(source)?;
        self.has_ended = self.unread.is_empty();
        Ok(())
    }
}

// Pushes the line what is unread, up to its end.
fn take_line(line: &mut LineBuffer, unread: &mut InputBuffer) -> PushByte
    ensures { (begun : List ℕ) → Holds begun line.old → Takes result begun unread.old unread.new line.new }
{
    while let Some(byte) = unread.take_next() {
        match line.push(byte) {
            PushByte::Continue => {}
            PushByte::EndOfLine => return PushByte::EndOfLine,
            PushByte::TooLong => return PushByte::TooLong,
        }
    }
    PushByte::Continue
}
