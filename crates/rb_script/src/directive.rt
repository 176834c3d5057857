//! The directive of a block.

use crate::argument::ArgumentSpans;
use crate::front::Front;
use crate::span::Span;
use std::marker::Model;

/// The directive of a block: a name, arguments and input lines. A name, key or value is a slice of one line of the head.
/// Arguments and values are counted from 0.
#[derive(Drop)]
pub struct DirectiveRef<'a> {
    front: &'a Front,
}

impl<'a> Model for DirectiveRef<'a> {
    ghost use Rattle.rb_script.specs.Tokens.{SpannedDirective};

    ghost Value = { SpannedDirective };

    ghost use Rattle.rb_script.specs.Fronts.{directive_of_front};
    ghost use Rattle.rb_script.specs.Spans.{IsSpanned};

    ghost view = { λ d. directive_of_front d.front.now };

    ghost invariant = { λ d. IsSpanned (directive_of_front d.front.now) };
}

impl<'a> DirectiveRef<'a> {
    ghost use Rattle.std.specs.Prelude.{◌≡◌, ◌<◌, ◌↔◌, IsTrue, Some, length, slice_get};
    ghost use Rattle.rb_script.specs.Directive.{plain_argument, plain_value};
    ghost use Rattle.rb_script.specs.Tokens.{SpannedDirective, token, plain, argument_of, IsPart};
    ghost use Rattle.rb_script.specs.Spans.{IsSpanned, argument_at, value_span};
    ghost use Rattle.rb_script.specs.Parsed.{spanned, AreParts};
    ghost use Rattle.rb_script.specs.Fronts.{directive_of_front};

    // The directive of the lines above an expectation.
    pub(crate) fn new(front: &'a Front) -> DirectiveRef<'a>
        requires { IsSpanned (directive_of_front front.now) }
        ensures { result ≡ directive_of_front front.now }
    {
        DirectiveRef { front }
    }

    /// The name.
    pub fn name(&self) -> &'a [u8]
        ensures name { result.now ≡ token self.now.head self.now.name }
        ensures part { IsPart self.now.head self.now.name }
    {
        self.text(self.front.name())
    }

    /// The number of arguments.
    pub fn args(&self) -> usize
        ensures { result ≡ length (plain self.now).args }
    {
        self.front.arguments().len()
    }

    /// The key of argument `i`.
    pub fn key(&self, i: usize) -> &'a [u8]
        requires { i < length (plain self.now).args }
        ensures plain { result.now ≡ (plain_argument (plain self.now) i).key }
        ensures key { result.now ≡ token self.now.head (argument_at self.now i).key }
        ensures part { IsPart self.now.head (argument_at self.now i).key }
    {
        self.text(self.argument(i).key)
    }

    /// Whether argument `i` has an `=`.
    pub fn has_equals(&self, i: usize) -> bool
        requires { i < length (plain self.now).args }
        ensures { result ≡ (plain_argument (plain self.now) i).has_equals }
    {
        self.argument(i).has_equals
    }

    /// The number of values of argument `i`: one for `key=value`, any number for `key=(..)`.
    pub fn values(&self, i: usize) -> usize
        requires { i < length (plain self.now).args }
        ensures { result ≡ length (plain_argument (plain self.now) i).values }
    {
        self.argument(i).values.len()
    }

    /// Value `j` of argument `i`.
    pub fn value(&self, i: usize, j: usize) -> &'a [u8]
        requires argument { i < length (plain self.now).args }
        requires value { j < length (plain_argument (plain self.now) i).values }
        ensures plain { result.now ≡ plain_value (plain_argument (plain self.now) i) j }
        ensures value { result.now ≡ token self.now.head (value_span self.now i j) }
        ensures part { IsPart self.now.head (value_span self.now i j) }
    {
        self.text(self.argument(i).values[j])
    }

    /// The number of input lines.
    pub fn inputs(&self) -> usize
        ensures { result ≡ length self.now.inputs }
    {
        self.front.inputs()
    }

    /// Input line `i`.
    pub fn input(&self, i: usize) -> &'a [u8]
        requires { i < length self.now.inputs }
        ensures { slice_get self.now.inputs i ≡ Some result.now }
    {
        self.front.input_line(i)
    }

    // The positions of the tokens of argument `i`.
    fn argument(&self, i: usize) -> &'a ArgumentSpans
        requires { i < length (plain self.now).args }
        ensures same { spanned result.now ≡ argument_at self.now i }
        ensures plain { argument_of self.now.head (spanned result.now) ≡ plain_argument (plain self.now) i }
        ensures parts { AreParts self.now.head (spanned result.now) }
    {
        let args = self.front.arguments();
        &args[i]
    }

    // The bytes of a token.
    fn text(&self, span: Span) -> &'a [u8]
        requires { IsPart self.now.head span }
        ensures { result.now ≡ token self.now.head span }
    {
        &self.front.head_line(span.line as usize)[span.start as usize..span.end as usize]
    }
}
