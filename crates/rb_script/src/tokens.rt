//! Parsing a head: its name and arguments.

ghost use Rattle.std.specs.Prelude.{◌≡◌, ◌<◌, ◌≤◌, ◌^◌, ◌++◌, ◌∷◌, ℕ, List, [], length, IfOk, option_map};
ghost use Rattle.std.specs.List.{AllByRecursion};
ghost use Rattle.rb_script.specs.Lines.{Line};
ghost use Rattle.rb_script.specs.Flat.{between};
ghost use Rattle.rb_script.specs.Valid.{IsLine};
ghost use Rattle.rb_script.specs.Joined.{joined};
ghost use Rattle.rb_script.specs.Directive.{PlainArgument};
ghost use Rattle.rb_script.specs.Heads.{list_at, values_at, argument_at, arguments_at, few_or, head_at};
ghost use Rattle.rb_script.specs.Parsed.{with_one, KeepsArgument, KeepsArguments, ParsesValues, ParsesArgument, ParsesArguments, ParsesHead};
ghost use Rattle.rb_script.specs.declared.tokens.HeadFault.TheVariants.{OutOfMemory};

use crate::argument::ArgumentSpans;
use crate::fault::ScriptFault;
use crate::head_cursor::{ByteClass, HeadCursor};
use crate::limits::{MAX_ARGUMENTS, MAX_VALUES};
use crate::line_part::LinePart;
use crate::marks::is_space;
use crate::shared_lines::SharedLines;
use crate::span::Span;
use smallvec::SmallVec;
use std::alloc::{AllocError, AllocFailed, Global};

/// The spans of a head's name and arguments.
#[derive(Drop)]
pub(crate) struct Tokens {
    pub(crate) name: Span,
    // most heads have one argument
    pub(crate) args: SmallVec<ArgumentSpans, 1>,
}

/// Why a head can't be parsed.
#[derive(Clone, Copy)]
pub(crate) enum HeadFault {
    /// It isn't in the grammar.
    Bad,
    /// There was no memory.
    OutOfMemory,
}

impl From<AllocError> for HeadFault {
    ghost from_gives = { λ _ e. e ≡ OutOfMemory };

    fn from(_e: AllocError) -> HeadFault {
        HeadFault::OutOfMemory
    }
}

impl<T: Drop> From<AllocFailed<T>> for HeadFault {
    ghost from_gives = { λ _ e. e ≡ OutOfMemory };

    fn from(_e: AllocFailed<T>) -> HeadFault {
        HeadFault::OutOfMemory
    }
}

// Appends an item, or returns `None` if there are too many: so a head of a million arguments needs no memory for them. The first
// item reserves room for itself only, since most lists of a head have one item.
fn with_item<T: Drop>(
    items: Option<Vec<T>>,
    item: T,
    most: usize,
) -> Result<Option<Vec<T>>, AllocError>
    ensures { IfOk result (λ r. option_map (λ v. v.items) r ≡ with_one most (option_map (λ v. v.items) items) item) }
{
    match items {
        Some(mut items) if items.len() < most => {
            if items.is_empty() {
                items.reserve_exact(1)?;
            }
            items.push(item)?;
            Ok(Some(items))
        }
        _ => Ok(None),
    }
}

// Parses the values to the closing parenthesis, or returns `None` if there are too many.
fn list(alloc: Global, at: &mut HeadCursor<'_>) -> Result<Option<Vec<Span>>, HeadFault>
    ensures gives { ParsesValues at.old.head result at.new.left (list_at at.old.left) }
    ensures head { at.new.head ≡ at.old.head }
{
    let mut found = Some(Vec::new(alloc));
    loop {
        at.skip(ByteClass::Gap);
        let Some(b) = at.peek() else {
            return Err(HeadFault::Bad);
        };
        if b == b'(' {
            return Err(HeadFault::Bad);
        }
        if b == b')' {
            at.advance();
            return Ok(found);
        }
        let value = at.take(ByteClass::Piece);
        found = with_item(found, value, MAX_VALUES)?;
    }
}

// Parses the values after an `=`, within parentheses or one without. Returns `None` if there are too many.
#[tactic(auto, unfolding(crate::specs::Heads::values_at))]
fn values(alloc: Global, at: &mut HeadCursor<'_>) -> Result<Option<Vec<Span>>, HeadFault>
    ensures gives { ParsesValues at.old.head result at.new.left (values_at at.old.left) }
    ensures head { at.new.head ≡ at.old.head }
{
    if let Some(b'(') = at.peek() {
        at.advance();
        return list(alloc, at);
    }
    let mut found = Vec::with_capacity(alloc, 1)?;
    found.push(at.take(ByteClass::Value))?;
    Ok(Some(found))
}

// Parses an argument, or returns `None` if it has too many values.
#[tactic(auto, unfolding(crate::specs::Heads::argument_at, crate::specs::Heads::after_key))]
fn argument(alloc: Global, at: &mut HeadCursor<'_>) -> Result<Option<ArgumentSpans>, HeadFault>
    ensures gives { ParsesArgument at.old.head result at.new.left (argument_at at.old.left) }
    ensures head { at.new.head ≡ at.old.head }
{
    let key = at.take(ByteClass::Word);
    if key.start == key.end {
        return Err(HeadFault::Bad);
    }
    let Some(b'=') = at.peek() else {
        return Ok(Some(ArgumentSpans {
            key,
            has_equals: false,
            values: Vec::new(alloc),
        }));
    };
    at.advance();
    match values(alloc, at)? {
        Some(mut values) => {
            values.shrink_to_fit();
            Ok(Some(ArgumentSpans {
                key,
                has_equals: true,
                values,
            }))
        }
        None => Ok(None),
    }
}

// Appends an argument, or returns `None` if there are too many. The first one needs no allocation.
fn with_one_more(
    found: Option<SmallVec<ArgumentSpans, 1>>,
    argument: ArgumentSpans,
) -> Result<Option<SmallVec<ArgumentSpans, 1>>, AllocError>
    ensures { IfOk result (λ r. option_map (λ v. v.items) r ≡ with_one MAX_ARGUMENTS (option_map (λ v. v.items) found) argument) }
{
    match found {
        Some(mut items) if items.len() < MAX_ARGUMENTS => {
            items.push(argument)?;
            Ok(Some(items))
        }
        _ => Ok(None),
    }
}

// Does the same, also with `None` for an argument with too many values.
fn with_argument(
    found: Option<SmallVec<ArgumentSpans, 1>>,
    argument: Option<ArgumentSpans>,
) -> Result<Option<SmallVec<ArgumentSpans, 1>>, AllocError>
    ensures { IfOk result (λ r. (head : List Line) (so_far : List PlainArgument) (a : PlainArgument) →
        KeepsArguments head found so_far → KeepsArgument head argument a → KeepsArguments head r (so_far ++ a ∷ [])) }
{
    match argument {
        Some(argument) => with_one_more(found, argument),
        None => Ok(None),
    }
}

// Parses the arguments to the end of the head, or returns `None` if there are too many, or too many values.
fn arguments(
    alloc: Global,
    at: &mut HeadCursor<'_>,
) -> Result<Option<SmallVec<ArgumentSpans, 1>>, HeadFault>
    ensures gives { ParsesArguments at.old.head result (arguments_at (length at.old.left) at.old.left) }
{
    let mut found = Some(SmallVec::new(alloc));
    loop {
        let first = at.peek();
        at.skip(ByteClass::Space);
        if at.peek().is_none() {
            return Ok(found);
        }
        match first {
            Some(b) if is_space(b) => {
                let argument = argument(alloc, at)?;
                found = with_argument(found, argument)?;
            }
            _ => return Err(HeadFault::Bad),
        }
    }
}

/// Parses the head from line `start` to line `end`. `number` is its line number in faults.
#[tactic(auto, unfolding(crate::specs::Heads::head_at, crate::specs::Heads::word_head))]
pub(crate) fn tokens_of(
    alloc: Global,
    all: &SharedLines,
    start: usize,
    end: usize,
    number: usize,
) -> Result<Tokens, ScriptFault>
    requires there { start < end }
    requires within { end ≤ length all.now }
    requires few { end < 2 ^ 32 }
    requires lines { AllByRecursion IsLine (between start end all.now) }
    ensures gives { ParsesHead (between start end all.now) result (few_or number (head_at (joined (between start end all.now)))) }
{
    let head = LinePart::new(all, start, end)?;
    let mut at = HeadCursor::new(&head);
    at.skip(ByteClass::Space);
    let name = at.take(ByteClass::Word);
    if name.start == name.end {
        return Err(ScriptFault::BadLine(number));
    }
    match arguments(alloc, &mut at) {
        Ok(Some(args)) => Ok(Tokens { name, args }),
        Ok(None) => Err(ScriptFault::TooManyArguments(number)),
        Err(HeadFault::Bad) => Err(ScriptFault::BadLine(number)),
        Err(HeadFault::OutOfMemory) => Err(ScriptFault::OutOfMemory),
    }
}
