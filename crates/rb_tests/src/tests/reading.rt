//! Outside examples of how heads and inputs are read: of most of what stands here a directive says no more than that it is wrong.

use super::{is, is_text};
use rb_script::{Block, DirectiveRef, Lines};
use std::alloc::Global;
use std::process::Abort;

fn add(rt: &impl Abort, text: &mut Vec<u8>, bytes: &[u8]) {
    text.extend_from_slice(bytes).expect(rt, "memory");
}

/// Adds argument `i`: its key, an `=` where it has one, and each value in brackets.
fn describe(rt: &impl Abort, text: &mut Vec<u8>, d: &DirectiveRef<'_>, i: usize) {
    is(rt, i < d.args(), "an argument");
    add(rt, text, b" ");
    add(rt, text, d.key(i));
    if d.has_equals(i) {
        add(rt, text, b"=");
    }
    for j in 0..d.values(i) {
        add(rt, text, b"[");
        add(rt, text, d.value(i, j));
        add(rt, text, b"]");
    }
}

/// Adds the name and the arguments.
fn describe_all(rt: &impl Abort, text: &mut Vec<u8>, d: &DirectiveRef<'_>) {
    add(rt, text, d.name());
    for i in 0..d.args() {
        describe(rt, text, d, i);
    }
}

fn block_of(rt: &impl Abort, alloc: Global, text: &[u8]) -> Block {
    Block::read(alloc, text).expect(rt, "a block")
}

/// The directive of the block is described so.
fn is_described(rt: &impl Abort, alloc: Global, block: &Block, want: &[u8]) {
    let mut text = Vec::new(alloc);
    describe_all(rt, &mut text, &block.directive());
    is_text(rt, text.as_slice(), want);
    drop(text);
}

static HEADS: [(&[u8], &[u8]); 5] = [
    (b"log-level info\n----\n", b"log-level info"),
    (b" \tstatus\t 1 \n----\n", b"status 1"),
    // tokens stand in one line each, a list may go on
    (
        b"add-nodes 3 \\\n# voters=(1, 2\\\n \\\n----\\\n3) \\\\\n index=10 a= b=c(d=e \\\n  content=x,y\n----\n",
        b"add-nodes 3 # voters=[1][2][----][3] \\ index=[10] a=[] b=[c(d=e] content=[x,y]",
    ),
    // empty pieces are dropped
    (b"a b=(,1 ,\t,2=3,) c=()\n----\n", b"a b=[1][2=3] c="),
    (b"a\xff \x01=\xfe\n----\n", b"a\xff \x01=[\xfe]"),
];

#[test]
fn directives(rt: HostRuntime) {
    for (text, want) in &HEADS {
        let block = block_of(&rt, rt.alloc(), text);
        is_described(&rt, rt.alloc(), &block, want);
        drop(block);
    }
}

/// Line `i` of the input is this.
fn is_input(rt: &impl Abort, d: &DirectiveRef<'_>, i: usize, want: &[u8]) {
    is(rt, i < d.inputs(), "a line");
    is_text(rt, d.input(i), want);
}

/// The input lines are these.
fn has_inputs(rt: &impl Abort, d: &DirectiveRef<'_>, want: &[&[u8]]) {
    is(rt, d.inputs() == want.len(), "how many lines");
    for (i, line) in want.iter().enumerate() {
        is_input(rt, d, i, line);
    }
}

#[test]
fn input_lines(rt: HostRuntime) {
    let block = block_of(&rt, rt.alloc(), b"a\nin 1\n\n in 2 \n----\n");
    has_inputs(&rt, &block.directive(), &[b"in 1", b"", b" in 2 "]);
    drop(block);
}

// Lines have no LF where they come from a script.
#[test]
fn lines_in_one_buffer(rt: HostRuntime) {
    let mut lines = Lines::new(rt.alloc());
    for line in [b"a\nb".as_slice(), b"", b"c"] {
        lines.push(line).expect(&rt, "memory");
    }
    is(&rt, lines.len() == 3, "three lines");
    is_text(&rt, lines.text(), b"a\nb\n\nc\n");
    is_text(&rt, lines.line(0), b"a\nb");
    drop(lines);
}
