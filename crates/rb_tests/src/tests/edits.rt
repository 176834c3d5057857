//! Edits that no command asks for: what directives print, and what a line of input is, no session can be given otherwise.

use super::bench::fakes::Room;
use super::{is, is_text};
use rb_script::{ChunkedList, Edit, EditFault, Lines, Script, Through};
use std::alloc::Global;
use std::process::Abort;
use std::rc::Rc;

const SCRIPT: &[u8] = b"a\n----\n1\n\nb\n----\n2\n\nc\n----\n\n# tail\n";

/// These lines, which may hold any bytes.
fn lines_of(rt: &impl Abort, alloc: Global, texts: &[&[u8]]) -> Lines {
    let mut lines = Lines::new(alloc);
    for text in texts {
        lines.push(text).expect(rt, "memory");
    }
    lines
}

/// One output for each of these lists of lines.
fn outputs_of(rt: &impl Abort, alloc: Global, outputs: &[&[&[u8]]]) -> ChunkedList<Lines> {
    let mut all = Vec::new(alloc);
    for lines in outputs {
        let output = Rc::new(alloc, lines_of(rt, alloc, lines)).expect(rt, "memory");
        all.push(output).expect(rt, "memory");
    }
    ChunkedList::of(alloc, all).expect(rt, "memory")
}

fn script_of(rt: &impl Abort, alloc: Global) -> Script {
    Script::read(alloc, SCRIPT).expect(rt, "a script")
}

/// The script has this canonical text.
fn is_written(rt: &impl Abort, alloc: Global, script: &Script, want: &[u8]) {
    let mut text = Through(Vec::new(alloc));
    script.write_to(&mut text).expect(rt, "memory");
    is_text(rt, text.0.as_slice(), want);
    drop(text);
}

/// What the edit makes of a script with these outputs, or its fault.
fn edited(
    rt: &impl Abort,
    script: &Script,
    edit: &Edit,
    outputs: &ChunkedList<Lines>,
) -> Result<Script, EditFault> {
    is(rt, outputs.len() == script.len(), "an output for each");
    script.edited(edit, outputs)
}

/// What the edit makes of the script above with these outputs, or its fault.
fn made(
    rt: &impl Abort,
    alloc: Global,
    edit: &Edit,
    outputs: &[&[&[u8]]],
) -> Result<Script, EditFault> {
    let outputs = outputs_of(rt, alloc, outputs);
    let script = script_of(rt, alloc);
    let made = edited(rt, &script, edit, &outputs);
    drop(script);
    drop(outputs);
    made
}

// What directives print has no empty line in it, but what is accepted may.
#[test]
fn any_outputs_are_accepted(rt: HostRuntime) {
    let outputs: &[&[&[u8]]] = &[&[b"x"], &[b"y", b""], &[]];
    let edit = Edit::Accept;
    let script = made(&rt, rt.alloc(), &edit, outputs).expect(&rt, "an edit");
    drop(edit);
    let want = b"a\n----\nx\n\nb\n----\n----\ny\n\n----\n----\n\nc\n----\n\n# tail\n";
    is_written(&rt, rt.alloc(), &script, want);
    drop(script);
}

/// The edit of a script with these outputs is refused, since that can't be expected.
fn is_refused(rt: &impl Abort, alloc: Global, edit: &Edit, outputs: &[&[&[u8]]]) {
    let fault = made(rt, alloc, edit, outputs).err();
    is(rt, fault == Some(EditFault::BadExpectation), "refused");
}

// A line that comes in has no LF, and no CR at its end.
#[test]
fn lines_that_cannot_be_expected(rt: HostRuntime) {
    for line in [b"a\r".as_slice(), b"a\nb"] {
        let edit = Edit::Expect(1, lines_of(&rt, rt.alloc(), &[line]));
        is_refused(&rt, rt.alloc(), &edit, &[&[], &[], &[]]);
        drop(edit);
    }
}

// Nothing prints the line that ends an expectation.
#[test]
fn outputs_that_cannot_be_expected(rt: HostRuntime) {
    let outputs: &[&[&[u8]]] = &[&[b"x"], &[b"y", b"----"], &[]];
    let edit = Edit::Accept;
    is_refused(&rt, rt.alloc(), &edit, outputs);
    drop(edit);
}

/// The script with these outputs for its expectations has this text.
fn is_written_with(
    rt: &impl Abort,
    alloc: Global,
    script: &Script,
    outputs: &ChunkedList<Lines>,
    want: &[u8],
) {
    is(rt, outputs.len() == script.len(), "an output for each");
    let mut text = Through(Vec::new(alloc));
    script.write_with(outputs, &mut text).expect(rt, "memory");
    is_text(rt, text.0.as_slice(), want);
    drop(text);
}

// A line that looks like the end of a head goes into the double form.
#[test]
fn outputs_in_place_of_expectations(rt: HostRuntime) {
    let outputs = outputs_of(&rt, rt.alloc(), &[&[b"x"], &[b"----", b"y"], &[]]);
    let want = b"a\n----\nx\n\nb\n----\n----\n----\ny\n----\n----\n\nc\n----\n\n# tail\n";
    let script = script_of(&rt, rt.alloc());
    is_written_with(&rt, rt.alloc(), &script, &outputs, want);
    drop(script);
    drop(outputs);
}

/// An output of one line. Nothing if memory was refused.
fn output_of(alloc: Global) -> Option<Rc<Lines>> {
    let mut lines = Lines::new(alloc);
    lines.push(b"x").ok()?;
    Rc::new(alloc, lines).ok()
}

/// Three such outputs.
fn three_outputs(alloc: Global) -> Option<ChunkedList<Lines>> {
    let mut all = Vec::new(alloc);
    for _ in 0..3u64 {
        all.push(output_of(alloc)?).ok()?;
    }
    ChunkedList::of(alloc, all).ok()
}

/// Writes the script, and the script with these outputs.
fn writes_both(rt: &impl Abort, script: &Script, outputs: &ChunkedList<Lines>) {
    let mut text = Through(Room::new());
    is(rt, script.write_to(&mut text).is_ok(), "the script");
    is(rt, text.0.taken() == SCRIPT, "its text");
    let mut other = Through(Room::new());
    is(rt, outputs.len() == script.len(), "an output for each");
    is(
        rt,
        script.write_with(outputs, &mut other).is_ok(),
        "outputs",
    );
    let want = b"a\n----\nx\n\nb\n----\nx\n\nc\n----\nx\n\n# tail\n";
    is(rt, other.0.taken() == want.as_slice(), "their text");
}

/// The same, if there is memory for the outputs.
fn writes_with_outputs(rt: &impl Abort, alloc: Global, script: &Script) -> bool {
    let Some(outputs) = three_outputs(alloc) else {
        return false;
    };
    writes_both(rt, script, &outputs);
    drop(outputs);
    true
}

/// The same, if there is memory for the script.
fn writes(rt: &impl Abort, alloc: Global) -> bool {
    let Ok(script) = Script::read(alloc, SCRIPT) else {
        return false;
    };
    let is_whole = writes_with_outputs(rt, alloc, &script);
    drop(script);
    is_whole
}

#[test]
fn scripts_are_written(rt: HostRuntime) {
    is(&rt, writes(&rt, rt.alloc()), "both texts");
}

// To write takes no memory.
#[test]
fn scripts_are_written_under_refusals(rt: HostRuntime) {
    let _whole = writes(&rt, rt.alloc());
}
