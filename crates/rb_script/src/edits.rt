//! Applying an edit to a script.

ghost use Rattle.std.specs.Prelude.{◌≡◌, ◌≤◌, ◌==◌, ◌∷◌, ◌++◌, [], true, not, length, take, drop, IfOk, OnOk, option_to_list};
ghost use Rattle.std.specs.List.{list_all};
ghost use Rattle.rb_script.specs.Script.{all_expecting, expecting};
ghost use Rattle.rb_script.specs.Reading.{capped};
ghost use Rattle.rb_script.specs.Shared.{values};
ghost use Rattle.rb_script.specs.Edits.{ends_in_return, is_text_line, is_expectation};

use crate::block::Block;
use crate::chunked_list::ChunkedList;
use crate::edit::Edit;
use crate::fault::EditFault;
use crate::limits::{MAX_DIRECTIVES, MAX_LINE, MAX_SCRIPT};
use crate::lines::Lines;
use crate::reading::is_readable;
use crate::script::Script;
use std::alloc::{AllocError, Global};
use std::rc::Rc;

/// Whether the bytes contain no LF.
fn has_no_end(line: &[u8]) -> bool
    ensures { result ≡ list_all (λ b. not (b == 10)) line.now }
{
    line.iter().all(|b| *b != b'\n')
}

/// Whether the last byte is a carriage return.
fn ends_in_return(line: &[u8]) -> bool
    ensures { result ≡ ends_in_return line.now }
{
    match line.last() {
        Some(last) => *last == b'\r',
        None => false,
    }
}

/// Whether a script can contain the line.
fn is_text_line(line: &[u8]) -> bool
    ensures { result ≡ is_text_line line.now }
{
    has_no_end(line) && !ends_in_return(line) && line.len() <= MAX_LINE
}

/// Whether the lines can be an expectation.
fn is_expectation(lines: &Lines) -> bool
    ensures { result ≡ is_expectation lines.now }
{
    if !is_readable(lines) {
        return false;
    }
    for i in 0..lines.len() {
        if !is_text_line(lines.line(i)) {
            return false;
        }
    }
    true
}

/// Whether each output can be an expectation.
fn are_expectations(outputs: &ChunkedList<Lines>) -> bool
    ensures { result ≡ list_all is_expectation outputs.now }
{
    for i in 0..outputs.len() {
        if !is_expectation(outputs.at(i)) {
            return false;
        }
    }
    true
}

impl Script {
    ghost use Rattle.std.specs.Prelude.{◌≡◌, List, Err, IfErr, IfOk, length};
    ghost use Rattle.rb_script.specs.Lines.{Line};
    ghost use Rattle.rb_script.specs.Script.{text, with_outputs};
    ghost use Rattle.rb_script.specs.Valid.{IsScript};
    ghost use Rattle.rb_script.specs.Shared.{IsKeptScript};
    ghost use Rattle.rb_script.specs.Edits.{edited, with_blocks, Makes, Settles};
    ghost use Rattle.rb_script.specs.declared.edit.Edit.TheVariants.{Insert, Replace, Remove, Expect, Accept};

    /// Applies the edit. `outputs` has an output for each directive; only [`Edit::Accept`] uses them. The first fault in the
    /// order of [`EditFault`] is reported. All but `OutOfMemory` are found before anything is allocated.
    pub fn edited(&self, edit: &Edit, outputs: &ChunkedList<Lines>) -> Result<Script, EditFault>
        requires { length outputs.now ≡ length self.now.blocks }
        ensures exact { Makes result (edited self.now edit.now outputs.now) }
        ensures early { IfErr (edited self.now edit.now outputs.now) (λ fault. result ≡ Err fault) }
    {
        match edit {
            Edit::Insert(place, block) => self.inserted(*place, block),
            Edit::Replace(place, block) => self.replaced(*place, block),
            Edit::Remove(place) => self.removed(*place),
            Edit::Expect(place, lines) => self.expecting(*place, lines),
            Edit::Accept => self.accepting(outputs),
        }
    }

    fn inserted(&self, place: usize, block: &Block) -> Result<Script, EditFault>
        ensures { (outputs : List (List Line)) → Settles result (edited self.now (Insert place block.now) outputs) }
    {
        let count = self.len();
        if place == 0 || place - 1 > count {
            return Err(EditFault::NoSuchPlace);
        }
        if count >= MAX_DIRECTIVES {
            return Err(EditFault::TooManyDirectives);
        }
        let text_len = self.text_len().saturating_add(block.text_len());
        if text_len > MAX_SCRIPT {
            return Err(EditFault::TooLong);
        }
        let copy = block.try_copy()?;
        self.splice(place - 1, Some(copy), place - 1, text_len)
    }

    fn replaced(&self, place: usize, block: &Block) -> Result<Script, EditFault>
        ensures { (outputs : List (List Line)) → Settles result (edited self.now (Replace place block.now) outputs) }
    {
        let Some(old) = self.block(place) else {
            return Err(EditFault::NoSuchPlace);
        };
        let rest = self.text_len() - old.text_len();
        let text_len = rest.saturating_add(block.text_len());
        if text_len > MAX_SCRIPT {
            return Err(EditFault::TooLong);
        }
        let copy = block.try_copy()?;
        self.splice(place - 1, Some(copy), place, text_len)
    }

    fn removed(&self, place: usize) -> Result<Script, EditFault>
        ensures { (outputs : List (List Line)) → Settles result (edited self.now (Remove place) outputs) }
    {
        let Some(old) = self.block(place) else {
            return Err(EditFault::NoSuchPlace);
        };
        let text_len = self.text_len() - old.text_len();
        self.splice(place - 1, None, place, text_len)
    }

    fn expecting(&self, place: usize, lines: &Lines) -> Result<Script, EditFault>
        ensures { (outputs : List (List Line)) → Settles result (edited self.now (Expect place lines.now) outputs) }
    {
        let Some(old) = self.block(place) else {
            return Err(EditFault::NoSuchPlace);
        };
        if !is_expectation(lines) {
            return Err(EditFault::BadExpectation);
        }
        let rest = self.text_len() - old.text_len();
        let text_len = rest.saturating_add(old.text_len_with(lines));
        if text_len > MAX_SCRIPT {
            return Err(EditFault::TooLong);
        }
        let block = old.with_expected(lines)?;
        self.splice(place - 1, Some(block), place, text_len)
    }

    fn accepting(&self, outputs: &ChunkedList<Lines>) -> Result<Script, EditFault>
        requires { length outputs.now ≡ length self.now.blocks }
        ensures { Settles result (edited self.now Accept outputs.now) }
    {
        if !are_expectations(outputs) {
            return Err(EditFault::BadExpectation);
        }
        let text_len = self.text_len_with(outputs);
        if text_len > MAX_SCRIPT {
            return Err(EditFault::TooLong);
        }
        self.with_outputs(outputs, text_len)
    }

    // The length of the canonical text.
    fn text_len(&self) -> usize
        ensures len { result ≡ length (text self.now) }
        // The script is valid.
        ensures valid { IsScript self.now }
    {
        self.text_len
    }

    // The length of the canonical text with these outputs as expectations.
    fn text_len_with(&self, outputs: &ChunkedList<Lines>) -> usize
        requires { length outputs.now ≡ length self.now.blocks }
        ensures { result ≡ capped (length (text (with_outputs self.now outputs.now))) }
    {
        let mut total = self.tail.text().len();
        for i in 0..self.blocks.len() {
            let block = self.blocks.at(i);
            let output = outputs.at(i);
            total = total.saturating_add(block.text_len_with(output));
        }
        total
    }

    // Copies the script with these outputs as expectations.
    fn with_outputs(
        &self,
        outputs: &ChunkedList<Lines>,
        text_len: usize,
    ) -> Result<Script, EditFault>
        requires count { length outputs.now ≡ length self.now.blocks }
        requires readable { list_all is_expectation outputs.now ≡ true }
        requires len { text_len ≡ length (text (with_outputs self.now outputs.now)) }
        requires short { text_len ≤ MAX_SCRIPT }
        ensures ok { IfOk result (λ s. s ≡ with_outputs self.now outputs.now) }
        ensures err { IfErr result (λ e. e ≡ EditFault.OutOfMemory) }
    {
        let made = all_expecting(self.alloc, &self.blocks, outputs)?;
        let blocks = ChunkedList::of(self.alloc, made)?;
        self.with_blocks(blocks, text_len)
    }

    // Replaces the blocks from `from` to `to` by the new block, if there is one.
    fn splice(
        &self,
        from: usize,
        new: Option<Block>,
        to: usize,
        text_len: usize,
    ) -> Result<Script, EditFault>
        requires from { from ≤ length self.now.blocks }
        requires to { to ≤ length self.now.blocks }
        requires kept { IsKeptScript (with_blocks self.now (take from self.now.blocks ++ (option_to_list new ++ drop to self.now.blocks))) text_len }
        ensures ok { IfOk result (λ s. s ≡ with_blocks self.now (take from self.now.blocks ++ (option_to_list new ++ drop to self.now.blocks))) }
        ensures err { IfErr result (λ e. e ≡ EditFault.OutOfMemory) }
    {
        let new = shared(self.alloc, new)?;
        let blocks = self.blocks.splice(self.alloc, from, &new, to)?;
        self.with_blocks(blocks, text_len)
    }

    // Copies the script with other blocks.
    fn with_blocks(&self, blocks: ChunkedList<Block>, text_len: usize) -> Result<Script, EditFault>
        requires { IsKeptScript (with_blocks self.now blocks) text_len }
        ensures ok { IfOk result (λ s. s ≡ with_blocks self.now blocks) }
        ensures err { IfErr result (λ e. e ≡ EditFault.OutOfMemory) }
    {
        Ok(Script {
            alloc: self.alloc,
            blocks,
            tail: self.tail.try_copy()?,
            text_len,
        })
    }
}

/// Makes the new block shared, if there is one.
fn shared(alloc: Global, new: Option<Block>) -> Result<Vec<Rc<Block>>, AllocError>
    ensures { IfOk result (λ v. values v.items ≡ option_to_list new) }
{
    let mut pointers = Vec::new(alloc);
    if let Some(block) = new {
        pointers.push(Rc::new(alloc, block)?)?;
    }
    Ok(pointers)
}

/// Makes blocks that expect their outputs. A block that already does is shared.
fn all_expecting(
    alloc: Global,
    blocks: &ChunkedList<Block>,
    outputs: &ChunkedList<Lines>,
) -> Result<Vec<Rc<Block>>, AllocError>
    requires count { length outputs.now ≡ length blocks.now }
    requires readable { list_all is_expectation outputs.now ≡ true }
    ensures { IfOk result (λ v. values v.items ≡ all_expecting blocks.now outputs.now) }
{
    let mut made = Vec::with_capacity(alloc, blocks.len())?;
    for i in 0..blocks.len() {
        let output = outputs.at(i);
        push_expecting(alloc, &mut made, blocks.at(i), output)?;
    }
    Ok(made)
}

/// Appends the block with this output as its expectation.
fn push_expecting(
    alloc: Global,
    made: &mut Vec<Rc<Block>>,
    block: &Rc<Block>,
    output: &Lines,
) -> Result<(), AllocError>
    requires { is_expectation output.now ≡ true }
    ensures { OnOk result (values made.new.items ≡ values made.old.items ++ expecting block.now.value output.now ∷ []) }
{
    made.push(expecting(alloc, block, output)?)?;
    Ok(())
}

/// Makes the block expect this output. A block that already does is shared.
fn expecting(alloc: Global, block: &Rc<Block>, output: &Lines) -> Result<Rc<Block>, AllocError>
    requires { is_expectation output.now ≡ true }
    ensures { IfOk result (λ b. b.value ≡ expecting block.now.value output.now) }
{
    if block.expected().same(output) {
        block.clone()
    } else {
        Ok(Rc::new(alloc, block.with_expected(output)?)?)
    }
}
