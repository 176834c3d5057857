//! What a text can continue with at a place.

ghost use Rattle.std.specs.Prelude.{◌≡◌, ◌≤◌, ◌++◌, [], IfOk, OnOk, drop, length};
ghost use Rattle.rb_lsp.specs.declared.document.limits.TheConstants.{MAX_TEXT};
ghost use Rattle.rb_script.specs.Lines.{lines};
ghost use Rattle.rb_editor.specs.Completion.{back_text, completion, end_text, front_text, has_block, is_blank_at, item_text, items_place, items_text, kind_number, mark};
ghost use Rattle.rb_editor.specs.Ids.{id_offers};
ghost use Rattle.rb_editor.specs.Offers.{offers};
ghost use Rattle.rb_editor.specs.Texts.{list_text, listed};

use crate::offers::ids::{add_changes, add_ids, change_wanted};
use crate::offers::offer::{Offer, OfferKind, offers};
use crate::offers::place::CompletionPlace;
use crate::offers::symbols::line_at;
use crate::offers::unfinished::{UnfinishedWord, wanted_of};
use crate::offers::writing::add_range;
use rb_lsp::document::{Position, position_of};
use rb_lsp::server::Client;
use rb_script::{Lines, is_blank, lines_of};
use rb_text::{Json, Piece, add_pieces};
use std::alloc::{AllocError, Global};

/// Where words are put: in place of the text between two positions. A name has its block there if nothing is behind it.
#[derive(Clone, Copy)]
pub(crate) struct ItemPlace {
    pub(crate) start: Position,
    pub(crate) end: Position,
    pub(crate) has_block: bool,
}

// The protocol's number for a kind of word.
fn kind_number(kind: OfferKind) -> u64
    ensures { result ≡ kind_number kind }
{
    match kind {
        OfferKind::Directive => 3,
        OfferKind::Key => 10,
        OfferKind::Value => 12,
    }
}

// The mark after a word.
fn mark(kind: OfferKind) -> &'static [u8]
    ensures { result.now ≡ mark kind }
{
    match kind {
        OfferKind::Directive | OfferKind::Value => b"",
        OfferKind::Key => b"=",
    }
}

// Adds an item up to the range of its edit.
#[tactic(auto, unfolding(crate::specs::Completion::front_text))]
fn add_front(out: &mut Vec<u8>, offer: &Offer) -> Result<(), AllocError>
    ensures { OnOk result (out.new.items ≡ out.old.items ++ front_text offer.now) }
{
    add_pieces(
        out,
        &[
            Piece::Bytes(b"{\"label\":\""),
            Piece::Escaped(Json::Utf8, offer.word),
            Piece::Bytes(mark(offer.kind)),
            Piece::Bytes(b"\",\"kind\":"),
            Piece::Number(kind_number(offer.kind)),
            Piece::Bytes(b",\"documentation\":\""),
            Piece::Escaped(Json::Utf8, offer.documentation),
            Piece::Bytes(b"\",\"textEdit\":{\"range\":"),
        ],
    )
}

// The end of an item. A name may come with the line `----` and an empty line below it, as a snippet.
fn end_text(has_block: bool, kind: OfferKind) -> &'static [u8]
    ensures { result.now ≡ end_text has_block kind }
{
    match kind {
        OfferKind::Directive if has_block => b"$1\\n----\\n$0\"},\"insertTextFormat\":2}",
        _ => b"\"}}",
    }
}

// Adds the rest of an item.
#[tactic(auto, unfolding(crate::specs::Completion::back_text))]
fn add_back(out: &mut Vec<u8>, has_block: bool, offer: &Offer) -> Result<(), AllocError>
    ensures { OnOk result (out.new.items ≡ out.old.items ++ back_text has_block offer.now) }
{
    add_pieces(
        out,
        &[
            Piece::Bytes(b",\"newText\":\""),
            Piece::Escaped(Json::Utf8, offer.word),
            Piece::Bytes(mark(offer.kind)),
            Piece::Bytes(end_text(has_block, offer.kind)),
        ],
    )
}

// Adds an item: a word in a place.
#[tactic(auto, unfolding(crate::specs::Completion::item_text))]
fn add_item(out: &mut Vec<u8>, place: ItemPlace, offer: &Offer) -> Result<(), AllocError>
    ensures { OnOk result (out.new.items ≡ out.old.items ++ item_text place offer.now) }
{
    add_front(out, offer)?;
    add_range(out, place.start, place.end)?;
    add_back(out, place.has_block, offer)?;
    Ok(())
}

// Adds the items, separated by commas, and the end of the list.
fn add_all(out: &mut Vec<u8>, place: ItemPlace, list: &[Offer]) -> Result<(), AllocError>
    ensures { OnOk result (out.new.items ≡ out.old.items ++ listed (item_text place) [] list.now) }
{
    let mut lead: &[u8] = b"";
    for offer in list {
        out.extend_from_slice(lead)?;
        add_item(out, place, offer)?;
        lead = b",";
    }
    out.extend_from_slice(b"]")?;
    Ok(())
}

// Whether the line at an index is blank, or isn't there.
fn is_blank_at(index: usize, _text: &[u8], all: &Lines) -> bool
    requires { all.now ≡ lines _text.now }
    ensures { result ≡ is_blank_at index _text.now }
{
    is_blank(line_at(all, index))
}

// Whether a name at an offset has its block: the client takes snippets, and nothing is behind it, nor on the line below.
fn has_block(alloc: Global, client: Client, text: &[u8], at: usize) -> Result<bool, AllocError>
    requires { at ≤ length text.now }
    ensures { IfOk result (λ has. has ≡ has_block client text.now at) }
{
    if !client.takes_snippets {
        return Ok(false);
    }
    let below = &text[at..];
    let all = lines_of(alloc, below)?;
    Ok(is_blank_at(0, below, &all) && is_blank_at(1, below, &all))
}

// Gives the place of a prefix that ends at an offset.
fn items_place(
    alloc: Global,
    client: Client,
    text: &[u8],
    at: usize,
    prefix: &[u8],
) -> Result<ItemPlace, AllocError>
    requires within { at ≤ length text.now }
    requires bounded { length text.now ≤ MAX_TEXT }
    ensures { IfOk result (λ place. place ≡ items_place client text.now at prefix.now) }
{
    let start = at.saturating_sub(prefix.len());
    Ok(ItemPlace {
        start: position_of(client.encoding, start, text),
        end: position_of(client.encoding, at, text),
        has_block: has_block(alloc, client, text, at)?,
    })
}

// Adds words, each in a place.
#[tactic(auto, unfolding(crate::specs::Texts::list_text))]
fn add_items(out: &mut Vec<u8>, place: ItemPlace, list: &[Offer]) -> Result<(), AllocError>
    ensures { OnOk result (out.new.items ≡ out.old.items ++ list_text (item_text place) list.now) }
{
    out.extend_from_slice(b"[")?;
    add_all(out, place, list)
}

// Finds the words that a head can continue with, in a cluster with this many nodes.
fn head_offers(
    alloc: Global,
    head: &[u8],
    wanted: &UnfinishedWord<'_>,
    nodes: usize,
) -> Result<Vec<Offer>, AllocError>
    ensures { IfOk result (λ list. list.items ≡ offers head.now wanted.now ++ id_offers nodes head.now wanted.now) }
{
    let mut list = offers(alloc, head, wanted)?;
    add_ids(&mut list, nodes, head, wanted)?;
    Ok(list)
}

/// Adds the words that a text can continue with at a place, as the result of `textDocument/completion`: names of directives, keys of their
/// options, values of an option that takes some values alone, levels, ids of nodes, and words of changes. The cluster has this many nodes.
///
/// # Errors
///
/// If memory was refused. A part of the result may have been added then.
#[tactic(auto, unfolding(crate::specs::Completion::completion, crate::specs::Completion::of_head, crate::specs::Completion::of_change))]
pub fn add_completion(
    alloc: Global,
    out: &mut Vec<u8>,
    client: Client,
    text: &[u8],
    place: &CompletionPlace,
    nodes: usize,
) -> Result<(), AllocError>
    requires within { place.now.at ≤ length text.now }
    requires bounded { length text.now ≤ MAX_TEXT }
    ensures { OnOk result (out.new.items ≡ out.old.items ++ completion client text.now place.now nodes) }
{
    if let Some(head) = &place.head {
        let wanted = wanted_of(head.as_slice());
        let list = head_offers(alloc, head.as_slice(), &wanted, nodes)?;
        let at = items_place(alloc, client, text, place.at, wanted.prefix)?;
        return add_items(out, at, list.as_slice());
    }
    let Some(front) = &place.change else {
        return out.extend_from_slice(b"[]");
    };
    let wanted = change_wanted(front.as_slice());
    let mut list = Vec::new(alloc);
    add_changes(&mut list, nodes, front.as_slice())?;
    let at = items_place(alloc, client, text, place.at, wanted.prefix)?;
    add_items(out, at, list.as_slice())
}
