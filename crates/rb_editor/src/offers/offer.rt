//! The words that a head can continue with: names of directives, keys of options, and values, each with its line of help.

ghost use Rattle.std.specs.Prelude.{◌≡◌, ◌++◌, IfOk, OnOk, map, option_map};
ghost use Rattle.rb_editor.specs.Offers.{arguments, begins_with, chosen, fits, has_key, if_kept, is_key, keyed, line_in, line_of, line_or, named, offers, options, takes, takes_level, values};

use crate::offers::unfinished::{UnfinishedKind, UnfinishedWord, is_listed, name_of};
use crate::offers::words::{arguments_of, words_before};
use rb_report::help::{KEYS, Known, PAGES, choices_of, option_line, value_line};
use std::alloc::{AllocError, Global};
use std::marker::Model;

/// What a word is.
#[derive(Clone, Copy, Debug, PartialEq, Eq)]
pub enum OfferKind {
    /// The name of a directive.
    Directive,
    /// The key of an option, before `=`.
    Key,
    /// A value of an option.
    Value,
}

/// A word that a head can continue with.
#[derive(Drop)]
pub(crate) struct Offer {
    pub(crate) kind: OfferKind,
    pub(crate) word: Known,
    /// Its line of help.
    pub(crate) documentation: Known,
}

impl Model for Offer {
    ghost use Rattle.rb_editor.specs.Offers.{PlainOffer};

    ghost Value = { PlainOffer };

    ghost view = { λ o. record { kind = o.kind; word = o.word.now; documentation = o.documentation.now } };
}

// Whether a word begins with a prefix.
fn begins_with(prefix: &[u8], word: &[u8]) -> bool
    ensures { result ≡ begins_with prefix.now word.now }
{
    word.starts_with(prefix)
}

// Appends an offer, if it is kept.
fn keep(list: &mut Vec<Offer>, is_kept: bool, offer: Offer) -> Result<(), AllocError>
    ensures { OnOk result (list.new.items ≡ list.old.items ++ if_kept is_kept offer) }
{
    if is_kept {
        list.push(offer)?;
    }
    Ok(())
}

// Finds the names among these pages that begin so.
fn named(
    alloc: Global,
    prefix: &[u8],
    pages: &[(Known, Known, Known)],
) -> Result<Vec<Offer>, AllocError>
    ensures { IfOk result (λ list. list.items ≡ named prefix.now (map (λ p. (p.0.now, p.1.now, p.2.now)) pages.now)) }
{
    let mut list = Vec::new(alloc);
    for page in pages {
        let offer = Offer {
            kind: OfferKind::Directive,
            word: page.0,
            documentation: page.1,
        };
        keep(&mut list, begins_with(prefix, page.0), offer)?;
    }
    Ok(list)
}

// Finds the manual's line on the directive with this name, among these pages.
fn line_in(name: &[u8], pages: &[(Known, Known, Known)]) -> Known
    ensures { result.now ≡ line_in name.now (map (λ p. (p.0.now, p.1.now, p.2.now)) pages.now) }
{
    for page in pages {
        if page.0 == name {
            return page.1;
        }
    }
    b""
}

/// Finds the manual's line on the directive with this name.
#[tactic(auto, unfolding(rb_report::specs::Manual::pages, crate::specs::Offers::line_of))]
pub(crate) fn line_of(name: &[u8]) -> Known
    ensures { result.now ≡ line_of name.now }
{
    line_in(name, &PAGES)
}

/// Whether the directive with this name has an option with this key among these.
pub(crate) fn has_key(name: &[u8], key: &[u8], keys: &[(Known, Known)]) -> bool
    ensures { result ≡ has_key name.now key.now (map (λ k. (k.0.now, k.1.now)) keys.now) }
{
    for row in keys {
        if row.0 == name && row.1 == key {
            return true;
        }
    }
    false
}

// Whether the directive with this name takes an option with this key.
#[tactic(auto, unfolding(rb_report::specs::Manual::keys, crate::specs::Offers::takes))]
fn takes(name: &[u8], key: &[u8]) -> bool
    ensures { result ≡ takes name.now key.now }
{
    if key == b"log-level".as_slice() {
        return true;
    }
    has_key(name, key, &KEYS)
}

// Whether this key of that directive is one of the directive with this name, and begins so.
fn is_key(name: &[u8], prefix: &[u8], owner: &[u8], key: &[u8]) -> bool
    ensures { result ≡ is_key name.now prefix.now owner.now key.now }
{
    owner == name && begins_with(prefix, key)
}

// Finds the keys among these that the directive with this name has, and that begin so.
fn keyed(
    alloc: Global,
    name: &[u8],
    prefix: &[u8],
    keys: &[(Known, Known)],
) -> Result<Vec<Offer>, AllocError>
    ensures { IfOk result (λ list. list.items ≡ keyed name.now prefix.now (map (λ k. (k.0.now, k.1.now)) keys.now)) }
{
    let mut list = Vec::new(alloc);
    for row in keys {
        let offer = Offer {
            kind: OfferKind::Key,
            word: row.1,
            documentation: option_line(row.1),
        };
        keep(&mut list, is_key(name, prefix, row.0, row.1), offer)?;
    }
    Ok(list)
}

// Finds the keys of the options that the directive with this name takes, and that begin so.
#[tactic(auto, unfolding(rb_report::specs::Manual::keys, crate::specs::Offers::options))]
fn options(alloc: Global, name: &[u8], prefix: &[u8]) -> Result<Vec<Offer>, AllocError>
    ensures { IfOk result (λ list. list.items ≡ options name.now prefix.now) }
{
    let mut list = keyed(alloc, name, prefix, &KEYS)?;
    let every: Known = b"log-level";
    let offer = Offer {
        kind: OfferKind::Key,
        word: every,
        documentation: option_line(every),
    };
    keep(&mut list, begins_with(prefix, every), offer)?;
    Ok(list)
}

// The line for all, or the value's own.
fn line_or(line: Option<Known>, value: Known) -> Known
    ensures { result.now ≡ line_or (option_map (λ l. l.now) line.entry) value.now }
{
    match line {
        Some(line) => line,
        None => value_line(value),
    }
}

// Whether a value begins like what there is of one, and isn't in the list already.
#[tactic(auto, unfolding(crate::specs::Offers::fits))]
fn fits(wanted: &UnfinishedWord<'_>, value: &[u8]) -> bool
    ensures { result ≡ fits wanted.now value.now }
{
    begins_with(wanted.prefix, value) && !is_listed(value, wanted.listed)
}

/// Adds the values among these that fit, each with this line of help or with its own.
pub(crate) fn add_chosen(
    list: &mut Vec<Offer>,
    wanted: &UnfinishedWord<'_>,
    line: Option<Known>,
    choices: &[Known],
) -> Result<(), AllocError>
    ensures { OnOk result (list.new.items ≡ list.old.items ++ chosen wanted.now (option_map (λ l. l.now) line.entry) (map (λ c. c.now) choices.now)) }
{
    for choice in choices {
        let offer = Offer {
            kind: OfferKind::Value,
            word: *choice,
            documentation: line_or(line, *choice),
        };
        keep(list, fits(wanted, choice), offer)?;
    }
    Ok(())
}

// The values of an option that takes some alone.
fn values(alloc: Global, name: &[u8], wanted: &UnfinishedWord<'_>) -> Result<Vec<Offer>, AllocError>
    ensures { IfOk result (λ list. list.items ≡ values name.now wanted.now) }
{
    let mut list = Vec::new(alloc);
    if takes(name, wanted.key) {
        add_chosen(&mut list, wanted, None, choices_of(wanted.key))?;
    }
    Ok(list)
}

// Whether the first word of the head is a level.
#[tactic(auto, unfolding(crate::specs::Offers::takes_level))]
fn takes_level(head: &[u8]) -> bool
    ensures { result ≡ takes_level head.now }
{
    name_of(head) == b"log-level".as_slice() && words_before(arguments_of(head)) == 0
}

// The words that an argument can be.
#[tactic(auto, unfolding(rb_directive::specs::Table::argument_of))]
fn arguments(
    alloc: Global,
    head: &[u8],
    wanted: &UnfinishedWord<'_>,
) -> Result<Vec<Offer>, AllocError>
    ensures { IfOk result (λ list. list.items ≡ arguments head.now wanted.now) }
{
    let mut list = options(alloc, name_of(head), wanted.prefix)?;
    if takes_level(head) {
        add_chosen(&mut list, wanted, None, choices_of(b"log-level"))?;
    }
    Ok(list)
}

/// The words that a head can continue with, by what it ends in.
#[tactic(auto, unfolding(rb_report::specs::Manual::pages, crate::specs::Offers::offers))]
pub(crate) fn offers(
    alloc: Global,
    head: &[u8],
    wanted: &UnfinishedWord<'_>,
) -> Result<Vec<Offer>, AllocError>
    ensures { IfOk result (λ list. list.items ≡ offers head.now wanted.now) }
{
    match wanted.kind {
        UnfinishedKind::Name => named(alloc, wanted.prefix, &PAGES),
        UnfinishedKind::Argument => arguments(alloc, head, wanted),
        UnfinishedKind::Value => values(alloc, name_of(head), wanted),
        UnfinishedKind::Nothing => Ok(Vec::new(alloc)),
    }
}
