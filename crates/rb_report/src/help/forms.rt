//! The form of directives that people often write otherwise.

ghost use Rattle.std.specs.Prelude.{◌≡◌, drop};
ghost use Rattle.std.specs.List.{list_all, list_any};
ghost use Rattle.rb_script.specs.Tokens.{plain};
ghost use Rattle.rb_report.specs.Hints.{plain_hint};
ghost use Rattle.rb_report.specs.Forms.{are_joined_ids, form_of_fault, form_of_argument, form_of_name, form_of_option, form_of_word, has_byte, has_input, has_key, has_mark, has_message, is_after_payload, is_bare, is_comment, is_id_byte, is_repeated, missing, needs_index, said};

use crate::check::Hint;
use crate::help::nearest::Known;
use crate::help::other_names::OTHER_NAMES;
use crate::help::values::{line_among, option_line};
use rb_script::DirectiveRef;
use rb_vocab::DirectiveError;

fn has_byte(wanted: u8, word: &[u8]) -> bool
    ensures { result ≡ has_byte wanted word.now }
{
    for b in word {
        if *b == wanted {
            return true;
        }
    }
    false
}

fn is_id_byte(b: u8) -> bool
    ensures { result ≡ is_id_byte b }
{
    b == b',' || b == b'[' || b == b']' || (b'0' <= b && b <= b'9')
}

fn has_id_bytes_alone(word: &[u8]) -> bool
    ensures { result ≡ list_all is_id_byte word.now }
{
    for b in word {
        if !is_id_byte(*b) {
            return false;
        }
    }
    true
}

// Whether the word is ids separated by commas.
fn are_joined_ids(word: &[u8]) -> bool
    ensures { result ≡ are_joined_ids word.now }
{
    has_byte(b',', word) && has_id_bytes_alone(word)
}

fn is_comment(word: &[u8]) -> bool
    ensures { result ≡ is_comment word.now }
{
    match word {
        [first, ..] => *first == b'#',
        [] => false,
    }
}

// Makes a hint of a line of help.
fn said(line: Known) -> Hint<'static>
    ensures { plain_hint result ≡ said line.now }
{
    if line.is_empty() {
        Hint::Unknown
    } else {
        Hint::Sentence(line)
    }
}

fn has_mark(name: &[u8]) -> bool
    ensures { result ≡ has_mark name.now }
{
    &name[..name.len().min(3)] == b"\xef\xbb\xbf".as_slice()
}

// Whether the first argument names the nodes of a message, as in a line of an output.
fn has_message(directive: &DirectiveRef<'_>) -> bool
    ensures { result ≡ has_message (plain directive.now) }
{
    directive.args() > 0 && has_byte(b'>', directive.key(0))
}

// Says what a directive was probably meant to be if none has its name.
#[tactic(auto, unfolding(crate::specs::Forms::form_of_name, crate::specs::Forms::other_names))]
fn form_of_name(directive: &DirectiveRef<'_>) -> Hint<'static>
    ensures { plain_hint result ≡ form_of_name (plain directive.now) }
{
    if has_mark(directive.name()) {
        Hint::Sentence(
            b"a byte order mark, which editors don't show, is before the name; save the file without it",
        )
    } else if has_message(directive) {
        Hint::Sentence(b"this is a line of an output; usually an empty line cut it off")
    } else {
        said(line_among(directive.name(), &OTHER_NAMES))
    }
}

// Whether the word is after the payload of a proposal.
fn is_after_payload(directive: &DirectiveRef<'_>, word: &[u8]) -> bool
    ensures { result ≡ is_after_payload (plain directive.now) word.now }
{
    directive.args() > 2 && !directive.has_equals(2) && directive.key(0) != word
}

// Finds the right form for a word that isn't accepted.
fn form_of_word(directive: &DirectiveRef<'_>, word: &[u8]) -> Hint<'static>
    ensures { plain_hint result ≡ form_of_word (plain directive.now) word.now }
{
    let name = directive.name();
    if is_comment(word) {
        Hint::Meant(b"a comment on a line of its own, above the directive")
    } else if are_joined_ids(word) {
        Hint::Meant(b"ids with blanks between them, such as 1 2")
    } else if name == b"propose-conf-change".as_slice() {
        Hint::Meant(b"changes on the lines below this one, such as v2")
    } else if name == b"transfer-leadership".as_slice() {
        Hint::Meant(b"transfer-leadership from=1 to=2")
    } else if name == b"log-level".as_slice() {
        said(option_line(name))
    } else if name == b"propose".as_slice() && is_after_payload(directive, word) {
        Hint::Sentence(b"a payload is one word, such as hello-world; quotes are letters of it")
    } else {
        Hint::Unknown
    }
}

// Whether the first argument with this key is a word, without an `=`.
fn is_bare(directive: &DirectiveRef<'_>, key: &[u8]) -> bool
    ensures { result ≡ is_bare key.now (plain directive.now).args }
{
    for i in 0..directive.args() {
        if directive.key(i) == key {
            return !directive.has_equals(i);
        }
    }
    false
}

// Whether an argument from an index on has this key.
fn has_key_from(directive: &DirectiveRef<'_>, from: usize, key: &[u8]) -> bool
    ensures { result ≡ has_key key.now (drop from (plain directive.now).args) }
{
    for i in from..directive.args() {
        if directive.key(i) == key {
            return true;
        }
    }
    false
}

// Whether two arguments have this key.
fn is_repeated(directive: &DirectiveRef<'_>, key: &[u8]) -> bool
    ensures { result ≡ is_repeated key.now (plain directive.now).args }
{
    for i in 0..directive.args() {
        if directive.key(i) == key {
            return has_key_from(directive, i + 1, key);
        }
    }
    false
}

// Says what an option with a wrong value takes.
fn form_of_option(directive: &DirectiveRef<'_>, key: &[u8]) -> Hint<'static>
    ensures { plain_hint result ≡ form_of_option (plain directive.now).args key.now }
{
    if is_repeated(directive, key) {
        Hint::Sentence(b"an option is given once")
    } else {
        said(option_line(key))
    }
}

fn form_of_argument(directive: &DirectiveRef<'_>, key: &[u8]) -> Hint<'static>
    ensures { plain_hint result ≡ form_of_argument (plain directive.now) key.now }
{
    if is_bare(directive, key) {
        form_of_word(directive, key)
    } else {
        form_of_option(directive, key)
    }
}

/// Finds the right form for a refused directive.
pub(crate) fn form_of_fault(
    directive: &DirectiveRef<'_>,
    fault: &DirectiveError<'_>,
) -> Hint<'static>
    ensures { plain_hint result ≡ form_of_fault (plain directive.now) fault.now }
{
    match fault {
        DirectiveError::UnknownDirective(_) => form_of_name(directive),
        DirectiveError::BadArgument(key) => form_of_argument(directive, key.bytes()),
        _ => Hint::Unknown,
    }
}

fn has_key(directive: &DirectiveRef<'_>, key: &[u8]) -> bool
    ensures { result ≡ has_key key.now (plain directive.now).args }
{
    has_key_from(directive, 0, key)
}

fn needs_index(directive: &DirectiveRef<'_>) -> bool
    ensures { result ≡ needs_index (plain directive.now).args }
{
    (has_key(directive, b"voters")
        || has_key(directive, b"learners")
        || has_key(directive, b"content"))
        && !has_key(directive, b"index")
}

// Whether this is a line of the input.
fn has_input(directive: &DirectiveRef<'_>, text: &[u8]) -> bool
    ensures { result ≡ has_input text.now (plain directive.now).inputs }
{
    for i in 0..directive.inputs() {
        if directive.input(i) == text {
            return true;
        }
    }
    false
}

/// Says what a directive that can be read is missing.
pub(crate) fn missing(directive: &DirectiveRef<'_>) -> Hint<'static>
    ensures { plain_hint result ≡ missing (plain directive.now) }
{
    if directive.name() == b"add-nodes".as_slice() && needs_index(directive) {
        Hint::Sentence(b"voters, learners and content need index=N, 2 or more")
    } else if has_input(directive, b"---") {
        Hint::Meant(b"----")
    } else {
        Hint::Unknown
    }
}
