//! The methods that a server knows.

ghost use Rattle.std.specs.Prelude.{◌≡◌};
ghost use Rattle.rb_lsp.specs.Methods.{document_method, is_of_documents, message_method, method_of, question_method, whole_method};

/// A kind of request about a document.
#[derive(Clone, Copy, Debug, PartialEq, Eq)]
pub(crate) enum Question {
    CodeAction,
    Formatting,
    RangeFormatting,
    Hover,
    Rows,
    Completion,
    FoldingRange,
    DocumentSymbol,
    Definition,
    References,
    DocumentHighlight,
    CodeLens,
    InlayHint,
    Diagnostic,
    SelectionRange,
}

/// A method.
#[derive(Clone, Copy, Debug, PartialEq, Eq)]
pub(crate) enum Method {
    Initialize,
    Shutdown,
    Exit,
    /// An editor has opened a document.
    DidOpen,
    /// Its text has changed.
    DidChange,
    /// It is no longer open.
    DidClose,
    /// A client asks something about it.
    Asks(Question),
    /// Any other.
    Unknown,
}

// The method of this name that asks about a whole document.
#[tactic(auto, unfolding(crate::specs::Methods::whole_method))]
fn whole_method(name: &str) -> Method
    ensures { result ≡ whole_method name.now }
{
    if name == "textDocument/formatting" {
        Method::Asks(Question::Formatting)
    } else if name == "textDocument/foldingRange" {
        Method::Asks(Question::FoldingRange)
    } else if name == "textDocument/documentSymbol" {
        Method::Asks(Question::DocumentSymbol)
    } else if name == "textDocument/codeLens" {
        Method::Asks(Question::CodeLens)
    } else if name == "textDocument/diagnostic" {
        Method::Asks(Question::Diagnostic)
    } else {
        Method::Unknown
    }
}

// The method of this name that asks where else something is, or about a range.
#[tactic(auto, unfolding(crate::specs::Methods::message_method))]
fn message_method(name: &str) -> Method
    ensures { result ≡ message_method name.now }
{
    if name == "textDocument/definition" {
        Method::Asks(Question::Definition)
    } else if name == "textDocument/references" {
        Method::Asks(Question::References)
    } else if name == "textDocument/documentHighlight" {
        Method::Asks(Question::DocumentHighlight)
    } else if name == "textDocument/rangeFormatting" {
        Method::Asks(Question::RangeFormatting)
    } else if name == "textDocument/inlayHint" {
        Method::Asks(Question::InlayHint)
    } else if name == "textDocument/selectionRange" {
        Method::Asks(Question::SelectionRange)
    } else {
        whole_method(name)
    }
}

// The method of this name that asks about a document.
#[tactic(auto, unfolding(crate::specs::Methods::question_method))]
fn question_method(name: &str) -> Method
    ensures { result ≡ question_method name.now }
{
    if name == "textDocument/hover" {
        Method::Asks(Question::Hover)
    } else if name == "textDocument/codeAction" {
        Method::Asks(Question::CodeAction)
    } else if name == "textDocument/completion" {
        Method::Asks(Question::Completion)
    } else if name == "raftbench/rows" {
        Method::Asks(Question::Rows)
    } else {
        message_method(name)
    }
}

// The method of this name, of a document.
#[tactic(auto, unfolding(crate::specs::Methods::document_method))]
fn document_method(name: &str) -> Method
    ensures { result ≡ document_method name.now }
{
    if name == "textDocument/didOpen" {
        Method::DidOpen
    } else if name == "textDocument/didChange" {
        Method::DidChange
    } else if name == "textDocument/didClose" {
        Method::DidClose
    } else {
        question_method(name)
    }
}

/// The method of this name.
#[tactic(auto, unfolding(crate::specs::Methods::method_of))]
pub(crate) fn method_of(name: &str) -> Method
    ensures { result ≡ method_of name.now }
{
    if name == "initialize" {
        Method::Initialize
    } else if name == "shutdown" {
        Method::Shutdown
    } else if name == "exit" {
        Method::Exit
    } else {
        document_method(name)
    }
}

/// Whether it is about a document.
pub(crate) fn is_of_documents(method: Method) -> bool
    ensures { result ≡ is_of_documents method }
{
    matches!(
        method,
        Method::DidOpen | Method::DidChange | Method::DidClose
    )
}
