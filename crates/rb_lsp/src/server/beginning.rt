//! What a client offers in `initialize`, and what a server uses of it.

ghost use Rattle.std.specs.Prelude.{◌≡◌, true, false, IfOk, codes, map, option_map};
ghost use Rattle.serde_json.specs.Find.{as_str, get};
ghost use Rattle.serde_json.specs.View.{items_of, members_view, view};
ghost use Rattle.rb_lsp.specs.Beginnings.{capabilities, chosen_encoding, client_commands, client_of, completes, document_capabilities, encoding_name, first_capabilities, for_documents, initialized, is_among, is_object, is_set, is_text, last_capabilities, names_bytes, of_diagnostics, of_items, offered, offers_bytes, pulls, reports, runs_command, says_related, says_setting, says_snippets, synchronizes, takes_related, takes_snippets};

use crate::document::Encoding;
use crate::server::client::Client;
use serde_json::{Map, Value, json, put};
use std::alloc::{AllocError, Global};

/// The client of these parameters of `initialize`. None if they aren't an object.
pub(crate) fn client_of(params: Option<&Value>) -> Option<Client>
    ensures { result ≡ client_of (option_map (λ v. view v.now) params.entry) }
{
    let params = params?;
    if !params.is_object() {
        return None;
    }
    Some(Client {
        encoding: chosen_encoding(params),
        takes_related: takes_related(params),
        takes_snippets: takes_snippets(params),
        pulls: pulls(params),
        runs_accept: runs_command(params, "raftbench.accept"),
        opens_pages: runs_command(params, "raftbench.openPage"),
        softens_later: is_set(params, "softenLaterMismatches"),
        shows_hints: is_set(params, "inlayHints"),
    })
}

// The unit of columns: bytes if the client offers them, else units of UTF-16, which each client counts in.
fn chosen_encoding(params: &Value) -> Encoding
    ensures { result ≡ chosen_encoding (view params.now) }
{
    if offers_bytes(params) {
        Encoding::Utf8
    } else {
        Encoding::Utf16
    }
}

// Whether bytes are among the first three encodings that are offered. The protocol knows three.
fn offers_bytes(params: &Value) -> bool
    ensures { result ≡ offers_bytes (view params.now) }
{
    match offered(params) {
        Some(names) => names_bytes(names, 0) || names_bytes(names, 1) || names_bytes(names, 2),
        None => false,
    }
}

// The encodings that a client offers, by name.
fn offered(params: &Value) -> Option<&Value>
    ensures { option_map (λ v. view v.now) result ≡ offered (view params.now) }
{
    let capabilities = params.get("capabilities")?;
    let general = capabilities.get("general")?;
    general.get("positionEncodings")
}

// A client's capabilities for diagnostics.
fn of_diagnostics(params: &Value) -> Option<&Value>
    ensures { option_map (λ v. view v.now) result ≡ of_diagnostics (view params.now) }
{
    let capabilities = params.get("capabilities")?;
    let documents = capabilities.get("textDocument")?;
    documents.get("publishDiagnostics")
}

// Whether a client takes related information with a diagnostic.
fn takes_related(params: &Value) -> bool
    ensures { result ≡ takes_related (view params.now) }
{
    of_diagnostics(params)
        .and_then(says_related)
        .unwrap_or(false)
}

// Whether related information is among these capabilities.
fn says_related(taken: &Value) -> Option<bool>
    ensures { result ≡ says_related (view taken.now) }
{
    taken.get("relatedInformation").and_then(Value::as_bool)
}

// Whether a client asks for diagnostics.
fn pulls(params: &Value) -> bool
    ensures { result ≡ pulls (view params.now) }
{
    is_object(for_documents(params).and_then(says_pulls))
}

// A client's capabilities for documents.
fn for_documents(params: &Value) -> Option<&Value>
    ensures { option_map (λ v. view v.now) result ≡ for_documents (view params.now) }
{
    params.get("capabilities")?.get("textDocument")
}

// Those for asking for diagnostics.
fn says_pulls(taken: &Value) -> Option<&Value>
    ensures { option_map (λ v. view v.now) result ≡ get (codes "diagnostic") (view taken.now) }
{
    taken.get("diagnostic")
}

// Whether a value is an object.
fn is_object(value: Option<&Value>) -> bool
    ensures { result ≡ is_object (option_map (λ v. view v.now) value.entry) }
{
    match value {
        Some(value) => value.is_object(),
        None => false,
    }
}

// A client's capabilities for completion items.
fn of_items(params: &Value) -> Option<&Value>
    ensures { option_map (λ v. view v.now) result ≡ of_items (view params.now) }
{
    let capabilities = params.get("capabilities")?;
    let documents = capabilities.get("textDocument")?;
    documents.get("completion")?.get("completionItem")
}

// Whether a client takes snippets as completions.
fn takes_snippets(params: &Value) -> bool
    ensures { result ≡ takes_snippets (view params.now) }
{
    of_items(params).and_then(says_snippets).unwrap_or(false)
}

// Whether snippets are among these capabilities.
fn says_snippets(taken: &Value) -> Option<bool>
    ensures { result ≡ says_snippets (view taken.now) }
{
    taken.get("snippetSupport").and_then(Value::as_bool)
}

// The commands that a client runs itself, by name.
fn client_commands(params: &Value) -> Option<&Value>
    ensures { option_map (λ v. view v.now) result ≡ client_commands (view params.now) }
{
    let capabilities = params.get("capabilities")?;
    let experimental = capabilities.get("experimental")?;
    experimental.get("commands")?.get("commands")
}

// Whether a value is this name.
fn is_text(name: &str, other: &Value) -> bool
    ensures { result ≡ is_text name.now (as_str (view other.now)) }
{
    match other.as_str() {
        Some(other) => other == name,
        None => false,
    }
}

// Whether a name is one of these.
fn is_among(name: &str, names: &[Value]) -> bool
    ensures { result ≡ is_among name.now (items_of (map view names.now)) }
{
    for other in names {
        if is_text(name, other) {
            return true;
        }
    }
    false
}

// Whether a client runs the command of this name.
fn runs_command(params: &Value, name: &str) -> bool
    ensures { result ≡ runs_command name.now (view params.now) }
{
    match client_commands(params).and_then(Value::as_array) {
        Some(names) => is_among(name, names.as_slice()),
        None => false,
    }
}

// Whether something is so that has a setting of this name: yes, unless the client's settings say no.
fn is_set(params: &Value, name: &str) -> bool
    ensures { result ≡ is_set name.now (view params.now) }
{
    match params.get("initializationOptions") {
        Some(settings) => says_setting(settings, name).unwrap_or(true),
        None => true,
    }
}

// What the settings say under this name.
fn says_setting(settings: &Value, name: &str) -> Option<bool>
    ensures { result ≡ says_setting name.now (view settings.now) }
{
    settings.get(name).and_then(Value::as_bool)
}

// Whether the name at an index is that of bytes.
fn names_bytes(names: &Value, n: usize) -> bool
    ensures { result ≡ names_bytes n (view names.now) }
{
    match names.get(n).and_then(Value::as_str) {
        Some(name) => name == "utf-8",
        None => false,
    }
}

fn encoding_name(encoding: Encoding) -> &'static str
    ensures { result.now ≡ encoding_name encoding }
{
    match encoding {
        Encoding::Utf8 => "utf-8",
        Encoding::Utf16 => "utf-16",
    }
}

// The server wants notifications of opened and closed documents, and changes one by one.
#[tactic(auto, unfolding(crate::specs::Beginnings::synchronizes))]
fn synchronizes(alloc: Global) -> Result<Value, AllocError>
    ensures { IfOk result (λ value. view value ≡ synchronizes) }
{
    json!(in alloc; {"openClose": true, "change": 2})
}

// The characters that trigger completion: an option's values begin after each.
#[tactic(auto, unfolding(crate::specs::Beginnings::completes))]
fn completes(alloc: Global) -> Result<Value, AllocError>
    ensures { IfOk result (λ value. view value ≡ completes) }
{
    json!(in alloc; {"triggerCharacters": ["=", "(", ","]})
}

// What a client that asks for diagnostics gets: each document's are of its own text alone.
#[tactic(auto, unfolding(crate::specs::Beginnings::reports))]
fn reports(alloc: Global) -> Result<Value, AllocError>
    ensures { IfOk result (λ value. view value ≡ reports) }
{
    json!(in alloc; {"identifier": "raftbench", "interFileDependencies": false, "workspaceDiagnostics": false})
}

// What the server can do, in order by the members' names, from `hoverProvider` on. The last member is put first, and each of the others before it.
#[tactic(auto, unfolding(crate::specs::Beginnings::last_capabilities))]
fn last_capabilities(alloc: Global, encoding: Encoding) -> Result<Map<String, Value>, AllocError>
    ensures { IfOk result (λ map. members_view map.entries ≡ last_capabilities encoding) }
{
    let name = Value::try_from_str(alloc, encoding_name(encoding))?;
    let mut map = Map::new(alloc);
    put(&mut map, alloc, "textDocumentSync", synchronizes(alloc)?)?;
    put(&mut map, alloc, "selectionRangeProvider", Value::Bool(true))?;
    put(&mut map, alloc, "referencesProvider", Value::Bool(true))?;
    put(&mut map, alloc, "positionEncoding", name)?;
    put(&mut map, alloc, "inlayHintProvider", Value::Bool(true))?;
    put(&mut map, alloc, "hoverProvider", Value::Bool(true))?;
    Ok(map)
}

// Those from `documentFormattingProvider` on.
#[tactic(auto, unfolding(crate::specs::Beginnings::document_capabilities, crate::specs::Beginnings::last_capabilities))]
fn document_capabilities(
    alloc: Global,
    encoding: Encoding,
) -> Result<Map<String, Value>, AllocError>
    ensures { IfOk result (λ map. members_view map.entries ≡ document_capabilities encoding) }
{
    let mut map = last_capabilities(alloc, encoding)?;
    put(&mut map, alloc, "foldingRangeProvider", Value::Bool(true))?;
    put(&mut map, alloc, "documentSymbolProvider", Value::Bool(true))?;
    put(
        &mut map,
        alloc,
        "documentRangeFormattingProvider",
        Value::Bool(true),
    )?;
    put(
        &mut map,
        alloc,
        "documentHighlightProvider",
        Value::Bool(true),
    )?;
    put(
        &mut map,
        alloc,
        "documentFormattingProvider",
        Value::Bool(true),
    )?;
    Ok(map)
}

// All of them, for a client that doesn't ask for diagnostics.
#[tactic(auto, unfolding(crate::specs::Beginnings::document_capabilities))]
fn publishing(alloc: Global, encoding: Encoding) -> Result<Map<String, Value>, AllocError>
    ensures { IfOk result (λ map. members_view map.entries ≡ first_capabilities (document_capabilities encoding)) }
{
    let mut map = document_capabilities(alloc, encoding)?;
    put(&mut map, alloc, "definitionProvider", Value::Bool(true))?;
    put(&mut map, alloc, "completionProvider", completes(alloc)?)?;
    put(
        &mut map,
        alloc,
        "codeLensProvider",
        Value::Object(Map::new(alloc)),
    )?;
    put(&mut map, alloc, "codeActionProvider", Value::Bool(true))?;
    Ok(map)
}

// The server's capabilities.
#[tactic(auto, unfolding(crate::specs::Beginnings::capabilities, crate::specs::Beginnings::document_capabilities))]
fn capabilities(alloc: Global, encoding: Encoding, pulls: bool) -> Result<Value, AllocError>
    ensures { IfOk result (λ value. view value ≡ capabilities encoding pulls) }
{
    let mut map = publishing(alloc, encoding)?;
    if !pulls {
        return Ok(Value::Object(map));
    }
    put(&mut map, alloc, "diagnosticProvider", reports(alloc)?)?;
    Ok(Value::Object(map))
}

/// The answer to `initialize`: the server's capabilities.
#[tactic(auto, unfolding(crate::specs::Beginnings::initialized))]
pub(crate) fn initialized(alloc: Global, client: Client) -> Result<Value, AllocError>
    ensures { IfOk result (λ value. view value ≡ initialized client.encoding client.pulls) }
{
    let capabilities = capabilities(alloc, client.encoding, client.pulls)?;
    json!(in alloc; {"capabilities": capabilities, "serverInfo": {"name": "raftbench"}})
}
