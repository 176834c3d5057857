//! Parameters of a method, by the keys that lead to them.

ghost use Rattle.std.specs.Prelude.{◌≡◌, option_map};
ghost use Rattle.serde_json.specs.View.{view};
ghost use Rattle.rb_lsp.specs.Params.{as_position, number_at, number_below, position_at, range_at, text_at, text_below};

use crate::document::{Position, Range};
use serde_json::Value;

/// The text at a key.
pub fn text_at<'m>(params: &'m Value, key: &str) -> Option<&'m str>
    ensures { option_map (λ text. text.now) result ≡ text_at key.now (view params.now) }
{
    params.get(key).and_then(Value::as_str)
}

/// The text at a key of the object at another.
pub fn text_below<'m>(params: &'m Value, key: &str, inner: &str) -> Option<&'m str>
    ensures { option_map (λ text. text.now) result ≡ text_below key.now inner.now (view params.now) }
{
    text_at(params.get(key)?, inner)
}

/// The natural number at a key of the object at another.
pub fn number_below(params: &Value, key: &str, inner: &str) -> Option<u64>
    ensures { result ≡ number_below key.now inner.now (view params.now) }
{
    number_at(params.get(key)?, inner)
}

/// The position at a key: an object with `line` and `character`.
pub fn position_at(params: &Value, key: &str) -> Option<Position>
    ensures { result ≡ position_at key.now (view params.now) }
{
    as_position(params.get(key)?)
}

/// The position that a value is, if it is one.
pub fn as_position(value: &Value) -> Option<Position>
    ensures { result ≡ as_position (view value.now) }
{
    Some(Position {
        line: number_at(value, "line")?,
        character: number_at(value, "character")?,
    })
}

/// The range at a key: an object with `start` and `end`.
pub fn range_at(params: &Value, key: &str) -> Option<Range>
    ensures { result ≡ range_at key.now (view params.now) }
{
    let range = params.get(key)?;
    Some(Range {
        start: position_at(range, "start")?,
        end: position_at(range, "end")?,
    })
}

/// The natural number at a key.
pub fn number_at(params: &Value, key: &str) -> Option<u64>
    ensures { result ≡ number_at key.now (view params.now) }
{
    params.get(key).and_then(Value::as_u64)
}
