//! Settings in the environment.

ghost use Rattle.std.specs.Prelude.{◌≡◌, ℕ, List, Option, ⊤, codes, option_map, string_bytes};
ghost use Rattle.rb_program.specs.Choices.{IsSetting, has_text};

use std::env;
use std::rt::Env;

/// Tells settings. Code over it is proved for all that an environment may tell.
pub trait Environment {
    // the environment tells that this is the text of the name, or that it has none
    ghost tells_setting: { Self → List ℕ → Option (List ℕ) → Type 0 };

    /// The text of this name.
    fn setting(&self, name: &str) -> Option<String>
        ensures { tells_setting self.now name.now (option_map string_bytes result) };
}

// What is in the environment is not known.
impl<R: Env + AllocGlobal> Environment for R {
    ghost tells_setting = { λ _ _ _. ⊤ };

    fn setting(&self, name: &str) -> Option<String> {
        match env::var(self, name) {
            Ok(text) => Some(text),
            Err(_) => None,
        }
    }
}

/// Whether the setting of this name has a text.
pub(crate) fn is_set<S: Environment>(system: &S, name: &str) -> bool
    ensures { IsSetting (S.tells_setting system.now) name.now result }
{
    has_text(system.setting(name).as_deref())
}

fn has_text(setting: Option<&str>) -> bool
    ensures { result ≡ has_text (option_map (λ text. text.now) setting.entry) }
{
    match setting {
        Some(text) => !text.is_empty(),
        None => false,
    }
}

/// Whether the terminal gives each key at once, without Enter: RAFTBENCH_KEYS has a text.
pub(crate) fn gives_keys<S: Environment>(system: &S) -> bool
    ensures { IsSetting (S.tells_setting system.now) (codes "RAFTBENCH_KEYS") result }
{
    is_set(system, "RAFTBENCH_KEYS")
}

/// Whether errors are explained by a second line where standard error is no terminal: RAFTBENCH_EXPLAIN has a text.
pub(crate) fn asks_for_explanations<S: Environment>(system: &S) -> bool
    ensures { IsSetting (S.tells_setting system.now) (codes "RAFTBENCH_EXPLAIN") result }
{
    is_set(system, "RAFTBENCH_EXPLAIN")
}
