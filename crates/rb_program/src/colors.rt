//! Whether colours are shown.

ghost use Rattle.std.specs.Prelude.{◌≡◌, option_map};
ghost use Rattle.rb_program.specs.Choices.{AreColors, color_choice_of, colors_of};

use crate::environment::{Environment, is_set};
use rb_report::check::Colors;

/// The values of `--color`.
#[derive(Clone, Copy)]
pub(crate) enum ColorChoice {
    Auto,
    Always,
    Never,
}

/// The value of `--color`; none is `auto`.
pub(crate) fn color_choice_of(word: Option<&str>) -> Option<ColorChoice>
    ensures { result ≡ color_choice_of (option_map (λ word. word.now) word.entry) }
{
    match word {
        None => Some(ColorChoice::Auto),
        Some(word) if word == "auto" => Some(ColorChoice::Auto),
        Some(word) if word == "always" => Some(ColorChoice::Always),
        Some(word) if word == "never" => Some(ColorChoice::Never),
        Some(_) => None,
    }
}

/// Whether colours are shown, where the report goes to a terminal or not. By itself it shows them on a terminal, where the environment's
/// NO_COLOR has no text (no-color.org).
pub(crate) fn colors<S: Environment>(system: &S, color: ColorChoice, is_terminal: bool) -> Colors
    ensures { AreColors (S.tells_setting system.now) color is_terminal result }
{
    colors_of(color, is_terminal, is_set(system, "NO_COLOR"))
}

fn colors_of(color: ColorChoice, is_terminal: bool, is_refused: bool) -> Colors
    ensures { result ≡ colors_of color is_terminal is_refused }
{
    match color {
        ColorChoice::Always => Colors::On,
        ColorChoice::Never => Colors::Off,
        ColorChoice::Auto => {
            if is_terminal && !is_refused {
                Colors::On
            } else {
                Colors::Off
            }
        }
    }
}
