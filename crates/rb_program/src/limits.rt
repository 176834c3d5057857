//! The limits of what the program writes of a script.

ghost use Rattle.std.specs.Prelude.{◌≡◌};
ghost use Rattle.rb_view.specs.declared.chart.draw.TheConstants.{MAX_EVENTS};
ghost use Rattle.rb_view.specs.declared.steps.room.TheConstants.{MAX_PAGE};

/// The numbers that definitions name: how many bytes the rows of a page may have, and how many items a picture.
pub fn limits_are()
    ensures page { MAX_PAGE ≡ 60000000 }
    ensures events { MAX_EVENTS ≡ 500000 }
{}
