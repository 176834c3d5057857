//! The names of faults.

ghost use Rattle.std.specs.Prelude.{◌≡◌};
ghost use Rattle.rb_bench.specs.Names.{script_name, edit_name};

use rb_script::{EditFault, ScriptFault};

/// The name by which users know the fault.
pub fn script_fault_name(fault: ScriptFault) -> &'static str
    ensures { result.now ≡ script_name fault }
{
    match fault {
        ScriptFault::TooLong => "TooLong",
        ScriptFault::LineTooLong(_) => "LineTooLong",
        ScriptFault::BadLine(_) => "BadLine",
        ScriptFault::NoSeparator(_) => "NoSeparator",
        ScriptFault::NotClosed(_) => "NotClosed",
        ScriptFault::TooManyDirectives => "TooManyDirectives",
        ScriptFault::NotOneBlock => "NotOneBlock",
        ScriptFault::TooManyArguments(_) => "TooManyArguments",
        ScriptFault::OutOfMemory => "OutOfMemory",
    }
}

/// The name by which users know the fault.
pub fn edit_fault_name(fault: EditFault) -> &'static str
    ensures { result.now ≡ edit_name fault }
{
    match fault {
        EditFault::NoSuchPlace => "NoSuchPlace",
        EditFault::BadExpectation => "BadExpectation",
        EditFault::TooManyDirectives => "TooManyDirectives",
        EditFault::TooLong => "TooLong",
        EditFault::OutOfMemory => "OutOfMemory",
    }
}
