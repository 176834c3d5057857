//! A writer whose calls are all interrupted, and counted: over such a one the clause `counted` of a write says something.

ghost use Rattle.std.specs.Prelude.{◌≡◌};

use crate::tests::is;
use rb_script::Writer;
use rb_text::FailFast;
use std::io;
use std::io::{Error, ErrorKind, Write};
use std::process::Abort;

/// Counts the calls that failed, and those that were made after one had failed.
#[derive(Drop)]
struct Interrupted<'a, R> {
    failed: u64,
    late: u64,
    rt: &'a R,
}

impl<R: Abort> Interrupted<'_, R> {
    ghost use Rattle.std.specs.Prelude.{◌≡◌, ◌+◌, min};

    fn fail(&mut self) -> Error
        ensures failed { self.new.failed ≡ self.old.failed + 1 }
        ensures late { self.new.late ≡ self.old.late + min 1 self.old.failed }
    {
        let late = self.late.checked_add(self.failed.min(1));
        let failed = self.failed.checked_add(1);
        self.late = late.expect(self.rt, "fewer calls");
        self.failed = failed.expect(self.rt, "fewer calls");
        Error::from(ErrorKind::Interrupted)
    }
}

impl<R: Abort> Writer for Interrupted<'_, R> {
    ghost use Rattle.std.specs.Prelude.{Some, None};

    ghost contents = { λ _. None };

    ghost calls = { λ w. Some (record { failed = w.failed; late = w.late }) };

    fn write_part(&mut self, _bytes: &[u8]) -> io::Result<usize> {
        Err(self.fail())
    }

    fn hand_on(&mut self) -> io::Result<()> {
        Err(self.fail())
    }
}

/// How many calls failed, how many were made after that, and whether the failure is reported as an interruption.
fn write_once<R: Abort>(rt: &R) -> (u64, u64, bool)
    ensures late { result.1 ≡ 0 }
{
    let mut writer = FailFast(Interrupted {
        failed: 0,
        late: 0,
        rt,
    });
    let is_interruption = match writer.write(b"text") {
        Ok(_) => false,
        Err(error) => error.kind() == ErrorKind::Interrupted,
    };
    (writer.0.failed, writer.0.late, is_interruption)
}

#[test]
fn an_interrupted_write_is_made_once(rt: HostRuntime) {
    is(
        &rt,
        write_once(&rt) == (1, 0, false),
        "one call, and another failure",
    );
}
