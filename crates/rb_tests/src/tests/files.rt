//! A file in memory is a place of which all is known. A text is put in it, with each call of it failing in turn, and each with the
//! removing too, and with each thing that a look at the file may show.

mod checks;

ghost use Rattle.std.specs.Prelude.{◌≡◌, true, Some, option_map, unwrap_or};

use super::{is, is_in_row, is_text};
use rb_files::{FilePlace, PathError, replace};
use rb_report::check::Failure;
use std::alloc::Global;
use std::io;
use std::io::ErrorKind;
use std::process::Abort;

#[derive(Drop)]
struct Page {
    text: Vec<u8>,
    is_settled: bool,
}

// Its calls fail as they are marked: create, put, settle, rename, remove. A look fails with its error, if it has one, or else if the file
// isn't the one that was read.
#[derive(Drop)]
struct Shelf {
    alloc: Global,
    file: Page,
    new: Option<Page>,
    told: Option<PathError>,
    is_stuck: bool,
    is_same: bool,
    is_looked_at: bool,
    unseen: Option<PathError>,
    fails: [bool; 5],
}

// What was told first.
fn first_told(told: Option<PathError>, error: PathError) -> Option<PathError>
    ensures { result ≡ Some (unwrap_or told error) }
{
    match told {
        Some(first) => Some(first),
        None => Some(error),
    }
}

impl FilePlace for Shelf {
    ghost stands = { λ s. Some (record {
      file = record { text = s.file.text.items; is_settled = s.file.is_settled };
      new = option_map (λ p. record { text = p.text.items; is_settled = p.is_settled }) s.new;
      told = s.told;
      is_stuck = s.is_stuck;
      is_same = s.is_same;
    }) };

    ghost is_unchanged = { λ s. (s.is_same ≡ true) × (s.is_looked_at ≡ true) };

    fn create(&mut self) -> Result<(), PathError> {
        if self.fails[0] {
            let error = PathError::alone(Failure::NotWritten);
            self.told = first_told(self.told, error);
            return Err(error);
        }
        self.new = Some(Page {
            text: Vec::new(self.alloc),
            is_settled: false,
        });
        Ok(())
    }

    fn put(&mut self, bytes: &[u8]) -> Result<(), PathError> {
        if self.fails[1] {
            let error = PathError::alone(Failure::NotWritten);
            self.told = first_told(self.told, error);
            return Err(error);
        }
        let Some(page) = self.new.take() else {
            return Ok(());
        };
        let mut text = page.text;
        let outcome = text.extend_from_slice(bytes);
        self.new = Some(Page {
            text,
            is_settled: false,
        });
        match outcome {
            Ok(()) => Ok(()),
            Err(_) => {
                let error = PathError::alone(Failure::OutOfMemory);
                self.told = first_told(self.told, error);
                Err(error)
            }
        }
    }

    fn settle(&mut self) -> Result<(), PathError> {
        if self.fails[2] {
            let error = PathError::alone(Failure::NotWritten);
            self.told = first_told(self.told, error);
            return Err(error);
        }
        if let Some(page) = &mut self.new {
            page.is_settled = true;
        }
        Ok(())
    }

    fn look(&mut self) -> Result<(), PathError> {
        if let Some(error) = self.unseen {
            self.told = first_told(self.told, error);
            return Err(error);
        }
        if !self.is_same {
            let error = PathError::alone(Failure::NotWritten);
            self.told = first_told(self.told, error);
            return Err(error);
        }
        self.is_looked_at = true;
        Ok(())
    }

    fn rename(&mut self) -> Result<(), PathError> {
        if self.fails[3] {
            let error = PathError::alone(Failure::NotWritten);
            self.told = first_told(self.told, error);
            return Err(error);
        }
        self.is_same = false;
        if let Some(page) = self.new.take() {
            self.file = page;
        }
        Ok(())
    }

    fn remove(&mut self) -> Result<(), PathError> {
        if self.fails[4] {
            self.is_stuck = true;
            let error = PathError::alone(Failure::NotRead);
            self.told = first_told(self.told, error);
            return Err(error);
        }
        self.new = None;
        Ok(())
    }
}

fn shelf_that_fails(rt: &impl Abort, alloc: Global, fails: [bool; 5]) -> Shelf {
    Shelf {
        alloc,
        file: Page {
            text: Vec::from_slice(alloc, b"old").expect(rt, "memory"),
            is_settled: true,
        },
        new: None,
        told: None,
        is_stuck: false,
        is_same: true,
        is_looked_at: false,
        unseen: None,
        fails,
    }
}

/// The file has this text.
fn has_text(rt: &impl Abort, shelf: &Shelf, want: &[u8]) {
    is_text(rt, shelf.file.text.as_slice(), want);
}

#[test]
fn replaces_a_text(rt: HostRuntime) {
    let mut shelf = shelf_that_fails(&rt, rt.alloc(), [false; 5]);
    is(&rt, replace(&mut shelf, b"new").is_ok(), "replaced");
    has_text(&rt, &shelf, b"new");
    is(&rt, shelf.file.is_settled && shelf.new.is_none(), "settled");
    drop(shelf);
}

/// Whether the new file was removed, where the text wasn't replaced.
fn removed(shelf: &mut Shelf) -> Option<bool> {
    match replace(shelf, b"new") {
        Ok(()) => None,
        Err(why) => Some(why.is_removed),
    }
}

/// A shelf that fails has its old text, and the new file where that can't be removed.
fn keeps_the_old_text(rt: &impl Abort, shelf: &mut Shelf, is_left: bool, call: usize) {
    is_in_row(rt, removed(shelf) == Some(!is_left), "a failure", call);
    is_in_row(rt, shelf.new.is_some() == is_left, "a file left", call);
    has_text(rt, shelf, b"old");
}

#[test]
fn keeps_the_old_text_where_a_call_fails(rt: HostRuntime) {
    for call in 0..4usize {
        for is_stuck in [false, true] {
            let fails = [call == 0, call == 1, call == 2, call == 3, is_stuck];
            let mut shelf = shelf_that_fails(&rt, rt.alloc(), fails);
            keeps_the_old_text(&rt, &mut shelf, is_stuck && call != 0, call);
            drop(shelf);
        }
    }
}

// A text isn't put in the place of a file that a look shows like this: the new file is removed.
fn keeps_what_is_there(rt: &impl Abort, alloc: Global, is_same: bool, unseen: Option<PathError>) {
    let mut shelf = shelf_that_fails(rt, alloc, [false; 5]);
    shelf.is_same = is_same;
    shelf.unseen = unseen;
    is(rt, removed(&mut shelf) == Some(true), "not replaced");
    has_text(rt, &shelf, b"old");
    drop(shelf);
}

#[test]
fn replaces_only_what_was_read(rt: HostRuntime) {
    let gone = PathError::of_writing(io::Error::from(ErrorKind::NotFound));
    let refused = PathError::of_writing(io::Error::from(ErrorKind::PermissionDenied));
    keeps_what_is_there(&rt, rt.alloc(), false, None);
    keeps_what_is_there(&rt, rt.alloc(), false, Some(gone));
    keeps_what_is_there(&rt, rt.alloc(), true, Some(refused));
}
