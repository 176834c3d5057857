//! Putting a new text in a file's place.
//!
//! A [`FilePlace`] is a file with a text, next to which a new file can be made. The new text is written there first, whole and settled, and takes
//! the old one's place by one step: so whatever fails, the old text or the new one is in the place. This is proved of each place of which it
//! is known what is there and whose calls do what the trait says. Of each place it is proved that the new file takes the old one's place only
//! directly after a look that showed the file as it was when it was read. What real files hold is not known: that their place,
//! [`crate::AtomicReplace`], does what the trait says is tested, with calls of the system that fail in turn.

ghost use Rattle.std.specs.Prelude.{◌≡◌, ⊤, None, Option, IfOk, List, OnOk, ℕ};
ghost use Rattle.std.specs.Io.KnownBytes.{Appends};
ghost use Rattle.rb_files.specs.Places.{Standing, Turns, Prepares, Puts, Looks, Fills, Removes, Replaces, IsFresh, WasPut, created, settled, renamed};

use crate::path_error::PathError;

/// A file with a text, and the new file next to it, if there is one.
pub trait FilePlace {
    // the contents, and the first call's failure; `None` if they aren't known
    ghost stands: { Self → Option Standing };

    // the new file's text, if its writer says it
    ghost contents: { Self → Option (List ℕ) } = { λ _. None };

    // the last look showed the file that was read, as it was then
    ghost is_unchanged: { Self → Type 0 };

    // the new file has the old one's rights, and is stored, as the system said; true, where that isn't recorded
    ghost is_settled: { Self → Type 0 } = { λ _. ⊤ };

    /// Makes the new file, without a text.
    fn create(&mut self) -> Result<(), PathError>
        ensures { Turns created result (stands self.old) (stands self.new) };

    /// Appends to the new file's text.
    fn put(&mut self, bytes: &[u8]) -> Result<(), PathError>
        ensures told { Puts bytes.now result (stands self.old) (stands self.new) }
        ensures bytes { OnOk result (Appends (contents self.old) (contents self.new) bytes.now) };

    /// Gives the new file the old one's rights, and waits until it is stored.
    fn settle(&mut self) -> Result<(), PathError>
        ensures told { Turns settled result (stands self.old) (stands self.new) }
        ensures settled { IfOk result (λ _. is_settled self.new) }
        ensures bytes { contents self.new ≡ contents self.old };

    /// Looks at the file. Fails unless it is the one that was read, as it was then.
    fn look(&mut self) -> Result<(), PathError>
        ensures told { Looks result (stands self.old) (stands self.new) }
        ensures same { IfOk result (λ _. is_unchanged self.new) }
        ensures settled { is_settled self.old → is_settled self.new }
        ensures bytes { contents self.new ≡ contents self.old };

    /// Renames the new file to the old one.
    fn rename(&mut self) -> Result<(), PathError>
        requires same { is_unchanged self.old }
        requires settled { is_settled self.old }
        ensures { Turns renamed result (stands self.old) (stands self.new) };

    /// Removes the new file.
    fn remove(&mut self) -> Result<(), PathError>
        ensures { Removes result (stands self.old) (stands self.new) };
}

/// Why a text was not put in a place.
#[derive(Clone, Copy, Debug)]
pub struct Unreplaced {
    /// The first failure.
    pub error: PathError,
    /// Whether no new file is left.
    pub is_removed: bool,
}

/// Replaces the text of the place, which has no new file yet.
///
/// # Errors
///
/// What failed first. The place has its old text then, and the new file is removed again, unless that fails too: then `is_removed` is
/// false. Nothing is said of a place that had a new file before.
pub fn replace<P: FilePlace>(place: &mut P, text: &[u8]) -> Result<(), Unreplaced>
    ensures told { IsFresh (P.stands place.old) → Replaces text.now result (P.stands place.old) (P.stands place.new) }
    // Whatever is known of the place, its new file had the text.
    ensures put { IfOk result (λ _. WasPut P.contents P.is_unchanged P.is_settled text.now) }
{
    if let Err(error) = place.create() {
        return Err(Unreplaced {
            error,
            is_removed: true,
        });
    }
    match fill(place, text) {
        Ok(()) => Ok(()),
        Err(error) => {
            let is_removed = place.remove().is_ok();
            Err(Unreplaced { error, is_removed })
        }
    }
}

// Writes the text into the new file, and puts that in the old one's place if the file hasn't changed.
fn fill<P: FilePlace>(place: &mut P, text: &[u8]) -> Result<(), PathError>
    ensures told { Fills text.now result (P.stands place.old) (P.stands place.new) }
    ensures put { IfOk result (λ _. WasPut P.contents P.is_unchanged P.is_settled text.now) }
{
    prepare(place, text)?;
    place.rename()
}

// Writes the text into the new file, which is stored, and looks whether the file has changed.
fn prepare<P: FilePlace>(place: &mut P, text: &[u8]) -> Result<(), PathError>
    ensures told { Prepares text.now result (P.stands place.old) (P.stands place.new) }
    ensures bytes { OnOk result (Appends (P.contents place.old) (P.contents place.new) text.now) }
    ensures same { OnOk result (P.is_unchanged place.new) }
    ensures settled { OnOk result (P.is_settled place.new) }
{
    place.put(text)?;
    place.settle()?;
    place.look()
}
