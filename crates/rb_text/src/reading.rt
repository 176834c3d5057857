//! Reading the first bytes of a source.

ghost use Rattle.std.specs.Prelude.{◌≡◌, ◌++◌, ◌+◌, ◌≤◌, ◌<◌, ℕ, List, length, take, IfOk, IfErr, IfSome, OnOk, vec_len};
ghost use Rattle.std.specs.Io.KnownBytes.{Consumes, IsAtEnd};
ghost use Rattle.rb_text.specs.Asked.{Asks, AsksFor, Fails};
ghost use Rattle.rb_text.specs.Reading.{Loses, StopsWithin};

use crate::source::Source;
use std::alloc::Global;

/// Why a source couldn't be read.
#[derive(Clone, Copy, Debug, PartialEq, Eq)]
pub enum ReadFault {
    /// The source failed.
    Io,
    /// There was no memory.
    OutOfMemory,
}

// The most bytes of one call.
const CHUNK: usize = 16_384;

/// Reads the source to its end, but at most `most` bytes.
///
/// # Errors
///
/// `Io` at the first error of the source, also an interrupted call. `OutOfMemory` if there is no memory. Then too, at most `most`
/// bytes are read.
pub fn read_up_to<S: Source>(
    alloc: Global,
    source: &mut S,
    most: usize,
) -> Result<Vec<u8>, ReadFault>
    ensures within { IfOk result (λ bytes. vec_len bytes ≤ most) }
    ensures consumed { IfOk result (λ bytes. Consumes (S.left source.old) (S.left source.new) bytes.items) }
    ensures whole { IfOk result (λ bytes. IfSome (S.left source.old) (λ all. bytes.items ≡ take most all)) }
    ensures failed { IfErr result (λ fault. (lost : List ℕ) × StopsWithin fault most lost
        × Consumes (S.left source.old) (S.left source.new) lost) }
    // The source is called at most as often as the bytes require.
    ensures asked { AsksFor (S.left source.old) (S.asked source.old) (S.asked source.new) most }
    // A failed call is reported.
    ensures unfailed { OnOk result (Fails (S.asked source.old) (S.asked source.new) 0) }
    // With a source that never fails, only memory can run out.
    ensures all { S.gives_all source.old → IfErr result (λ fault. fault ≡ ReadFault.OutOfMemory) × S.gives_all source.new }
{
    let mut bytes = Vec::new(alloc);
    let mut chunk = [0u8; CHUNK];
    while bytes.len() < most {
        if read_some(source, &mut bytes, &mut chunk, most)? == 0 {
            return Ok(bytes);
        }
    }
    Ok(bytes)
}

// Appends the bytes of one call, which requests no more than are missing.
fn read_some<S: Source>(
    source: &mut S,
    bytes: &mut Vec<u8>,
    chunk: &mut [u8; CHUNK],
    most: usize,
) -> Result<usize, ReadFault>
    requires { vec_len bytes.old < most }
    ensures count { IfOk result (λ n. vec_len bytes.new ≡ vec_len bytes.old + n) }
    ensures most { IfOk result (λ n. vec_len bytes.new ≤ most) }
    ensures consumed { IfOk result (λ n. (more : List ℕ) × (bytes.new.items ≡ bytes.old.items ++ more)
        × Consumes (S.left source.old) (S.left source.new) more) }
    ensures end { IfOk result (λ n. n ≡ 0 → IsAtEnd (S.left source.new)) }
    ensures failed { IfErr result (λ fault. (lost : List ℕ) × Loses fault lost × (vec_len bytes.old + length lost ≤ most)
        × Consumes (S.left source.old) (S.left source.new) lost) }
    ensures asked { Asks (S.asked source.old) (S.asked source.new) 1 }
    ensures unfailed { OnOk result (Fails (S.asked source.old) (S.asked source.new) 0) }
    ensures all { S.gives_all source.old → IfErr result (λ fault. fault ≡ ReadFault.OutOfMemory) × S.gives_all source.new }
{
    let room = CHUNK.min(most - bytes.len());
    let Ok(n) = source.get(&mut chunk[..room]) else {
        return Err(ReadFault::Io);
    };
    if n == 0 {
        return Ok(0);
    }
    match bytes.extend_from_slice(&chunk[..n]) {
        Ok(()) => Ok(n),
        Err(_) => Err(ReadFault::OutOfMemory),
    }
}
