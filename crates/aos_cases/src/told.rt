// What is told of an answer that isn't the one wanted.

ghost use Rattle.std.specs.Prelude.{◌≡◌, OnOk, string_len};
ghost use Rattle.std.specs.String.{string_bytes};

use std::alloc::{AllocError, Global};

// How many bytes are shown of two texts that differ.
const SHOWN: usize = 72;

// How many of them stand before the difference, at most.
const BEFORE: usize = 24;

// The first place where two texts differ, or where the shorter one ends.
fn first_difference(got: &[u8], wanted: &[u8]) -> usize {
    let length = got.len().min(wanted.len());
    for at in 0..length {
        if got[at] != wanted[at] {
            return at;
        }
    }
    length
}

// The bytes that are shown from a place on, as a text.
fn shown(alloc: Global, bytes: &[u8], from: usize) -> Result<String, AllocError> {
    let rest = bytes.get(from..).unwrap_or(&[]);
    String::from_utf8_lossy(alloc, rest.get(..SHOWN).unwrap_or(rest))
}

// Two texts from a little before their first difference on.
fn difference(alloc: Global, got: &[u8], wanted: &[u8]) -> Result<String, AllocError> {
    let from = first_difference(got, wanted).saturating_sub(BEFORE);
    let got = shown(alloc, got, from)?;
    let wanted = shown(alloc, wanted, from)?;
    format!(in alloc; "{got:?} and not {wanted:?}")
}

/// Tells where the bytes that were got aren't those that are wanted, and nothing where they are the same. `what` says
/// what they are, and a comma parts what is told from what was told before.
pub fn tell(
    alloc: Global,
    told: &mut String,
    what: &str,
    got: &[u8],
    wanted: &str,
) -> Result<(), AllocError>
    ensures same { got.now ≡ wanted.now → string_bytes told.new ≡ string_bytes told.old }
    ensures silent { OnOk result (string_len told.new ≡ 0 → got.now ≡ wanted.now) }
{
    if got == wanted.as_bytes() {
        return Ok(());
    }
    if !told.is_empty() {
        told.push_str(", ")?;
    }
    told.push_str(what)?;
    told.push(' ')?;
    let difference = difference(alloc, got, wanted.as_bytes())?;
    told.push_str(difference.as_str())
}
