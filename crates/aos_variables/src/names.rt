// Names as the typed program has them, and the numbers behind others.

ghost use Rattle.std.specs.Prelude.{◌≡◌, ◌+◌, suc, IfOk};
ghost use Rattle.std.specs.String.{string_bytes};
ghost use Rattle.aos_variables.specs.Parts as judge;

use aos_symbols::word;
use aos_tree::Name;
use aos_unnamed::is_given;
use std::alloc::{AllocError, Global};

/// The bytes of a name, of which there are none where it was given.
fn shown(word: &[u8]) -> &[u8]
    ensures { result.now ≡ judge.shown word.now }
{
    if is_given(word) {
        return &word[..0];
    }
    word
}

/// A name as the typed program has it.
pub fn spelling_of(alloc: Global, text: &[u8], name: Name) -> Result<String, AllocError>
    ensures { IfOk result (λ s. string_bytes s ≡ judge.spelling text.now name) }
{
    String::from_utf8_lossy(alloc, shown(word(text, name)))
}

/// The number behind another one.
pub fn number_behind(number: u32) -> Result<u32, AllocError>
    ensures { IfOk result (λ n. n ≡ suc number) }
{
    match number.checked_add(1) {
        Some(next) => Ok(next),
        None => Err(AllocError),
    }
}

/// The number behind so many others.
pub fn number_at(number: u32, behind: u32) -> Result<u32, AllocError>
    ensures { IfOk result (λ n. n ≡ number + behind) }
{
    match number.checked_add(behind) {
        Some(at) => Ok(at),
        None => Err(AllocError),
    }
}
