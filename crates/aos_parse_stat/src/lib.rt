//! From tokens to the trees of blocks and their statements.
//!
//! `block(alloc, tokens, at, depth)` gives the tree of the block that begins at `at`, and the place after it, or says at
//! which token the text breaks rule 6 (syntax) or rule 7 (nesting too deep). It descends with one token of sight, and no
//! deeper than the nesting, which ends at 200.
#![tactic(auto)]

mod descent;
pub mod laws;
mod phrases;
mod token;

ghost use Rattle.std.specs.Prelude.{◌≡◌, ◌≤◌, ◌<◌, drop, length, IfOk};
ghost use Rattle.aos_base.specs.declared.text.Pos.{Pos};
ghost use Rattle.aos_tree.specs.Begins.{CeasesAt, ExpectsAt, TooDeepAt};
ghost use Rattle.aos_tree.specs.Ended.{IsEnded};
ghost use Rattle.aos_tree.specs.Nesting.{shallow};
ghost use Rattle.aos_parse_stat.specs.Grammar.{block_at};

use aos_parse_expr::ParseErr;
use aos_scan::Token;
use aos_tree::Block;
use std::alloc::Global;

/// The tree of the block that begins at `at`, `BEGIN ["{" Modifier {"," Modifier} "}"] StatSeq END`, and the place after
/// it, where `depth` productions that nest are open round it, 200 at most. The last token and no other is `End`.
///
/// `Expected` names the token where another is expected, `Deep` the one where the nesting passes 200; at one place `Deep`
/// comes first, wherever all that could stand there would be too deep. `NoMemory` comes where the tree finds no memory.
pub fn block(
    alloc: Global,
    tokens: &[Token],
    at: usize,
    depth: u32,
) -> Result<(Block, usize), ParseErr>
    requires ended { IsEnded tokens.now }
    requires inside { at < length tokens.now }
    requires nested { depth ≤ 200 }
    ensures place { IfOk result (λ r. (at < r.1) × (r.1 < length tokens.now)) }
    // The tree reads the tokens up to the place after it, none of them too deep, and the next does not go on with them.
    ensures tree { IfOk result
        (λ r. block_at depth shallow r.0 (drop at tokens.now) (drop r.1 tokens.now)) }
    ensures longest { IfOk result
        (λ r. CeasesAt (block_at depth) (drop at tokens.now) (drop r.1 tokens.now)) }
    ensures expected { (p : Pos) → result ≡ Err (ParseErr.Expected p) →
        ExpectsAt (block_at depth) (drop at tokens.now) p }
    ensures deep { (p : Pos) → result ≡ Err (ParseErr.Deep p) →
        TooDeepAt (block_at depth) (drop at tokens.now) p }
{
    let (tree, rest) = descent::block(alloc, &tokens[at..], depth)?;
    Ok((tree, tokens.len() - rest.len()))
}
