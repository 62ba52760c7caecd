//! From tokens to the trees of modules.
//!
//! `module(alloc, tokens)` gives the tree that reads all the tokens of a text, or says at which token the text breaks rule
//! 6 (syntax) or rule 7 (nesting too deep). It descends with one token of sight, and no deeper than the nesting, which
//! ends at 200.
#![tactic(auto)]

mod declaration;
mod heading;
pub mod laws;
mod names;
mod phrases;
mod text;
mod token;

ghost use Rattle.std.specs.Prelude.{◌≡◌, IfOk};
ghost use Rattle.aos_base.specs.declared.text.Pos.{Pos};
ghost use Rattle.aos_tree.specs.Begins.{ExpectsAt, TooDeepAt};
ghost use Rattle.aos_tree.specs.Ended.{IsEnded};
ghost use Rattle.aos_tree.specs.ModuleGrammar.{Reads};
ghost use Rattle.aos_parse_mod.specs.Text.{module_at};

use aos_parse_expr::ParseErr;
use aos_scan::Token;
use aos_tree::Module;
use std::alloc::Global;

/// The tree of the module whose text the tokens are. The last token and no other is `End`.
///
/// `Expected` names the token where another is expected, which may be the end, or the one after a whole module; `Deep` the
/// one where the nesting passes 200; at one place `Deep` comes first, wherever all that could stand there would be too
/// deep. `NoMemory` comes where the tree finds no memory.
pub fn module(alloc: Global, tokens: &[Token]) -> Result<Module, ParseErr>
    requires ended { IsEnded tokens.now }
    // The tree reads all the tokens, none of them too deep.
    ensures tree { IfOk result (λ tree. Reads tree tokens.now) }
    ensures expected { (p : Pos) → result ≡ Err (ParseErr.Expected p) →
        ExpectsAt module_at tokens.now p }
    ensures deep { (p : Pos) → result ≡ Err (ParseErr.Deep p) → TooDeepAt module_at tokens.now p }
{
    text::text(alloc, tokens)
}
