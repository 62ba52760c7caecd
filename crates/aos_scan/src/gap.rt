// Blanks and comments between tokens.

ghost use Rattle.std.specs.Prelude.{◌≡◌, ◌≤◌, ◌<◌, ◌↔◌, ℕ, length, IsTrue, MatchOption, MatchResult, IfSome, IfOk};
ghost use Rattle.aos_scan.specs.Gap.{OpensComment, ClosesComment, IsComment, Gap};
ghost use Rattle.aos_scan.specs.Found.{EndsGap};
ghost use Rattle.aos_scan.specs.Refusal.{CommentIsOpen};

use crate::run::is_blank;

/// The place of a comment that isn't closed.
#[derive(Clone, Copy)]
pub struct OpenComment {
    pub at: usize,
}

/// Whether `(*` stands at a place.
pub fn opens_comment(text: &[u8], at: usize) -> bool
    requires { at ≤ length text.now }
    ensures { IsTrue result ↔ OpensComment text.now at }
{
    at + 1 < text.len() && text[at] == b'(' && text[at + 1] == b'*'
}

/// Whether `*)` stands at a place.
pub fn closes_comment(text: &[u8], at: usize) -> bool
    requires { at ≤ length text.now }
    ensures { IsTrue result ↔ ClosesComment text.now at }
{
    at + 1 < text.len() && text[at] == b'*' && text[at + 1] == b')'
}

/// The end of the comment that begins at a place, or None where it isn't closed.
pub fn comment_end(text: &[u8], from: usize) -> Option<usize>
    requires { OpensComment text.now from }
    ensures found { MatchOption result ((end : ℕ) →
        ¬ IsComment text.now from end) (IsComment text.now from) }
    ensures within { IfSome result (λ end. (from < end) × (end ≤ length text.now)) }
{
    let mut depth = 1usize;
    let mut at = from + 2;
    while at < text.len() {
        if opens_comment(text, at) {
            depth += 1;
            at += 2;
        } else if closes_comment(text, at) {
            depth -= 1;
            at += 2;
            if depth == 0 {
                return Some(at);
            }
        } else {
            at += 1;
        }
    }
    None
}

/// The end of the blanks and comments that begin at a place.
pub fn gap_end(text: &[u8], from: usize) -> Result<usize, OpenComment>
    requires { from ≤ length text.now }
    ensures found { MatchResult result (Gap text.now from)
        (λ unclosed. Gap text.now from unclosed.at) }
    ensures ends { MatchResult result (EndsGap text.now)
        (λ unclosed. CommentIsOpen text.now unclosed.at) }
    ensures within { MatchResult result (λ to. (from ≤ to) × (to ≤ length text.now))
        (λ unclosed. (from ≤ unclosed.at) × (unclosed.at ≤ length text.now)) }
{
    let mut at = from;
    while at < text.len() {
        if is_blank(text[at]) {
            at += 1;
        } else if opens_comment(text, at) {
            match comment_end(text, at) {
                Some(end) => at = end,
                None => return Err(OpenComment { at }),
            }
        } else {
            return Ok(at);
        }
    }
    Ok(at)
}
