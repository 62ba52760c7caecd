//! From a text's bytes to its tokens (Active Oberon Language Report, section on vocabulary).
#![tactic(auto)]

mod gap;
mod lexeme;
mod position;
pub mod refusal;
mod run;
mod scanner;
mod symbol;
pub mod token;
mod word;

pub use refusal::{Rule, ScanErr};
pub use scanner::{not_both, one_refusal, one_token_list, scan};
pub use token::{Token, TokenKind};
