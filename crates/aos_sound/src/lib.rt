//! Soundness of bodies, decided: what may stand in stack code, and what each path through it meets.
#![tactic(auto)]

mod behind;
mod effect;
mod laws;
mod search;
mod sound;
mod stacks;
mod stand;
mod take;

pub use effect::{Effect, Next, effect_of, next_of};
pub use laws::{law_of_cells, law_of_frames, law_of_paths};
pub use sound::{is_sound, is_sound_cond};
pub use stand::Role;
