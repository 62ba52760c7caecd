//! Where scalars lie: the cells of types, of modules' variables and of procedures' frames (Oberon-2 report, 6.2, 6.3 and 10.1).
#![tactic(auto)]

mod block;
mod cells;
mod frame;
mod laws;
mod layout;
mod made;
mod type_parts;
mod work;

pub use block::{BlockShape, block_shape};
pub use cells::is_open;
pub use frame::{FrameShape, frame_shape, parameter_kinds};
pub use laws::{law_of_blocks, law_of_frames, law_of_records};
pub use layout::{base_number, made_kinds, offset, shape};
pub use made::made_types;
pub use type_parts::{base_of, row_of, scalars, variable_scalars, width};
pub use work::{object_base, object_kinds};
