//! Stack code: instructions and images, and what an image does, so that it is a machine under the kernel of aos_base.
#![tactic(auto)]

pub mod image;
pub mod instr;
pub mod report;

pub use aos_base::Root;
pub use image::{Body, Image, ModuleDesc, ParamKind, ProcShape, TypeDesc};
pub use instr::{Cell, Instr, Kind};
pub use report::{AwaitRec, CallRec, Calls, LayoutLine, TrapRec, WaitRec};
