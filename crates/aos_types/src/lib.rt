//! Types of the language as rows of one table, by themselves: which types extend, are, fit and contain which, and how many
//! scalars they have (Active Oberon Language Report, Reali 2002; Oberon-2 report, Mossenbock and Wirth, appendix A).
#![tactic(auto)]

mod chain;
mod circle;
mod count;
mod extension;
mod fit;
mod items;
mod laws;
mod limit;
mod row;
mod sameness;
mod signature;
mod table;

pub use items::Items;
pub use laws::{
    law_of_bases, law_of_circles, law_of_contents, law_of_extension, law_of_fronts, law_of_offsets,
    law_of_ranks,
};
pub use row::{Basic, TypeId, TypeRow};
pub use signature::{Gives, Parameter, Signature, may_stand, same_signature};
pub use table::Types;
