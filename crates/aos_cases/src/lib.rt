//! Files of cases. A case says what a program is given and what it must answer, as a list of sections, each a name with
//! a text; what the names mean is the program's to say, by `Asks`. Cases that differ in a few words stand in a table.
//!
//! ```text
//! Prose about the file.
//!
//! === The title of a group
//! Prose about the group.
//! --- M.Mod
//! MODULE M; IMPORT Out;
//! BEGIN
//!   $statement
//! END M.
//! --- run
//! --- out $out
//! --- each $statement => $out
//! Out.Int(7, 3) =>   7
//! Out.Char("a") => a
//! ```
//!
//! A file begins with prose, and a group with `=== ` and its title. Prose may follow, up to the first section.
//!
//! - `--- NAME` begins a section, whose text is the lines below it, each with its end.
//! - `--- NAME TEXT` does too, and its text is what stands behind the blank: no end of a line belongs to it but those
//!   inside. So `--- out 7` wants an output without an end of line.
//! - The last empty line of a group parts it from the next and belongs to no text.
//!
//! A group is one case, unless its last section is one of two:
//!
//! - `--- each $a => $b`: each line below is a case, whose columns stand in the places of these names in all other
//!   sections. A column that a row lacks is empty, and an empty row is none. No name begins with another one.
//! - `--- fronts TEXT`: each front of the text that ends before a blank is a case. The front stands in the places of
//!   `$front`, and the number of its bytes and one in those of `$column`.
//!
//! Between two backquotes stands a part that is repeated: `` `3 INC(i);` `` is the part three times, and in
//! `` `1..9 , $n` `` the part has each of the numbers in the places of `$n`, and the next number in those of `$m`. Columns
//! are put in before. A part may have sections, behind the first one of its group.
//!
//! A text that can't be read so is refused with the line of the group's title, or of the row.
#![tactic(auto)]

mod case;
mod fault;
mod file;
mod fill;
mod repeat;
mod told;
mod walk;

pub use case::{Case, Section};
pub use told::tell;
pub use walk::{Asks, answer_files};
