// Cases and their sections.

use crate::fault::Fault;
use crate::repeat::expanded;
use std::alloc::{AllocError, Global};

/// A name with a text.
#[derive(Drop)]
pub struct Section {
    pub name: String,
    pub text: String,
}

/// The sections of a case, in their order, and the line where it stands: that of its row, or of its group's title.
#[derive(Drop)]
pub struct Case {
    pub line: usize,
    pub sections: Vec<Section>,
}

// A section with its text, exactly.
fn exact(alloc: Global, name: &str, text: &str) -> Result<Section, AllocError> {
    let name = String::from_str(alloc, name)?;
    let text = String::from_str(alloc, text)?;
    Ok(Section { name, text })
}

// A section whose text is these lines, the last of which lacks its end.
fn of_lines(alloc: Global, name: &str, lines: &str) -> Result<Section, AllocError> {
    let mut section = exact(alloc, name, lines)?;
    section.text.push('\n')?;
    Ok(section)
}

// The section of what stands behind a mark, up to the end of the line before the next one.
fn section_of(alloc: Global, piece: &str) -> Result<Section, AllocError> {
    let (head, lines) = piece.split_once('\n').unwrap_or((piece, ""));
    match piece.split_once(' ') {
        Some((name, text)) if name.len() < head.len() => exact(alloc, name, text),
        _ if head.len() < piece.len() => of_lines(alloc, head, lines),
        _ => exact(alloc, head, ""),
    }
}

// The sections of a text, with marks between them.
fn sections_of(alloc: Global, text: &str) -> Result<Vec<Section>, AllocError> {
    let mut sections = Vec::new(alloc);
    for piece in text.split("\n--- ") {
        sections.push(section_of(alloc, piece)?)?;
    }
    Ok(sections)
}

/// The case of a group's text, or of one that a row was put into, which stands at the line.
pub fn case_of(alloc: Global, line: usize, group: &str) -> Result<Case, Fault> {
    // before the sections stand a title and prose, where a backquote is one
    let Some((_, text)) = group.split_once("\n--- ") else {
        return Err(Fault::Malformed(line, "malformed: no section"));
    };
    let text = expanded(alloc, line, text)?;
    let sections = sections_of(alloc, text.as_str())?;
    Ok(Case { line, sections })
}
