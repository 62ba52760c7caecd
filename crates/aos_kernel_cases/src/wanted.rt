// What a case wants of its commands.

use aos_cases::Section;

/// What a section is in a case.
#[derive(Clone, Copy)]
pub enum Role {
    /// The mark of what says images for the cases below it.
    Mark,
    /// A part of an image.
    Part,
    /// Something that is to be run or told.
    Command,
    /// What is wanted of a command.
    Wanted,
    /// Nothing known.
    Unknown,
}

/// What a section of this name is.
pub fn role_of(name: &str) -> Role {
    match name {
        "image" => Role::Mark,
        "module" => Role::Part,
        "type" => Role::Part,
        "condition" => Role::Part,
        "procedure" => Role::Part,
        "method" => Role::Part,
        "replay" => Role::Command,
        "passes" => Role::Command,
        "loan" => Role::Command,
        "steps" => Role::Command,
        "run" => Role::Command,
        "meet" => Role::Command,
        "sound" => Role::Command,
        "frames" => Role::Command,
        "objects" => Role::Command,
        "script" => Role::Command,
        "print" => Role::Command,
        "arithmetic" => Role::Command,
        "span" => Role::Command,
        "has" => Role::Command,
        "state" => Role::Wanted,
        "events" => Role::Wanted,
        "log" => Role::Wanted,
        "lent" => Role::Wanted,
        "told" => Role::Wanted,
        _ => Role::Unknown,
    }
}

/// What a case wants under a name, where it says so.
pub fn wanted<'a>(sections: &'a [Section], name: &str) -> Option<&'a str> {
    for section in sections {
        if section.name.as_str() == name {
            return Some(section.text.as_str());
        }
    }
    None
}

/// The same, and nothing where it doesn't say so.
pub fn wanted_or_empty<'a>(sections: &'a [Section], name: &str) -> &'a str {
    wanted(sections, name).unwrap_or("")
}
