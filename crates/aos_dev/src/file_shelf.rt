// The shelf of real files: the trusted edge, a loop over `read`.
ghost use Rattle.std.specs.Prelude.{◌≡◌, ℕ, ◌≤◌, [], length, None};
ghost use Rattle.std.specs.Io.KnownBytes.{Consumes, IsAtEnd};
ghost use Rattle.aos_dev.specs.declared.shelf.Got.{Got};
ghost use Rattle.aos_dev.specs.Count.{RoseAbove};
ghost use Rattle.aos_dev.specs.Shelf.{OnText, OnTooLong, OnNoText};

use crate::count::next;
use crate::shelf::{Got, Shelf};
use std::fs;
use std::io::{ErrorKind, Read};
use std::rt::Files;

/// The files of the system, each under its path. It tells no texts.
///
/// A file that isn't there is absent; every other fault of opening or reading one, as at a folder, is a failure.
#[derive(Drop)]
pub struct FileShelf<R: Files + Drop> {
    rt: R,
    taken: u64,
    faults: u64,
}

impl<R: Files + Drop> FileShelf<R> {
    /// The files that the runtime reaches, with no byte taken and no fault yet.
    pub fn new(rt: R) -> FileShelf<R>
        ensures texts { ⟦<FileShelf<R> as Shelf>⟧.texts result ≡ None }
        ensures taken { ⟦<FileShelf<R> as Shelf>⟧.taken result ≡ 0 }
        ensures faults { ⟦<FileShelf<R> as Shelf>⟧.faults result ≡ 0 }
    {
        FileShelf {
            rt,
            taken: 0,
            faults: 0,
        }
    }
}

impl<R: Files + Drop> Shelf for FileShelf<R> {
    ghost texts = { λ _. None };

    ghost taken = { λ shelf. shelf.taken };

    ghost faults = { λ shelf. shelf.faults };

    fn fetch(&mut self, name: &str, most: u64, into: &mut Vec<u8>) -> Got {
        let answer = match fs::open(&self.rt, name) {
            Ok(mut file) => read_whole(&mut file, most, &mut self.taken, into),
            Err(error) => {
                if error.kind() == ErrorKind::NotFound {
                    Got::Absent
                } else {
                    Got::Failed
                }
            }
        };
        if answer == Got::Failed {
            self.faults = next(self.faults);
        }
        answer
    }
}

// Reads to the end, or until more than `most` bytes were taken. A read that was interrupted is tried again.
fn read_whole<S: Read>(source: &mut S, most: u64, taken: &mut u64, into: &mut Vec<u8>) -> Got
    requires { into.old.items ≡ [] }
    ensures taken_stays { taken.old ≤ taken.new }
    ensures fits { OnText result (length into.new.items ≤ most) }
    ensures empty { OnNoText result (into.new.items ≡ []) }
    ensures too_long { OnTooLong result (RoseAbove most taken.old taken.new) }
    ensures whole { OnText result
        (Consumes (S.remaining source.old) (S.remaining source.new) into.new.items) }
    ensures end { OnText result (IsAtEnd (S.remaining source.new)) }
{
    let answer = read_on(source, most, taken, into);
    if answer != Got::Text {
        into.clear();
    }
    answer
}

// The same, but what was read stays after every answer.
fn read_on<S: Read>(source: &mut S, most: u64, taken: &mut u64, into: &mut Vec<u8>) -> Got
    requires { into.old.items ≡ [] }
    ensures taken_stays { taken.old ≤ taken.new }
    ensures fits { OnText result (length into.new.items ≤ most) }
    ensures too_long { OnTooLong result (RoseAbove most taken.old taken.new) }
    ensures whole { OnText result
        (Consumes (S.remaining source.old) (S.remaining source.new) into.new.items) }
    ensures end { OnText result (IsAtEnd (S.remaining source.new)) }
{
    let mut piece = [0; 8192];
    for _ in 0..u64::MAX {
        match source.read(&mut piece) {
            Ok(0) => return Got::Text,
            Ok(count) => {
                *taken = taken.saturating_add(count as u64);
                if most - (into.len() as u64) < count as u64 {
                    return Got::TooLong;
                }
                if into.extend_from_slice(&piece[..count]).is_err() {
                    return Got::NoMemory;
                }
            }
            Err(error) => {
                if error.kind() != ErrorKind::Interrupted {
                    return Got::Failed;
                }
            }
        }
    }
    Got::Failed
}
