// Where texts come from.
ghost use Rattle.std.specs.Prelude.{◌≡◌, ℕ, ◌≤◌, List, [], length, Option, None, IfSome, IsNone};
ghost use Rattle.aos_dev.specs.declared.shelf.Got.{Got};
ghost use Rattle.aos_dev.specs.Count.{Rose, RoseAbove};
ghost use Rattle.aos_dev.specs.Shelf.{Named, text_of, OnText, OnTooLong, OnFailed, OnNoText, Answers};

/// What a shelf answers.
#[derive(Clone, Copy, PartialEq, Eq, Debug)]
pub enum Got {
    /// The whole text was taken.
    Text,
    /// Nothing has that name.
    Absent,
    /// The text has more bytes than were allowed.
    TooLong,
    /// The shelf failed; its count of faults rose.
    Failed,
    /// Memory was wanted and not had.
    NoMemory,
}

/// Texts by their names, as the files that the program reads.
///
/// A shelf means its list of texts, where it tells them, the number of bytes that it took from outside, and a count of
/// its faults. Number and count are of 64 bits; they begin at 0, never fall, and stop at the greatest number.
pub trait Shelf {
    // the texts under their names, where the shelf tells them
    ghost texts: { Self → Option (List Named) };

    // the bytes that were taken from outside
    ghost taken: { Self → ℕ };

    // how often the shelf failed
    ghost faults: { Self → ℕ };

    /// Takes the text under `name` into the empty `into`, if it has at most `most` bytes. After every other answer
    /// `into` is empty.
    fn fetch(&mut self, name: &str, most: u64, into: &mut Vec<u8>) -> Got
        requires { into.old.items ≡ [] }

        // the shelf goes on
        ensures same_texts { texts self.new ≡ texts self.old }
        ensures taken_stays { taken self.old ≤ taken self.new }
        ensures faults_stay { faults self.old ≤ faults self.new }

        // the answer, whether or not the texts are told
        ensures fits { OnText result (length into.new.items ≤ most) }
        ensures empty { OnNoText result (into.new.items ≡ []) }
        ensures failed { OnFailed result (Rose (faults self.old) (faults self.new)) }

        // the answer where they are told, and where they are not
        ensures told { IfSome (texts self.old) (λ texts.
            Answers (text_of texts name.now) most result into.new.items) }
        ensures untold { IsNone (texts self.old) → OnTooLong result
            (RoseAbove most (taken self.old) (taken self.new)) };
}
