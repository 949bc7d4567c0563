//! The files that closing the books reads.
ghost use Rattle.std.specs.Prelude.{◌≡◌, ◌++◌, ◌∷◌, [], List, ℕ, MatchOption, Option};

/// Files that are read whole, one after another.
pub trait JournalFiles {
    // The bytes of the files that were read so far, in their order.
    ghost read: { Self → List (List ℕ) };

    // All files, read or not, if they are known: always the same.
    ghost known: { Self → Option (List (List ℕ)) };

    /// The bytes of the next file. `None` if it can't be read.
    fn read_next(&mut self) -> Option<Vec<u8>>
        ensures bytes { MatchOption result (read self.new ≡ read self.old)
            (λ bytes. read self.new ≡ read self.old ++ bytes.items ∷ []) }
        ensures same { known self.new ≡ known self.old };
}
