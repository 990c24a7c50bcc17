//! What the program can ask of the outside.
ghost use Rattle.std.specs.Prelude.{◌≡◌, ℕ, ◌+◌, ◌^◌, ◌<◌, ◌≤◌, List, length, take, Option, IfSome, IfOk, OnOk, OnErr};
ghost use Rattle.mn_outside.specs.Faults.{HasRisen, NoneFell, greatest_count};
ghost use Rattle.mn_outside.specs.Content.{FileMap, with_empty_file, with_file_bytes, with_bytes};
ghost use Rattle.mn_outside.specs.Reading.{FetchesFrom};

/// A call of the outside failed, and its count of faults rose.
#[derive(Clone, Copy, Debug, PartialEq, Eq)]
pub struct Failed;

/// Files by name.
pub trait Files {
    /// What the files hold, where it is told. Whether it is told never changes.
    ghost content: { Self → Option FileMap };

    /// How often reading the named file has failed. An implementation may count all names together.
    ghost reading: { Self → List ℕ → ℕ };

    /// How often writing the named file has failed. An implementation may count all names together.
    ghost writing: { Self → List ℕ → ℕ };

    /// Copies bytes of the named file from an offset into the front of `into`, and answers how many.
    fn fetch(&mut self, name: &str, at: u64, into: &mut [u8]) -> Result<usize, Failed>
        requires room { 0 < length into.old }
        requires offset { at < 2 ^ 63 }

        ensures within { IfOk result (λ n. n ≤ length into.new) }
        ensures fetched { IfOk result (λ n. FetchesFrom (content self.old) name.now at n into.old into.new) }
        ensures untouched { OnErr result (IfSome (content self.old) (λ _. into.new ≡ into.old)) }
        ensures same_content { content self.new ≡ content self.old }

        ensures failed { OnErr result (HasRisen (reading self.old name.now) (reading self.new name.now)) }
        ensures reading_kept { NoneFell (reading self.old) (reading self.new) }
        ensures writing_kept { NoneFell (writing self.old) (writing self.new) };

    /// Makes the named file empty, whether it was there or not.
    fn create(&mut self, name: &str) -> Result<(), Failed>
        ensures created { OnOk result (content self.new ≡ with_empty_file (content self.old) name.now) }
        ensures same_content { OnErr result (content self.new ≡ content self.old) }

        ensures failed { OnErr result (HasRisen (writing self.old name.now) (writing self.new name.now)) }
        ensures reading_kept { NoneFell (reading self.old) (reading self.new) }
        ensures writing_kept { NoneFell (writing self.old) (writing self.new) };

    /// Adds bytes of the piece, from its front, at the end of the named file, and answers how many. A name that isn't
    /// there begins as an empty file.
    fn append(&mut self, name: &str, piece: &[u8]) -> Result<usize, Failed>
        requires { 0 < length piece.now }

        ensures some { IfOk result (λ n. 0 < n) }
        ensures within { IfOk result (λ n. n ≤ length piece.now) }
        ensures appended { IfOk result (λ n.
            content self.new ≡ with_file_bytes (content self.old) name.now (take n piece.now)) }
        ensures same_content { OnErr result (content self.new ≡ content self.old) }

        ensures failed { OnErr result (HasRisen (writing self.old name.now) (writing self.new name.now)) }
        ensures reading_kept { NoneFell (reading self.old) (reading self.new) }
        ensures writing_kept { NoneFell (writing self.old) (writing self.new) };

    /// A count of faults of reading stands still at its greatest value.
    ghost reading_fits: { (files : Self) (name : List ℕ) → reading files name ≤ greatest_count };

    /// A count of faults of writing stands still at its greatest value.
    ghost writing_fits: { (files : Self) (name : List ℕ) → writing files name ≤ greatest_count };
}

/// Where the program writes its report.
pub trait Sink {
    /// The bytes written so far, where they are told. Whether they are told never changes.
    ghost content: { Self → Option (List ℕ) };

    /// How often a call has failed.
    ghost faults: { Self → ℕ };

    /// Writes bytes of the piece, from its front, and answers how many.
    fn write(&mut self, piece: &[u8]) -> Result<usize, Failed>
        requires { 0 < length piece.now }

        ensures some { IfOk result (λ n. 0 < n) }
        ensures within { IfOk result (λ n. n ≤ length piece.now) }
        ensures written { IfOk result (λ n. content self.new ≡ with_bytes (content self.old) (take n piece.now)) }
        ensures same_content { OnErr result (content self.new ≡ content self.old) }

        ensures failed { OnErr result (HasRisen (faults self.old) (faults self.new)) }
        ensures kept { faults self.old ≤ faults self.new };

    /// Hands on what was written.
    fn flush(&mut self) -> Result<(), Failed>
        ensures same_content { content self.new ≡ content self.old }

        ensures failed { OnErr result (HasRisen (faults self.old) (faults self.new)) }
        ensures kept { faults self.old ≤ faults self.new };

    /// The count of faults stands still at its greatest value.
    ghost fits: { (sink : Self) → faults sink ≤ greatest_count };
}
