//! Where an archive's lines go.
ghost use Rattle.std.specs.Io.KnownBytes.{Keeps};
ghost use Rattle.archive_files.specs.Taking.{TakesBack};
ghost use Rattle.archive_files.specs.Turning.{NewFile, and_file};
ghost use Rattle.archive_files.specs.declared.line.Mark.{Mark};
ghost use Rattle.std.specs.Prelude.{◌≡◌, List, Option, None, Some, OnOk, OnErr, IfOk};

use crate::line::Mark;
use std::io::{self, Write};

/// Files of which one is written to at its end. Its contents are those of all files, one behind the
/// other.
pub trait Store: Write {
    // The files that were gone on with, the oldest first, where they are known.
    ghost files: { Self → Option (List NewFile) } = { λ _. None };

    /// Sets the file aside under a name made of the mark, and begins a new one: how many bytes that
    /// has. On an error the same file is written to.
    fn turn(&mut self, first: Mark) -> io::Result<u64>
        ensures bytes { Keeps (Self.contents self.old) (Self.contents self.new) }
        ensures ok { IfOk result (λ held.
            files self.new ≡ and_file (files self.old) (Some first) held) }
        ensures same { OnErr result (files self.new ≡ files self.old) };

    /// Leaves the file, and goes on with that at the path: how many bytes that has. On an error the
    /// same file is written to.
    fn reopen(&mut self) -> io::Result<u64>
        ensures bytes { Keeps (Self.contents self.old) (Self.contents self.new) }
        ensures ok { IfOk result (λ held. files self.new ≡ and_file (files self.old) None held) }
        ensures same { OnErr result (files self.new ≡ files self.old) };

    /// Takes the last bytes of the file back.
    fn take_back(&mut self, count: u64) -> io::Result<()>
        ensures ok { OnOk result (TakesBack (Self.contents self.old) (Self.contents self.new)
            count) }
        ensures same { OnErr result (Keeps (Self.contents self.old) (Self.contents self.new)) }
        ensures files { files self.new ≡ files self.old };
}
