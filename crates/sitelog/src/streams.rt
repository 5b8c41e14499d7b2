// The streams of the program. What a call of the system did cannot be promised, but for what it answers.
ghost use Rattle.std.specs.Prelude.{OnOk};
ghost use Rattle.std.specs.Io.{ReadsAtMost};
ghost use Rattle.std.specs.Io.KnownBytes.{Appends, ReadConsumes};

use std::io;
use std::io::{ErrorKind, Read, Stderr, Stdin, Stdout, Write};

// Where the input comes from, where the lines go, and where it is said that a read or a write has failed.
#[derive(Drop)]
pub(crate) struct Streams<R, W, E> {
    pub(crate) input: R,
    pub(crate) lines: W,
    pub(crate) errors: E,
}

// Those that a program is started with.
pub(crate) type Standard = Streams<Stdin, Stdout, Stderr>;

// A read or a write has failed, and it was said.
#[derive(Clone, Copy)]
pub(crate) struct Failed;

// Says what has failed, and why, but for a reader of the lines who is gone. Where that can't be said, there is nobody to say it to.
fn complain<E: Write>(errors: &mut E, what: &str, error: io::Error) -> Failed {
    if error.kind() != ErrorKind::BrokenPipe {
        let _ = writeln!(errors, "{what}: {error}");
    }
    Failed
}

impl<R: Read, W: Write, E: Write> Streams<R, W, E> {
    // Reads once, and says how many bytes came: none at the end of the input.
    pub(crate) fn read(&mut self, buffer: &mut [u8]) -> Result<usize, Failed>
        ensures bound { ReadsAtMost result buffer.new }
        ensures bytes { ReadConsumes (R.remaining self.old.input) (R.remaining self.new.input) result buffer.new }
    {
        let read = self.input.read(buffer);
        read.map_err(|error| complain(&mut self.errors, "standard input", error))
    }

    // Writes lines, whole, by one `write_all`.
    pub(crate) fn write(&mut self, lines: &[u8]) -> Result<(), Failed>
        ensures { OnOk result (Appends (W.contents self.old.lines) (W.contents self.new.lines) lines.now) }
    {
        let written = self.lines.write_all(lines);
        written.map_err(|error| complain(&mut self.errors, "standard output", error))
    }
}
