// Files of the system, and standard input.
ghost use Rattle.std.specs.Prelude.{◌≡◌, ℕ, List, Option, None, OnErr, OnOk};
ghost use Rattle.std.specs.Io.{ReadsAtMost};
ghost use Rattle.std.specs.Io.KnownBytes.{Keeps, ReadConsumes};
ghost use Rattle.apei_show.specs.Faults.{Faults, HasReason, one_more};

use std::fs::File;
use std::io;
use std::io::{ErrorKind, Read};

/// Files by their paths, and standard input. One of them is open at a time.
pub(crate) trait Files {
    // The bytes of the file at a path, where they are known.
    ghost content: { Self → List ℕ → Option (List ℕ) };

    // The bytes of standard input, where they are known.
    ghost input: { Self → Option (List ℕ) };

    // The bytes that are left of the one that is open, where they are known.
    ghost rest: { Self → Option (List ℕ) };

    // The calls that failed so far.
    ghost faults: { Self → Faults };

    /// Opens the file at a path.
    fn open_file(&mut self, path: &str) -> io::Result<()>
        ensures whole { OnOk result (Keeps (content self.old path.now) (rest self.new)) }
        ensures cause { HasReason (faults self.old) (faults self.new) result };

    /// Opens standard input.
    fn open_input(&mut self) -> io::Result<()>
        ensures whole { OnOk result (Keeps (input self.old) (rest self.new)) }
        ensures cause { HasReason (faults self.old) (faults self.new) result };

    /// Puts the next bytes of the one that is open at the start of `piece`, and answers how many: 0 at the end alone, where the piece has room.
    fn read(&mut self, piece: &mut [u8]) -> io::Result<usize>
        ensures bound { ReadsAtMost result piece.new }
        ensures bytes { ReadConsumes (rest self.old) (rest self.new) result piece.new }
        ensures cause { HasReason (faults self.old) (faults self.new) result };
}

/// The files of the system. Each of its errors is a fault.
#[derive(Drop)]
pub(crate) struct System<'a> {
    rt: &'a HostRuntime,
    source: Source,
    faults: u64,
    // The kind and the number of the last error.
    last: Option<(ErrorKind, Option<i32>)>,
}

// What is read.
#[derive(Drop)]
enum Source {
    Input,
    File(File),
}

impl<'a> System<'a> {
    /// The files of the system that nothing was asked of yet.
    pub(crate) fn new(rt: &'a HostRuntime) -> System<'a>
        ensures none { result.faults ≡ 0 }
        ensures last { result.last ≡ None }
    {
        System {
            rt,
            source: Source::Input,
            faults: 0,
            last: None,
        }
    }

    // Counts an error, and keeps what is said of it.
    fn counted<T: Drop>(&mut self, answer: io::Result<T>) -> io::Result<T>
        ensures same { result ≡ answer }
        ensures cause { HasReason (record { count = self.old.faults; last = self.old.last })
            (record { count = self.new.faults; last = self.new.last }) result }
        ensures one { OnErr result (self.new.faults ≡ one_more self.old.faults) }
    {
        if let Err(error) = &answer {
            self.faults = self.faults.saturating_add(1);
            self.last = Some((error.kind(), error.raw_os_error()));
        }
        answer
    }
}

impl Files for System<'_> {
    ghost content = { λ _ _. None };

    ghost input = { λ _. None };

    ghost rest = { λ _. None };

    ghost faults = { λ system. record { count = system.faults; last = system.last } };

    fn open_file(&mut self, path: &str) -> io::Result<()> {
        let opened = File::open(self.rt, path);
        self.source = Source::File(self.counted(opened)?);
        Ok(())
    }

    fn open_input(&mut self) -> io::Result<()> {
        self.source = Source::Input;
        Ok(())
    }

    fn read(&mut self, piece: &mut [u8]) -> io::Result<usize> {
        let count = match &mut self.source {
            Source::Input => self.rt.stdin().read(piece),
            Source::File(file) => file.read(piece),
        };
        self.counted(count)
    }
}
