// A text that is read: a file that is open, or standard input.
ghost use Rattle.std.specs.Io.{ReadsAtMost};

use std::fs::File;
use std::io;
use std::io::{ErrorKind, Read, Seek, SeekFrom, Stdin};

#[derive(Drop)]
pub enum Source {
    Input(Stdin),
    File(File),
}

impl Source {
    pub fn input(rt: &HostRuntime) -> Source {
        Source::Input(rt.stdin())
    }

    // A file's name is text here.
    pub fn open(rt: &HostRuntime, name: &[u8]) -> io::Result<Source> {
        let path = str::from_utf8(name).map_err(|_| io::Error::new(
            ErrorKind::InvalidInput,
            "the name is not UTF-8",
        ))?;
        File::open(rt, path).map(Source::File)
    }

    // One read.
    pub(crate) fn read(&self, buf: &mut [u8]) -> io::Result<usize>
        ensures { ReadsAtMost result buf.new }
    {
        match self {
            Source::Input(input) => {
                let mut reader = input;
                reader.read(buf)
            }
            Source::File(file) => {
                let mut reader = file;
                reader.read(buf)
            }
        }
    }

    // Whether the next read is from the start again. Standard input is read once.
    pub(crate) fn rewind(&self) -> bool {
        match self {
            Source::Input(_) => false,
            Source::File(file) => {
                let mut reader = file;
                reader.seek(SeekFrom::Start(0)).is_ok()
            }
        }
    }
}
