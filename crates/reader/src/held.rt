// A tape is held back until its whole lesson is known to be good: up to 65,536 bytes in a buffer, and what came before these in a temporary file.
use crate::output;
use crate::output::Stop;
use arrayvec::{ArrayString, ArrayVec};
use report::STDOUT;
use sentences::Message;
use std::fmt::Write;
use std::fs;
use std::fs::{File, OpenOptions};
use std::io::{Error, ErrorKind, Seek, SeekFrom};
use std::os::fd::AsRawFd;
use std::os::unix::fs::OpenOptionsExt;
use std_io::io::last_error;

#[derive(Drop)]
pub struct Tape {
    // the temporary file, where there is one, and how many full buffers it has
    file: Option<File>,
    spilled: u64,
    buffer: ArrayVec<u8, 65536>,
}

impl Tape {
    pub fn new() -> Tape {
        Tape {
            file: None,
            spilled: 0,
            buffer: ArrayVec::new(),
        }
    }

    pub fn is_empty(&self) -> bool {
        self.buffer.is_empty()
    }

    // A record more.
    pub fn push(&mut self, rt: &HostRuntime, record: [u8; 8]) -> Result<(), Stop> {
        if self.buffer.is_full() {
            self.spill(rt)?;
        }
        let _ = self.buffer.try_extend_from_slice(&record);
        Ok(())
    }

    // The buffer goes to the end of the file.
    fn spill(&mut self, rt: &HostRuntime) -> Result<(), Stop> {
        let file = match self.file.take() {
            Some(file) => file,
            None => make_file(rt)?,
        };
        if !io::write_all(file.as_raw_fd(), self.buffer.as_slice()) {
            return Err(fail_file(&last_error()));
        }
        self.file = Some(file);
        self.spilled = self.spilled.saturating_add(1);
        self.buffer.clear();
        Ok(())
    }

    // All of it goes to standard output.
    pub fn write(&self) -> Result<(), Stop> {
        if let Some(file) = &self.file {
            let mut reader = file;
            let _ = reader.seek(SeekFrom::Start(0));
            for _ in 0..self.spilled {
                copy_buffer(file)?;
            }
        }
        output::written(io::write_all(STDOUT, self.buffer.as_slice()))
    }
}

fn copy_buffer(file: &File) -> Result<(), Stop> {
    let mut buffer = io::large_buffer();
    if io::read_full(file.as_raw_fd(), &mut buffer) < 65536 {
        output::complain(Message::FileUnread);
        return Err(Stop::Text);
    }
    output::written(io::write_all(STDOUT, &buffer))
}

fn fail_file(error: &Error) -> Stop {
    report::fail_with(b"lesson: a temporary file in /tmp", error);
    Stop::Text
}

// The file has no name any more once it is open, so that nothing of it is left over however the program ends.
fn make_file(rt: &HostRuntime) -> Result<File, Stop> {
    let file = open_unnamed(rt).map_err(|error| fail_file(&error))?;
    // where standard input, output or error is closed, the file takes its place, and what is written there would go into it
    if file.as_raw_fd() <= report::STDERR {
        drop(file);
        output::complain(Message::FileInTheWay);
        return Err(Stop::Text);
    }
    Ok(file)
}

// What the system says of a name that is taken.
const TAKEN: i32 = 17;

// Names are tried until one is new.
fn open_unnamed(rt: &HostRuntime) -> Result<File, Error> {
    for k in 0..1000000u32 {
        let mut name = ArrayString::<18>::new();
        let _ = write!(name, "/tmp/lesson-{k:06}");
        match open_new(rt, name.as_str()) {
            Err(error) if error.kind() == ErrorKind::AlreadyExists => {}
            opened => return opened,
        }
    }
    Err(Error::from_raw_os_error(TAKEN))
}

fn open_new(rt: &HostRuntime, path: &str) -> Result<File, Error> {
    let file = OpenOptions::new()
        .read(true)
        .write(true)
        .create_new(true)
        .mode(0o600)
        .open(rt, path)?;
    fs::remove_file(rt, path)?;
    Ok(file)
}
