// Why the memory's file stays as it was, and what is said of it.
use report::{Exit, STDERR};
use std::io::{Error, ErrorKind};

// MEMORY names no file that a run could be over.
#[derive(Drop)]
pub enum Unfit {
    TooLong,
    NotText,
    Irregular,
    // Its links lead on and on, or to a name that no path has room for.
    Endless,
    Unknown(Error),
}

impl From<Error> for Unfit {
    fn from(error: Error) -> Unfit {
        Unfit::Unknown(error)
    }
}

impl Unfit {
    pub(crate) fn tell(&self, path: &[u8]) -> Exit {
        let text = match self {
            Unfit::TooLong => {
                b": too long, a path has at most 4,095 characters; nothing was run\n".as_slice()
            }
            Unfit::NotText => b": not UTF-8, and a path has to be; nothing was run\n",
            Unfit::Irregular => {
                b": not a regular file, and MEMORY has to be one; nothing was run\n"
            }
            Unfit::Endless => {
                b": its links lead on and on, or to a name that is too long; nothing was run\n"
            }
            Unfit::Unknown(error) => {
                report::fail_of(path, error);
                return Exit::Failed;
            }
        };
        report::say_of(path, text);
        Exit::Failed
    }
}

// No lock could be made: the new file beside MEMORY is there already, or the system makes none.
pub(crate) fn tell_unlocked(new: &[u8], error: &Error) -> Exit {
    if error.kind() == ErrorKind::AlreadyExists {
        report::say_of(
            new,
            b" is there already: another feed is running on this memory, or one was stopped before its end, as by Ctrl-C. Nothing was run.\nIf none is running, remove that file and start again; the memory is as it was before that feed.\n",
        );
    } else {
        report::print_name(STDERR, new);
        report::fail_with(b": cannot be made, nothing was run", error);
    }
    Exit::Failed
}

// A run under the lock did not come to a new memory, or it could not be saved.
#[derive(Drop)]
pub enum Unsaved {
    // Nothing was run.
    Unfit(Unfit),
    // Standard input, output or error is closed.
    NoStream,
    Unopened(Error),
    IsOutput,
    Unowned(Error),
    Unmoded(Error),
    TooLarge,
    // The run ended so, with no record or a failure.
    Ran(Exit),
    // The new file could not be written, or not put in the old one's place.
    Unwritten(Error),
    // Somebody removed the new file.
    Removed,
}

impl From<Unfit> for Unsaved {
    fn from(why: Unfit) -> Unsaved {
        Unsaved::Unfit(why)
    }
}

impl Unsaved {
    pub(crate) fn tell(&self, path: &[u8], new: &[u8]) -> Exit {
        match self {
            Unsaved::Unfit(why) => return why.tell(path),
            Unsaved::NoStream => report::say_of(
                path,
                b": nothing was run, standard input, output or error is closed\n",
            ),
            Unsaved::Unopened(error) => {
                report::print_name(STDERR, path);
                report::fail_with(b": cannot be read and written, nothing was run", error);
            }
            Unsaved::IsOutput => report::say_of(
                path,
                b": nothing was run, the answers would go into the memory's own file\n",
            ),
            Unsaved::Unowned(error) => {
                report::print_name(STDERR, path);
                report::fail_with(b": nothing was run, its owner could not be kept", error);
            }
            Unsaved::Unmoded(error) => report::fail_of(new, error),
            Unsaved::TooLarge => report::say_of(
                path,
                b": longer than 1,048,576 bytes, the most memory that feed lends; nothing was run\n",
            ),
            Unsaved::Ran(Exit::Well) => return Exit::Well,
            Unsaved::Ran(exit) => {
                tell_left(path);
                return *exit;
            }
            Unsaved::Unwritten(error) => {
                report::fail_of(new, error);
                tell_left(path);
            }
            Unsaved::Removed => report::say_of(
                new,
                b": was removed while this feed ran, and the memory was not saved\n",
            ),
        }
        Exit::Failed
    }
}

fn tell_left(path: &[u8]) {
    report::say_of(path, b": left as it was\n");
}
