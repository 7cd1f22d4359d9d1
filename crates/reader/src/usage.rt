// What the arguments of `lesson` may be.
use crate::course::Meant;
use crate::output;
use crate::output::Stop;
use report::Exit;
use sentences::Message;
use std::fs;

// What is done with a command's files.
#[derive(Clone, Copy, PartialEq, Eq)]
pub enum Mode {
    Run,
    // its comments are printed too
    Listing,
    Pieces,
    // its lines are typed
    Try,
    Assemble,
    List,
    Explain,
    Card,
}

impl Mode {
    // The command that a word starts. Any other argument is a file.
    pub fn of(word: &[u8]) -> Option<Mode> {
        match word {
            b"\n" => Some(Mode::Run),
            b"listing" => Some(Mode::Listing),
            b"pieces" => Some(Mode::Pieces),
            b"try" => Some(Mode::Try),
            b"assemble" => Some(Mode::Assemble),
            b"list" => Some(Mode::List),
            b"explain" => Some(Mode::Explain),
            b"card" => Some(Mode::Card),
            _ => None,
        }
    }

    // Whether it takes one file, or none.
    pub fn takes_one(self) -> bool {
        !matches!(self, Mode::Run | Mode::Listing | Mode::Pieces)
    }
}

// Whether an argument may be given so; says why not.
pub fn check(rt: &HostRuntime, meant: Meant, name: &[u8]) -> Result<(), Stop> {
    match meant {
        Meant::File { mode, is_first } => check_file(rt, mode, is_first, name),
        Meant::NoFile(Mode::Listing | Mode::Pieces) => Err(wrong(b"lesson", Message::NoFile)),
        _ => Ok(()),
    }
}

// Whether an argument can be a file of the command under way. Whoever asks for help gets the usage alone.
fn check_file(rt: &HostRuntime, mode: Mode, is_first: bool, name: &[u8]) -> Result<(), Stop> {
    match name {
        [] => Err(wrong(b"lesson", Message::EmptyArgument)),
        b"--help" | b"-h" => Err(Stop::Program(Exit::Usage)),
        [b'-', ..] => Err(wrong(name, Message::NoOptions)),
        _ => {
            if mode != Mode::Card && is_mistyped(rt, name) {
                return Err(wrong(name, Message::NoSuchWord));
            }
            if !is_first && mode.takes_one() {
                return Err(wrong(name, Message::OneFileTooMany));
            }
            Ok(())
        }
    }
}

// Wrong usage, by the sentence that follows a name.
fn wrong(name: &[u8], message: Message) -> Stop {
    output::tell(name, message);
    Stop::Program(Exit::Usage)
}

// Letters alone, and no file that is there. A path has at most 4,095 characters.
fn is_mistyped(rt: &HostRuntime, name: &[u8]) -> bool {
    name.len() < 4096 && name.iter().all(|x| x.is_ascii_alphabetic()) && !is_there(rt, name)
}

fn is_there(rt: &HostRuntime, name: &[u8]) -> bool {
    str::from_utf8(name).is_ok_and(|path| fs::exists(rt, path).unwrap_or(false))
}
