// The arguments, one after another: words start a command, and files belong to the last one.
use crate::usage::Mode;

// What an argument comes to, or the end of them all.
#[derive(Clone, Copy, PartialEq, Eq)]
pub enum Meant {
    File { mode: Mode, is_first: bool },
    // a command is over that had no file: it takes standard input, or all cards
    NoFile(Mode),
    Nothing,
}

// The command under way, and whether it has had a file.
#[derive(Clone, Copy)]
pub struct Course {
    mode: Mode,
    has_file: bool,
}

impl Course {
    pub fn start() -> Course {
        Course {
            mode: Mode::Run,
            has_file: false,
        }
    }

    pub fn take_word(&mut self, word: &[u8]) -> Meant {
        match Mode::of(word) {
            Some(mode) => {
                let meant = self.end();
                *self = Course {
                    mode,
                    has_file: false,
                };
                meant
            }
            None => {
                let is_first = !self.has_file;
                self.has_file = true;
                Meant::File {
                    mode: self.mode,
                    is_first,
                }
            }
        }
    }

    // No more files belong to the command under way.
    pub fn end(&self) -> Meant {
        if self.has_file {
            Meant::Nothing
        } else {
            Meant::NoFile(self.mode)
        }
    }
}
