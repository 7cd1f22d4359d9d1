// What the program says of a lesson, a tape or an argument, with its numbers.
use crate::text::Text;
use crate::{Facts, fill};

#[derive(Clone, Copy)]
pub enum Message {
    // these follow a name
    BadNotRun(u64),
    BadNotWritten(u64),
    BadUnreadNotRun(u64),
    BadUnreadNotWritten(u64),
    NothingToRun,
    NothingToWrite,
    NotTwice,
    Empty,
    HalfRecord(u64),
    NoSuchWord,
    NoOptions,
    OneFileTooMany,
    EmptyArgument,
    NoFile,
    NoSuchCard,
    // these stand by themselves
    Records { all: u64, refused: u64 },
    Written,
    NothingWritten,
    MoreRows(u64),
    FileUnread,
    FileInTheWay,
    Lost(u64),
    Unread(u64),
    Checks { all: u64, failed: u64 },
    Questions(u64),
    RowsAlike(u64),
    FromReset,
}

impl Message {
    pub fn text(self) -> Text {
        let (words, numbers) = match self {
            Message::BadNotRun(n) => (": bad lines: &0; nothing was run", [n, 0]),
            Message::BadNotWritten(n) => (": bad lines: &0; nothing was written", [n, 0]),
            Message::BadUnreadNotRun(n) => (
                ": bad lines: &0, and there may be more, since the rest was not read; nothing was run",
                [n, 0],
            ),
            Message::BadUnreadNotWritten(n) => (
                ": bad lines: &0, and there may be more, since the rest was not read; nothing was written",
                [n, 0],
            ),
            Message::NothingToRun => (": there is no record in it; nothing was run", [0, 0]),
            Message::NothingToWrite => (": there is no record in it; nothing was written", [0, 0]),
            Message::NotTwice => (
                ": not a file that can be read twice; nothing was run",
                [0, 0],
            ),
            Message::Empty => (" is empty", [0, 0]),
            Message::HalfRecord(n) => (
                " ends inside a record or an answer; bytes left over: &0",
                [n, 0],
            ),
            Message::NoSuchWord => (": no such word, and no such file", [0, 0]),
            Message::NoOptions => (
                ": there are no options; a file of that name is given as ./NAME",
                [0, 0],
            ),
            Message::OneFileTooMany => (
                ": one FILE too many; assemble, list, explain, try and card take one each",
                [0, 0],
            ),
            Message::EmptyArgument => (": an argument is empty", [0, 0]),
            Message::NoFile => (": pieces and listing take a FILE, or more", [0, 0]),
            Message::NoSuchCard => (": there is no such card; 'card' alone lists them", [0, 0]),
            Message::Records { all, refused } => ("records: &0, refused: &1", [all, refused]),
            Message::Written => ("memory that was written:", [0, 0]),
            Message::NothingWritten => ("memory: nothing changed", [0, 0]),
            Message::MoreRows(n) => ("  and &0 rows more", [n, 0]),
            Message::FileUnread => (
                "lesson: the temporary file in /tmp could not be read back",
                [0, 0],
            ),
            Message::FileInTheWay => (
                "lesson: a temporary file would take the place of standard input, output or error, one of which is closed",
                [0, 0],
            ),
            Message::Lost(n) => ("bytes lost past the end of memory: &0", [n, 0]),
            Message::Unread(n) => ("bytes read past the end of memory: &0", [n, 0]),
            Message::Checks { all, failed } => ("checks: &0, failed: &1", [all, failed]),
            Message::Questions(n) => ("guesses still to be filled in: &0", [n, 0]),
            Message::RowsAlike(n) => ("like the row above: &0 more", [n, 0]),
            Message::FromReset => ("from reset", [0, 0]),
        };
        fill::fill(words, Facts::new().with_numbers(numbers))
    }
}
