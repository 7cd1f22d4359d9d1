// feed [MEMORY]: feeds the tape on standard input to a board that was just reset, and writes the raw answers to standard output.
// MEMORY is a file whose bytes are the lent memory; it holds the memory after the run, or is as it was if anything failed.
#![tactic(auto)]

mod file;
mod look;
mod refusal;

use board::Board;
use report::{Exit, STDERR, STDOUT};
use std::io::{IsTerminal, Read};

fn say(text: &[u8]) {
    io::write_all(STDERR, text);
}

// Feeds what one read of standard input gives: answers how many records it ended, or none where the tape has ended.
fn feed_lump(
    rt: &HostRuntime,
    board: &mut Board,
    memory: &mut [u8],
) -> Result<Option<usize>, Exit> {
    let mut lump = io::large_buffer();
    let mut answers = [0u8; 131072];
    let n = match rt.stdin().read(&mut lump) {
        Ok(0) => return Ok(None),
        Ok(n) => n,
        Err(error) => {
            report::fail_with(b"feed: standard input", &error);
            return Err(Exit::Failed);
        }
    };
    let fed = intake::feed(*board, &lump[..n], memory, &mut answers);
    *board = fed.board;
    if fed.status != 0 {
        say(b"feed: the board refused a lump of the tape with status 7\n");
        return Err(Exit::Failed);
    }
    if send(&answers, fed.records) {
        Ok(Some(fed.records))
    } else {
        Err(report::fail_output(b"feed: standard output"))
    }
}

// The answers of k records.
fn send(answers: &[u8], k: usize) -> bool {
    k.checked_mul(16)
        .and_then(|end| answers.get(..end))
        .is_some_and(|sent| io::write_all(STDOUT, sent))
}

// The end of a tape that went well, unless it is inside a record, whose bytes were then not used.
fn end_tape(board: &Board) -> Exit {
    let left = board.kept.length;
    if left == 0 {
        return Exit::Well;
    }
    say(b"feed: the tape ends inside a record; bytes left over: ");
    io::print_decimal(STDERR, u64::from(left));
    say(b"\n");
    Exit::Failed
}

// Feeds the whole tape, and answers how that ended: an `Ok` where the memory after it is to be kept. Of a tape with no whole record nothing is kept: there is
// nothing new.
pub(crate) fn run(rt: &HostRuntime, memory: &mut [u8]) -> Result<Exit, Exit> {
    let mut board = Board::reset();
    let mut has_records = false;
    for _ in 0..u64::MAX {
        let Some(records) = feed_lump(rt, &mut board, memory)? else {
            let exit = end_tape(&board);
            return if has_records { Ok(exit) } else { Err(exit) };
        };
        has_records |= 0 < records;
    }
    Err(Exit::Failed)
}

fn tell_usage() -> Exit {
    say(
        b"usage: feed [MEMORY] <TAPE >ANSWERS
       MEMORY is a file whose bytes, 1,048,576 at the most, are the lent memory; it holds the memory after the run
",
    );
    Exit::Usage
}

fn take_word(rt: &HostRuntime, word: &[u8]) -> Exit {
    match word {
        [] => {
            say(b"feed: MEMORY is empty: it has to name a file\n");
            tell_usage()
        }
        [b'-', ..] => {
            say(
                b"feed: there are no options; a file whose name begins with a dash is given as ./-NAME\n",
            );
            tell_usage()
        }
        _ => {
            tell_terminal(rt);
            file::run_over(rt, word)
        }
    }
}

// Whoever gives the tape as MEMORY, and no tape, would wait with nothing said.
fn tell_terminal(rt: &HostRuntime) {
    if rt.stdin().is_terminal() {
        say(b"feed: the tape comes from the terminal, up to Ctrl-D\n");
    }
}

fn take_arguments(rt: &HostRuntime) -> Exit {
    let words = report::arg_count(rt);
    if 2 < words {
        say(b"feed: there is one MEMORY at the most; the tape is standard input\n");
        return tell_usage();
    }
    if words < 2 {
        tell_terminal(rt);
        return run(rt, &mut []).unwrap_or_else(|exit| exit);
    }
    let mut word = io::buffer();
    match report::arg(rt, 1, &mut word) {
        Ok(n) => take_word(rt, &word[..n]),
        Err(error) => {
            report::fail_with(b"feed: MEMORY", &error);
            Exit::Failed
        }
    }
}

fn main(rt: HostRuntime) {
    report::end(take_arguments(&rt));
}
