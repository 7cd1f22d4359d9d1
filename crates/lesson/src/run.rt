// A lesson on the board: the desk says which record is due, and the board does it.
use board::Board;
use desk::{Desk, Due};
use reader::filters;
use reader::output::Stop;
use reader::source::Source;
use reader::usage::Mode;
use words::chips::Chips;

// What the desk is shown of a board.
fn chips_of(board: Board) -> Chips {
    let out0 = board.timer.counters[0].out;
    let lines = cascade::join(board.intp, board.slave, board.slaveintp) | u8::from(out0);
    Chips {
        icu: board.icu,
        lines,
        passes: cascade::is_passed_on(board.icu, lines, board.slave),
        slave: board.slave,
        slaveintp: board.slaveintp,
        timer: board.timer,
        dma: board.dma,
    }
}

pub(crate) fn run(mode: Mode, source: &Source, path: &[u8]) -> Result<(), Stop> {
    let has_question = filters::prepare(mode, source, path)?;
    run_prepared(mode, has_question, source, path)
}

// The desk is in this frame alone: what checks a lesson does not stand on it.
#[inline(never)]
fn run_prepared(mode: Mode, plain: bool, source: &Source, path: &[u8]) -> Result<(), Stop> {
    let mut board = Board::reset();
    let mut desk = Desk::start(mode, plain, source, path);
    for _ in 0..u64::MAX {
        match desk.take(chips_of(board))? {
            Some(Due::Record(record)) => {
                let before = chips_of(board);
                let stepped = board.step(record, desk.memory());
                board = stepped.board;
                desk.tell(before, chips_of(board), stepped.answer)?;
            }
            Some(Due::Reset) => board = Board::reset(),
            Some(Due::Nothing) => {}
            None => return desk.end(),
        }
    }
    Err(Stop::Text)
}
