// The first board: `intake::feed` over a stretch, in lumps of 0 to 70 bytes that a seed draws. Records are cut anywhere.
//
// One lump in four that completes a record is first fed with a buffer one byte too short, and one in sixteen to a board with a field out of its
// range. Both calls have to be refused with 7 and to change nothing. One lump in eight follows an empty call, and the buffer has
// bytes to spare now and then.
ghost use Rattle.std.specs.Prelude.{◌<◌, ◌≤◌};

use super::spoilt;
use board::Board;
use intake::Fed;
use rival::counts::{Tally, add};
use rival::stretch::{Answers, Memory};
use rival::tapes;

// Where a run stands: the board, the draw, how many records have answers, and the counts.
#[derive(Clone, Copy)]
pub struct Run {
    board: Board,
    seed: u32,
    done: usize,
    pub tally: Tally,
}

// A call, with the first `room` bytes past the answers of `done` records.
fn feed(
    board: Board,
    lump: &[u8],
    memory: &mut Memory,
    answers: &mut Answers,
    done: usize,
    room: usize,
) -> Fed {
    let length = memory.length.min(4096);
    let free = answers[done.min(68)..].as_flattened_mut();
    let room = room.min(free.len());
    intake::feed(board, lump, &mut memory.bytes[..length], &mut free[..room])
}

// Room to spare: mostly none.
fn spare(seed: u32) -> usize
    ensures { result < 64 }
{
    if seed / 1024 % 4 == 0 {
        seed as usize / 4096 % 64
    } else {
        0
    }
}

// The length of the next lump, of which `left` bytes are left.
fn drawn(seed: u32, left: usize) -> usize
    requires { 0 < left }
    ensures more { 0 < result }
    ensures at_most { result ≤ left }
{
    left.min(seed as usize / 64 % 70 + 1)
}

impl Run {
    // A run from reset.
    pub(crate) fn from_reset(seed: u32, tally: Tally) -> Run {
        Run {
            board: Board::reset(),
            seed,
            done: 0,
            tally,
        }
    }

    // The records that a lump completes.
    fn completes(&self, lump: &[u8]) -> usize
        ensures { result ≤ 64 }
    {
        ((usize::from(self.board.kept.length) + lump.len()) / 8).min(64)
    }

    fn count_call(&mut self, refused: bool, wrong: bool) {
        add(&mut self.tally.calls, 1);
        add(&mut self.tally.refused, u64::from(refused));
        add(&mut self.tally.wrong, u64::from(wrong));
    }

    // A lump, with room for its answers.
    fn feed_whole(&mut self, lump: &[u8], memory: &mut Memory, answers: &mut Answers) {
        let k = self.completes(lump);
        let fed = feed(
            self.board,
            lump,
            memory,
            answers,
            self.done,
            k * 16 + spare(self.seed),
        );
        self.count_call(false, fed.status != 0 || fed.records != k);
        self.board = fed.board;
        self.done = self.done.saturating_add(k);
    }

    // A call on a board that has to be refused with 7 and to change nothing.
    fn refuse(
        &mut self,
        board: Board,
        lump: &[u8],
        memory: &mut Memory,
        answers: &mut Answers,
        room: usize,
    ) -> Board {
        let memory_before = *memory;
        let answers_before = *answers;
        let fed = feed(board, lump, memory, answers, self.done, room);
        let unchanged = fed.board == board
            && *memory == memory_before
            && *answers == answers_before;
        let whole = fed.status == 7 && fed.records == 0 && unchanged;
        self.count_call(fed.status == 7, !whole);
        fed.board
    }

    // The same lump, with a buffer one byte too short, if it completes a record and the draw says so.
    fn feed_short(&mut self, lump: &[u8], memory: &mut Memory, answers: &mut Answers) {
        let k = self.completes(lump);
        if k > 0 && self.seed / 8 % 4 == 0 {
            self.board = self.refuse(self.board, lump, memory, answers, k * 16 - 1);
        }
    }

    // The same lump, with a field of the board out of its range, if the draw says so. The run goes on with the board as it was.
    fn feed_spoilt(&mut self, lump: &[u8], memory: &mut Memory, answers: &mut Answers) {
        if self.seed / 256 % 16 == 0 {
            let room = self.completes(lump) * 16;
            self.refuse(
                spoilt::spoil(self.board, self.seed / 4096),
                lump,
                memory,
                answers,
                room,
            );
            add(&mut self.tally.spoilt, 1);
        }
    }

    fn feed_lump(&mut self, lump: &[u8], memory: &mut Memory, answers: &mut Answers) {
        // An empty call before the lump, if the draw says so.
        if self.seed % 8 == 0 {
            self.feed_whole(&[], memory, answers);
        }
        self.feed_short(lump, memory, answers);
        self.feed_spoilt(lump, memory, answers);
        self.feed_whole(lump, memory, answers);
    }

    // Records on the first board.
    pub(crate) fn run(&mut self, records: &[[u8; 8]], memory: &mut Memory, answers: &mut Answers) {
        self.done = 0;
        let mut rest = records.as_flattened();
        while !rest.is_empty() {
            self.seed = tapes::turn(self.seed);
            let (lump, after) = rest.split_at(drawn(self.seed, rest.len()));
            self.feed_lump(lump, memory, answers);
            rest = after;
        }
    }
}
