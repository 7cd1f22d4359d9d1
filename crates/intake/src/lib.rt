// A call: bytes of a tape, in whatever lump they come, are fed to a board over lent memory, and its answers written to a lent buffer.
#![tactic(auto)]

ghost use Rattle.std.specs.Prelude.{◌≡◌, ◌*◌, ◌≤◌, length};
ghost use Rattle.std.specs.List.{list_all};
ghost use Rattle.intake.specs.Ranges.{iw1_good, icu_good, counter_good, timer_good, channel_good, dma_good, in_range};
ghost use Rattle.intake.specs.Records.{rest_at};
ghost use Rattle.intake.specs.Feed.{fed_of, fed_memory, fed_answers};

use board::{Board, Kept};
use dma::{Channel, Dma};
use icu::Icu;
use std::array;
use tape::Input;
use timer::{Counter, Timer};

// What a call comes to: 0 and the records that it took, or 7 and none.
#[repr(C)]
#[derive(Clone, Copy)]
pub struct Fed {
    pub status: u8,
    pub records: usize,
    pub board: Board,
}

// The bytes from record i on, which are fewer than eight, and zeros after them. Where none are left, nothing is looked up.
fn rest_at(input: &Input, i: usize) -> [u8; 7]
    requires { 8 * i ≤ length input.now }
    ensures { result ≡ rest_at input.now i }
{
    let total = input.count_bytes();
    let at = 8 * i;
    if at == total {
        return [0; 7];
    }
    array::from_fn(|j| input.byte_at(at + j))
}

// No IW1 yet, or one that was taken: D4 is set.
#[tactic(auto, unfolding(crate::specs::Ranges::iw1_good))]
fn is_iw1_good(x: u8) -> bool
    ensures { result ≡ iw1_good x }
{
    x == 0 || bits::bit(x, 4)
}

#[tactic(auto, unfolding(crate::specs::Ranges::icu_good))]
fn is_icu_good(c: Icu) -> bool
    ensures { result ≡ icu_good c }
{
    c.stage < 5 && c.lowest < 8 && is_iw1_good(c.iw1)
}

#[tactic(auto, unfolding(crate::specs::Ranges::counter_good))]
fn is_counter_good(c: Counter) -> bool
    ensures { result ≡ counter_good c }
{
    c.format < 4 && (c.mode < 6 || c.mode == Counter::NONE)
}

fn is_timer_good(t: Timer) -> bool
    ensures { result ≡ timer_good t }
{
    t.counters.iter().all(|c| is_counter_good(*c))
}

#[tactic(auto, unfolding(crate::specs::Ranges::channel_good))]
fn is_channel_good(c: Channel) -> bool
    ensures { result ≡ channel_good c }
{
    c.current.address < Dma::SPACE && c.base.address < Dma::SPACE && !Dma::is_unbuilt_mode(c.mode)
}

fn are_channels_good(channels: [Channel; 4]) -> bool
    ensures { result ≡ list_all channel_good channels }
{
    channels.iter().all(|c| is_channel_good(*c))
}

#[tactic(auto, using(crate::proofs::Each::four), unfolding(crate::specs::Ranges::dma_good, crate::specs::Ranges::channels_good))]
fn is_dma_good(d: Dma) -> bool
    ensures { result ≡ dma_good d }
{
    d.selected < 4
        && d.first < 4
        && d.channel < 4
        && d.requests < 16
        && d.ends < 16
        && are_channels_good(d.channels)
}

// Every field has a value that some board reached from reset has there.
#[tactic(auto, unfolding(crate::specs::Ranges::in_range))]
pub fn is_in_range(b: Board) -> bool
    ensures { result ≡ in_range b }
{
    b.kept.length < 8
        && b.intp % 2 == 0
        && is_icu_good(b.icu)
        && is_icu_good(b.slave)
        && is_timer_good(b.timer)
        && is_dma_good(b.dma)
}

// A call is taken whole or refused whole. Room is asked for in records, so that no length makes the arithmetic wrap.
pub fn feed(board: Board, tape: &[u8], memory: &mut [u8], answers: &mut [u8]) -> Fed
    ensures result { result ≡ fed_of board tape.now memory.old (length answers.old) }
    ensures memory { memory.new ≡ fed_memory board tape.now memory.old (length answers.old) }
    ensures answers { answers.new ≡ fed_answers board tape.now memory.old answers.old }
{
    let refused = Fed {
        status: 7,
        records: 0,
        board,
    };
    if !is_in_range(board) {
        return refused;
    }
    let kept = board.kept.bytes;
    let size = board.kept.length;
    let input = Input { kept, size, tape };
    let total = input.count_bytes();
    let k = total / 8;
    if answers.len() / 16 < k {
        return refused;
    }
    let ran = records::run(board, kept, size, tape, memory, answers);
    let rest = rest_at(&input, k);
    let waiting = Kept {
        bytes: rest,
        length: (total % 8) as u8,
    };
    let next = Board {
        kept: waiting,
        ..ran
    };
    Fed {
        status: 0,
        records: k,
        board: next,
    }
}
