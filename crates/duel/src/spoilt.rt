// Boards with one field outside its range, which every call has to refuse with 7.
use board::{Board, Kept};
use dma::{Channel, Dma, Span};
use icu::Icu;
use timer::{Counter, Timer};

fn spoil_icu(icu: Icu, draw: u32) -> Icu {
    match draw % 4 {
        0 => Icu { stage: 5, ..icu },
        1 => Icu { lowest: 8, ..icu },
        2 => Icu { iw1: 0xEF, ..icu },
        _ => Icu { iw1: 0x02, ..icu },
    }
}

fn spoil_counter(counter: Counter, draw: u32) -> Counter {
    match draw % 4 {
        0 => Counter { mode: 6, ..counter },
        1 => Counter { mode: 7, ..counter },
        2 => Counter {
            mode: 254,
            ..counter
        },
        _ => Counter {
            format: 4,
            ..counter
        },
    }
}

fn spoil_timer(mut timer: Timer, draw: u32) -> Timer {
    let n = draw as usize / 4 % 3;
    timer.counters[n] = spoil_counter(timer.counters[n], draw);
    timer
}

fn spoil_span(span: Span) -> Span {
    Span {
        address: 16777216,
        ..span
    }
}

fn spoil_channel(channel: Channel, draw: u32) -> Channel {
    match draw % 6 {
        0 => Channel {
            current: spoil_span(channel.current),
            ..channel
        },
        1 => Channel {
            base: spoil_span(channel.base),
            ..channel
        },
        2 => Channel {
            mode: 0xC0,
            ..channel
        },
        3 => Channel {
            mode: 0x0C,
            ..channel
        },
        4 => Channel {
            mode: 0x02,
            ..channel
        },
        _ => Channel {
            mode: 0x03,
            ..channel
        },
    }
}

fn spoil_dma(mut dma: Dma, draw: u32) -> Dma {
    match draw % 8 {
        0 => Dma { selected: 4, ..dma },
        1 => Dma { first: 4, ..dma },
        2 => Dma { channel: 4, ..dma },
        3 => Dma {
            requests: 16,
            ..dma
        },
        4 => Dma { ends: 16, ..dma },
        _ => {
            let n = draw as usize / 8 % 4;
            dma.channels[n] = spoil_channel(dma.channels[n], draw / 32);
            dma
        }
    }
}

pub(crate) fn spoil(board: Board, draw: u32) -> Board {
    let next = draw / 8;
    match draw % 8 {
        0 => Board {
            intp: board.intp | 1,
            ..board
        },
        1 => Board {
            kept: Kept {
                length: 8,
                ..board.kept
            },
            ..board
        },
        2 => Board {
            icu: spoil_icu(board.icu, next),
            ..board
        },
        3 => Board {
            slave: spoil_icu(board.slave, next),
            ..board
        },
        4 | 5 => Board {
            timer: spoil_timer(board.timer, next),
            ..board
        },
        _ => Board {
            dma: spoil_dma(board.dma, next),
            ..board
        },
    }
}
