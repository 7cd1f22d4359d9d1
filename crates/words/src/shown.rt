// The state of the chips, a line for each of their parts.
use crate::chips;
use crate::chips::Chips;
use dma::Dma;
use icu::Icu;
use notation::line::Chip;
use sentences::which::Int;
use sentences::{Facts, Shown, text};
use timer::Timer;

// All, or one chip.
pub fn print(chips: Chips, which: Chip) -> bool {
    match which {
        Chip::Master => print_icu(chips.icu, chips.lines, false),
        Chip::Slave => print_icu(chips.slave, chips.slaveintp, true),
        Chip::Timer => print_timer(chips.timer),
        Chip::Dma => print_dma(chips.dma),
        Chip::All => {
            print_icu(chips.icu, chips.lines, false)
                && print_icu(chips.slave, chips.slaveintp, true)
                && print_timer(chips.timer)
                && print_dma(chips.dma)
        }
    }
}

fn print_sentence(sentence: Shown, facts: Facts) -> bool {
    text::print_below(sentences::say(sentence, facts))
}

fn print_icu(i: Icu, lines: u8, slave: bool) -> bool {
    let irr = i.irr(lines);
    let (int, level) = match i.interrupting(lines) {
        Some(level) => (Int::High, Some(level)),
        None => (Int::low(irr, i.asked(lines)), icu::highest(i.isr, i.lowest)),
    };
    let facts = Facts::new()
        .with(0x0, slave)
        .with(0x1, i.isr)
        .with(0x2, irr)
        .with(0x3, i.imr)
        .with(0x4, int as u8)
        .with(0x5, level.unwrap_or(Icu::LEVELS))
        .with(0x6, i.stage);
    if i.stage != Icu::READY {
        return print_sentence(Shown::IcuAwaits, facts);
    }
    print_sentence(Shown::Icu, facts) && print_set_up(i, slave)
}

// How an interrupt chip that is ready was set up, and how it ranks.
fn print_set_up(i: Icu, slave: bool) -> bool {
    let facts = Facts::new()
        .with(0x0, slave)
        .with(0x7, i.iw1)
        .with(0x8, i.iw2 & 0xf8)
        .with(0x9, i.vector)
        .with(0xA, i.lowest)
        .with(0xB, i.showsisr)
        .with(0xC, i.sfi)
        .with(0xD, i.rotation);
    print_sentence(Shown::SetUp, facts)
}

fn print_timer(t: Timer) -> bool {
    print_counter(t, 0) && print_counter(t, 1) && print_counter(t, 2)
}

fn print_counter(t: Timer, k: u8) -> bool {
    let c = chips::counter(t, k);
    let holds = chips::flags(
        &[c.latched, c.half, c.second, c.pending, c.trigger],
        |held| *held,
    );
    let facts = Facts::new()
        .with_bytes(0x0, &c.value.to_le_bytes())
        .with_bytes(0x2, &c.count.to_le_bytes())
        .with(0x4, c.mode)
        .with(0x5, c.out)
        .with(0x6, c.gate)
        .with_bytes(0x7, &c.latch.to_le_bytes())
        .with(0x9, holds)
        .with(0xA, c.full)
        .with(0xC, k);
    print_sentence(
        if c.mode < 6 {
            Shown::Counter
        } else {
            Shown::CounterWithoutMode
        },
        facts,
    )
}

fn print_dma(d: Dma) -> bool {
    let facts = Facts::new()
        .with(0x0, d.wide)
        .with(0x1, d.disabled)
        .with(0x2, d.requests)
        .with(0x3, d.ends)
        .with(0x4, d.serving)
        .with(0x5, d.channel);
    print_sentence(Shown::Dma, facts)
        && print_channel(d, 0)
        && print_channel(d, 1)
        && print_channel(d, 2)
        && print_channel(d, 3)
}

fn print_channel(d: Dma, k: u8) -> bool {
    let c = chips::channel(d, k);
    let facts = Facts::new()
        .with_bytes(0x0, &c.current.address.to_le_bytes())
        .with_bytes(0x4, &c.base.address.to_le_bytes())
        .with_bytes(0x8, &c.current.count.to_le_bytes())
        .with_bytes(0xA, &c.base.count.to_le_bytes())
        .with(0xC, k)
        .with(0xD, c.masked)
        .with(0xE, c.mode);
    print_sentence(Shown::Channel, facts)
}
