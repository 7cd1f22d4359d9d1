// What came of a record, by the chips before it and after it.
use crate::chips;
use crate::chips::{Chips, Manner, flags};
use dma::Dma;
use icu::Icu;
use sentences::bytes::{Answer, Op, Record};
use sentences::text::Text;
use sentences::which::how_many;
use sentences::{Facts, Happened, which};
use timer::{Counter, Timer};

// What an answer says, and what came of its record besides; `done` where there is nothing to be said.
pub fn words(before: Chips, after: Chips, r: Record, a: Answer, m: Manner) -> Text {
    let said = chips::answered(before, after, r, a, m);
    if a.status != 0 {
        return said;
    }
    let all = if m.plain {
        said
    } else {
        said.and(first_words(before, after, r))
            .and(levels(before, after, r))
    };
    match all.as_bytes() {
        // of an advance the rises
        [] => sentences::say(which::done(a), Facts::from(a)),
        // a row that begins with a piece begins after its semicolon
        [b';', _, rest @ ..] => Text::new().say(rest),
        _ => all,
    }
}

// What is the record's own matter.
fn first_words(before: Chips, after: Chips, r: Record) -> Text {
    match (r.operation(), r.port) {
        (Some(Op::Write), port) => written(before, after, port, r.byte),
        (Some(Op::Lines), 1) => gated(before.timer, after.timer),
        (Some(Op::Lines), 2) => requested(after.dma),
        (Some(Op::Advance), _) => advanced(before.timer, after.timer, r.pulses % 65536),
        _ => Text::new(),
    }
}

fn written(before: Chips, after: Chips, port: u8, x: u8) -> Text {
    let slave = chips::is_slave(port);
    match which::master_port(port) {
        0x00..=0x0f => interrupt_words(before.chip(slave), after.chip(slave), port, x),
        place @ 0x10..=0x1f => counter_words(before.timer, after.timer, place, x),
        place => dma_words(after.dma, place, x),
    }
}

fn interrupt_words(was: Icu, now: Icu, port: u8, x: u8) -> Text {
    let finished = was.isr & !now.isr;
    let facts = Facts::new()
        .with(0x0, x)
        .with(0x1, chips::is_slave(port))
        .with(0x2, finished)
        .with(0x3, how_many(finished))
        .with(0x4, now.isr)
        .with(0x5, now.stage)
        .with(0x6, (now.lowest % 8 + 1) % 8);
    let sentence = match port % 16 {
        0 => command(x, finished),
        // IMR has no words
        _ if was.stage == Icu::READY => None,
        _ => Some(Happened::Awaits),
    };
    match sentence {
        Some(sentence) => sentences::say(sentence, facts),
        None => Text::new(),
    }
}

// A word at A0=0: IW1, MCW, or PFCW.
fn command(x: u8, finished: u8) -> Option<Happened> {
    match x / 8 % 4 {
        0 if finished == 0 => vain(x / 32),
        0 => Some(Happened::Finished),
        1 if x & 2 != 0 => Some(Happened::ReadsShow),
        1 => Some(Happened::NoEffect),
        _ => Some(Happened::Awaits),
    }
}

// PFCW that ends no level, by D7-D5.
fn vain(command: u8) -> Option<Happened> {
    match command {
        1 | 5 => Some(Happened::NothingInService),
        3 | 7 => Some(Happened::NotInService),
        6 => Some(Happened::HighestNow),
        2 => Some(Happened::NoEffect),
        _ => None,
    }
}

// By the port of a counter, or that of the control words, which name their counter.
fn counter_words(before: Timer, after: Timer, port: u8, x: u8) -> Text {
    let control = port == 0x13;
    let k = if control { x / 64 } else { port % 4 };
    let was = chips::counter(before, k);
    let now = chips::counter(after, k);
    let facts = Facts::new().with_bytes(0x2, &now.latch.to_le_bytes());
    if control {
        let sentence = match x / 16 % 4 {
            0 if was.latched => Happened::LatchUnread,
            0 => Happened::Holds,
            _ => Happened::AwaitsCount,
        };
        return sentences::say(sentence, facts);
    }
    if now.half {
        return sentences::say(
            Happened::AwaitsHighByte,
            facts.with(0x4, old_count(was) as u8),
        );
    }
    let facts = facts
        .with(0x4, taken_over(now) as u8)
        .with_bytes(0x5, &now.count.to_le_bytes())
        .with(0x7, now.count == 0);
    sentences::say(Happened::Count, facts)
}

// What half a count means for the one before it.
#[derive(Clone, Copy)]
enum OldCount {
    None,
    RunsOn,
    // in mode 0 no pulse counts
    Stopped,
    // it did not run and stays the count to load: it was not taken over, or GATE is low
    Stays,
}

fn old_count(c: Counter) -> OldCount {
    match c.mode {
        _ if !c.full => OldCount::None,
        0 => OldCount::Stopped,
        _ if c.pending => OldCount::Stays,
        1 | 5 => OldCount::RunsOn,
        _ if c.gate => OldCount::RunsOn,
        _ => OldCount::Stays,
    }
}

// When a count is taken over.
#[derive(Clone, Copy)]
enum Takeover {
    AtNextPulse,
    AfterGate,
    AtEnd,
    AtHalf,
}

fn taken_over(c: Counter) -> Takeover {
    match c.mode {
        _ if c.trigger => Takeover::AtNextPulse,
        1 | 5 => Takeover::AfterGate,
        _ if c.pending => Takeover::AtNextPulse,
        _ if !c.gate => Takeover::AfterGate,
        3 => Takeover::AtHalf,
        _ => Takeover::AtEnd,
    }
}

fn dma_words(after: Dma, port: u8, x: u8) -> Text {
    match port {
        0x20 if x % 2 == 1 => sentences::say(Happened::DmaReset, Facts::new()),
        0x22 => units_words(after, false),
        0x23 => units_words(after, true),
        0x24..=0x26 => {
            let address = chips::register(after, 0x24);
            sentences::say(
                Happened::DmaAddress,
                Facts::new().with_bytes(0x4, &address.to_le_bytes()),
            )
        }
        0x28 | 0x2f => requested(after),
        _ => Text::new(),
    }
}

// The count of the selected channel, and with its high byte how many units it stands for.
fn units_words(after: Dma, whole: bool) -> Text {
    let count = chips::register(after, 0x22) % 65536;
    let units = count + 1;
    let facts = Facts::new()
        .with(0x4, u8::from(whole) | u8::from(whole && units != 1) << 1)
        .with_bytes(0x8, &count.to_le_bytes())
        .with_bytes(0xA, &units.to_le_bytes());
    sentences::say(Happened::DmaCount, facts)
}

// The channels that ask: those that may be served, and those that are masked. That the chip is disabled is said where somebody asks.
fn requested(d: Dma) -> Text {
    let masked = chips::marks_of(d).masked;
    let free = d.requests & !masked;
    let held = d.requests & masked;
    let facts = Facts::new()
        .with(0x0, free)
        .with(0x1, how_many(free))
        .with(0x2, held)
        .with(0x3, how_many(held))
        .with(0x4, d.disabled && d.requests != 0);
    sentences::say(Happened::Requests, facts)
}

// A bit for each counter: its GATE, whether the next pulse loads it, and whether a low GATE keeps it from counting: once it has a count, in any mode but 1 and 5.
#[derive(Clone, Copy)]
struct Gates {
    high: u8,
    loads: u8,
    stands: u8,
}

fn gates_of(t: Timer) -> Gates {
    Gates {
        high: flags(&t.counters, |c| c.gate),
        loads: flags(&t.counters, |c| loads(*c)),
        stands: flags(&t.counters, |c| stands_still(*c)),
    }
}

// GATE of some counters rose or fell.
fn gated(before: Timer, after: Timer) -> Text {
    let was = gates_of(before);
    let now = gates_of(after);
    let rose = now.high & !was.high;
    let fell = was.high & !now.high & now.stands;
    let starts = rose & now.loads;
    let stops = fell & !now.loads;
    let goes = rose & !now.loads & now.stands;
    let later = fell & now.loads;
    let facts = Facts::new()
        .with(0x0, starts)
        .with(0x1, how_many(starts))
        .with(0x2, stops)
        .with(0x3, how_many(stops))
        .with(0x4, goes)
        .with(0x5, how_many(goes))
        .with(0x6, later)
        .with(0x7, how_many(later));
    sentences::say(Happened::Gates, facts)
}

fn stands_still(c: Counter) -> bool {
    match c.mode {
        1 | 5 => false,
        0 => c.full && !c.half,
        _ => c.full,
    }
}

// A trigger loads in any mode; a count that waits to be taken over does with any GATE, but in modes 1 and 5 it waits for a trigger.
fn loads(c: Counter) -> bool {
    c.trigger || c.pending && stands_still(c)
}

// At which pulses each OUT rose, and where the counters are.
fn advanced(before: Timer, after: Timer, pulses: u32) -> Text {
    let rises = rises_of(before, 0, pulses)
        .and(rises_of(before, 1, pulses))
        .and(rises_of(before, 2, pulses));
    let rises = if rises.is_empty() {
        sentences::say(Happened::NoRise, Facts::new())
    } else {
        rises
    };
    rises
        .and(value_of(after, 0))
        .and(value_of(after, 1))
        .and(value_of(after, 2))
}

fn value_of(t: Timer, k: u8) -> Text {
    let c = chips::counter(t, k);
    if 5 < c.mode {
        return Text::new();
    }
    let facts = Facts::new()
        .with_bytes(0x0, &c.value.to_le_bytes())
        .with(0xC, k);
    sentences::say(Happened::CounterAt, facts)
}

// The first three pulses of these that made an OUT rise, and how many others did.
fn rises_of(t: Timer, k: u8, pulses: u32) -> Text {
    let c = chips::counter(t, k);
    let all = c.run(pulses).rises;
    if all == 0 {
        return Text::new();
    }
    let named = match all {
        1 => 1,
        2 => 2,
        _ => 3,
    };
    let facts = Facts::new()
        .with_bytes(0x0, &pulse_of_rise(c, pulses, 1).to_le_bytes())
        .with_bytes(0x4, &pulse_of_rise(c, pulses, 2).to_le_bytes())
        .with_bytes(0x8, &pulse_of_rise(c, pulses, 3).to_le_bytes())
        .with(0xC, k)
        .with(0xD, named)
        .with(0xE, 3 < all)
        .with_number(u64::from(all.saturating_sub(3)));
    sentences::say(Happened::Rises, facts)
}

// The least number of pulses in which OUT rises so often, found by halving; more than all of them where it does not.
fn pulse_of_rise(c: Counter, pulses: u32, rises: u32) -> u32 {
    let mut low: u32 = 0;
    let mut high = pulses % 65536 + 1;
    for _ in 0..17 {
        let middle = low.midpoint(high);
        if c.run(middle).rises < rises {
            low = middle;
        } else {
            high = middle;
        }
    }
    high
}

// What became of an INT: nothing to say, it rose, it fell; or it is low all the same though levels ask anew, or are masked no more.
#[derive(Clone, Copy)]
enum Change {
    None,
    Rose,
    Fell,
    // the levels are masked
    Masked,
    // a level in service has the rank
    Outranked,
    NotReady,
    // some are masked, and a level in service outranks the others
    MaskedOrOutranked,
}

fn change_of(was: bool, now: bool, anew: u8, stage: u8, asked: u8) -> Change {
    match (was, now) {
        (true, true) => Change::None,
        (false, true) => Change::Rose,
        (true, false) => Change::Fell,
        _ if anew == 0 => Change::None,
        _ if stage != Icu::READY => Change::NotReady,
        _ if anew & asked == 0 => Change::Masked,
        _ if anew & !asked == 0 => Change::Outranked,
        _ => Change::MaskedOrOutranked,
    }
}

// The OUTs that went from one level to the other.
fn outs_from(was: Timer, now: Timer) -> u8 {
    now.outs() & !was.outs()
}

// OUT, but its rises in pulses, which were told; the levels that ask anew or no more; INT. An acknowledge tells of these itself.
fn levels(before: Chips, after: Chips, r: Record) -> Text {
    if r.operation() == Some(Op::Acknowledge) {
        return Text::new();
    }
    sentences::say(Happened::Levels, level_facts(before, after, r))
}

// The lines of a chip that rose before it was ready, and of which it keeps nothing, in edge trigger. OUT0 at line 0 of the master is no matter of the record's.
fn early_lines(before: Chips, after: Chips, slave: bool) -> u8 {
    let i = after.chip(slave);
    let lines = after.lines_of(slave);
    if i.stage == Icu::READY {
        return 0;
    }
    let rose = lines & !before.lines_of(slave) & !i.irr(lines);
    if slave { rose } else { rose & 0xfe }
}

fn level_facts(before: Chips, after: Chips, r: Record) -> Facts {
    let op = r.operation();
    let rises = match op {
        Some(Op::Advance) => 0,
        _ => outs_from(before.timer, after.timer),
    };
    let to_slave = r.port == 3;
    let early = match op {
        Some(Op::Lines) => early_lines(before, after, to_slave),
        _ => 0,
    };
    let master = requests_of(
        before.icu,
        before.lines,
        after.icu,
        after.lines,
        told_levels(r, 0x00),
        ticks(before.timer, after.icu.stage, r),
    );
    let slave = requests_of(
        before.slave,
        before.slaveintp,
        after.slave,
        after.slaveintp,
        told_levels(r, 0x30),
        0,
    );
    Facts::new()
        .with(0x0, master.anew)
        .with(0x1, how_many(master.anew))
        .with(0x2, master.gone)
        .with(0x3, how_many(master.gone))
        .with(0x4, master.int as u8)
        .with(0x5, master.service)
        .with(0x6, slave.anew)
        .with(0x7, how_many(slave.anew))
        .with(0x8, slave.gone)
        .with(0x9, how_many(slave.gone))
        .with(0xA, slave.int as u8)
        .with(0xB, rises)
        .with(0xC, slave.service)
        .with(0xD, outs_from(after.timer, before.timer))
        .with(0xE, early)
        .with(0xF, how_many(early) | u8::from(to_slave) << 2)
}

// What became of an interrupt chip's requests: the levels that ask anew, those that ask no more, INT, and the highest level in service.
#[derive(Clone, Copy)]
struct Requests {
    anew: u8,
    gone: u8,
    int: Change,
    service: u8,
}

// `told` has the levels that are told of, and `ticks` those that asked for a while.
fn requests_of(was: Icu, old_lines: u8, now: Icu, lines: u8, told: u8, ticks: u8) -> Requests {
    let old = was.irr(old_lines);
    let irr = now.irr(lines);
    let anew = irr & !old & told;
    let unmasked = irr & was.imr & !now.imr & told;
    Requests {
        anew,
        gone: (old | ticks) & !irr & told,
        int: change_of(
            was.int(old_lines),
            now.int(lines),
            anew | unmasked,
            now.stage,
            now.asked(lines),
        ),
        service: icu::highest(now.isr, now.lowest).unwrap_or(Icu::LEVELS),
    }
}

// 1 where OUT0 rose in the pulses of an advance, so that level 0 of a chip that is ready asked, if only for a while.
fn ticks(t: Timer, stage: u8, r: Record) -> u8 {
    let c = chips::counter(t, 0);
    let advances = r.operation() == Some(Op::Advance);
    u8::from(advances && stage == Icu::READY && 0 < c.run(r.pulses % 65536).rises)
}

// Records that change the requests of a chip by themselves, a reset and its IW1, leave no level of it to be told of: 0 for them, and 255 for others. The chip is known by its
// first port.
fn told_levels(r: Record, first: u8) -> u8 {
    match r.operation() {
        Some(Op::Reset) => 0,
        Some(Op::Write) if r.port == first && r.byte / 16 % 2 == 1 => 0,
        _ => 255,
    }
}
