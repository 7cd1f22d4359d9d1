// The chips of a board, as far as a row or a picture of them needs it, and the facts of the chips before a record that choose its sentences.
use crate::{asked, refused};
use dma::{Channel, Dma};
use icu::Icu;
use sentences::bytes::{Answer, Cycle, Op, Record};
use sentences::text::Text;
use sentences::which::{Int, Transfer, Way};
use sentences::{Answered, Facts, Happened, Refused, listing, which};
use timer::{Counter, Timer};

#[derive(Clone, Copy)]
pub struct Chips {
    // the master, and its eight lines
    pub icu: Icu,
    pub lines: u8,
    // an acknowledge would go on to the slave
    pub passes: bool,
    pub slave: Icu,
    pub slaveintp: u8,
    pub timer: Timer,
    pub dma: Dma,
}

// A bit for each channel: those that are masked, and those whose mode is of words.
#[derive(Clone, Copy)]
pub struct Marked {
    pub masked: u8,
    pub wide: u8,
}

impl Chips {
    // The interrupt chip of a port.
    pub fn chip(self, slave: bool) -> Icu {
        if slave { self.slave } else { self.icu }
    }

    // Its eight lines.
    pub fn lines_of(self, slave: bool) -> u8 {
        if slave { self.slaveintp } else { self.lines }
    }

    // OUT0 to OUT2, and INT, as an answer has them.
    pub fn levels(self) -> u8 {
        self.timer.outs() | u8::from(self.icu.int(self.lines)) << 3
    }
}

pub fn counter(t: Timer, k: u8) -> Counter {
    t.counters[usize::from(k % 3)]
}

pub fn channel(d: Dma, k: u8) -> Channel {
    d.channels[usize::from(k % 4)]
}

// A bit for each item that is so, the first one lowest.
pub(crate) fn flags<T, F: Fn(&T) -> bool>(items: &[T], is_so: F) -> u8
    requires { F.IsAlwaysCallable is_so }
{
    items
        .iter()
        .rev()
        .fold(0, |flags, item| flags << 1 | u8::from(is_so(item)))
}

// The count or the address that a port shows a byte of, or takes one: of the selected channel, its base or where it stands.
pub fn register(d: Dma, port: u8) -> u32 {
    let c = channel(d, d.selected);
    let span = if d.base { c.base } else { c.current };
    if port < 0x24 {
        u32::from(span.count)
    } else {
        span.address
    }
}

pub fn marks_of(d: Dma) -> Marked {
    Marked {
        masked: flags(&d.channels, |c| c.masked),
        wide: flags(&d.channels, |c| c.mode % 2 == 1),
    }
}

// Whether a port is the slave's; past 31 there are none.
pub fn is_slave(port: u8) -> bool {
    0x2f < port
}

// How much a row says: all, or no more than the answer has, while a guess is still asked for.
#[derive(Clone, Copy)]
pub struct Manner {
    pub plain: bool,
    // another answer was expected
    pub other: bool,
    // the length of the memory
    pub lent: u32,
    // whether the record's port can be written and read
    pub writable: bool,
    pub readable: bool,
}

// What a record asks for: what a byte means depends on the chips. A record that is refused with 2 asks for nothing, and stands in the notation. Which byte of a count is read
// goes unsaid where the row is plain.
pub fn asked(chips: Chips, r: Record, status: u8, plain: bool) -> Text {
    let reads = r.operation() == Some(Op::Read);
    let c = counter(chips.timer, r.port % 4);
    let slave = is_slave(r.port);
    let i = chips.chip(slave);
    let place = asked::place(c, if reads { c.second } else { c.half });
    let hidden = plain && reads;
    let facts = Facts::from(r)
        .with(0x8, chips.dma.selected)
        .with(0x9, chips.dma.base)
        .with(0xA, if hidden { 0 } else { place })
        .with(0xB, c.latched && !hidden)
        .with(0xC, i.stage)
        .with(0xD, i.showsisr)
        .with(0xE, slave);
    let sentence = match status {
        2 => listing::sentence(r),
        _ => asked::sentence(r, i.stage),
    };
    sentences::say(sentence, facts)
}

// What was read, moved or answered, and for a refusal a sentence that helps. `before` are the chips before the record, `after` those after it.
pub fn answered(before: Chips, after: Chips, r: Record, a: Answer, m: Manner) -> Text {
    if a.status != 0 {
        return refusal(before, r, a.status, m);
    }
    match a.operation() {
        Some(Op::Read) => read(before.dma, before.timer, after.timer, r.port, a.byte, m),
        Some(Op::Acknowledge) => acknowledged(before, after, a, m.plain),
        Some(Op::Cycle) => cycled(before.dma, after.dma, r.upper, a, m),
        _ => Text::new(),
    }
}

// What is read of a port: its byte in words, with the register that the byte is of.
fn read(d: Dma, before: Timer, after: Timer, port: u8, byte: u8, m: Manner) -> Text {
    let was = counter(before, port % 4);
    let now = counter(after, port % 4);
    // what there is to say beside the byte: of a counter that the high byte is next, and that it was latched; of the status whether an end bit was set, else the channel
    let beside = match port {
        0x10..=0x1f if m.plain => 0,
        0x10..=0x1f => u8::from(now.second) | u8::from(was.latched) << 1,
        0x2b => u8::from(byte % 16 != 0),
        _ => d.selected,
    };
    let facts = Facts::new()
        .with(0x2, byte)
        .with_bytes(0x8, &register(d, port).to_le_bytes())
        .with(0xD, d.base)
        .with(0xE, beside)
        .with(0xF, m.other);
    sentences::say(which::read(port), facts)
}

// The bytes of an acknowledge, and what there is to say of them: that the slave gave them, of either chip why its INT is low, and the levels in service.
fn acknowledged(before: Chips, after: Chips, a: Answer, plain: bool) -> Text {
    let passed = before.passes;
    let giver = before.chip(passed);
    let lines = before.lines_of(passed);
    let level = giver.interrupting(lines);
    let facts = Facts::from(a).with(0xE, 1).with(0xF, level.unwrap_or(7));
    let bytes = sentences::say(which::done(a), facts);
    if plain {
        return bytes;
    }
    // what follows them: the level that the slave gives, or why the INT of the chip that gave them is low
    let said = match level {
        Some(level) => sentences::say(
            Answered::SlaveGives,
            Facts::new().with(0xC, level).with(0xE, passed),
        ),
        None => {
            let cause = Int::low(giver.irr(lines), giver.asked(lines));
            let service = icu::highest(giver.isr, giver.lowest).unwrap_or(Icu::LEVELS);
            sentences::say(
                Answered::LowInt,
                Facts::new()
                    .with(0xC, cause as u8)
                    .with(0xD, service)
                    .with(0xE, passed),
            )
        }
    };
    bytes.and(said).and(in_service(before.icu, after.icu, before.slave, after.slave, passed))
}

// The levels in service, and where self-FI turned the ranks of a chip, its lowest.
fn in_service(was: Icu, now: Icu, slave_was: Icu, slave_now: Icu, passed: bool) -> Text {
    let facts = Facts::new()
        .with(0x1, passed)
        .with(0x2, slave_now.isr)
        .with(0x4, now.isr)
        .with(0x5, now.lowest != was.lowest)
        .with(0x6, now.lowest)
        .with(0x7, slave_now.lowest != slave_was.lowest)
        .with(0x8, slave_now.lowest);
    sentences::say(Happened::InService, facts)
}

// What a bus cycle did, where, and what it left to do; or why it did nothing.
fn cycled(before: Dma, after: Dma, upper: u8, a: Answer, m: Manner) -> Text {
    match a.cycle() {
        Cycle::Nothing => idle(before.requests, before.disabled),
        Cycle::Unit => moved_words(before, after, upper, a, m),
        Cycle::Granted | Cycle::Released => sentences::say(which::done(a), Facts::from(a)),
    }
}

// Why a cycle did nothing.
fn idle(requests: u8, disabled: bool) -> Text {
    // 1 for a channel that asks, 2 for several, 3 for none; 0 where the chip is disabled
    let asking = match which::how_many(requests) {
        _ if disabled => 0,
        0 => 3,
        n => n,
    };
    let facts = Facts::new()
        .with(0xC, requests)
        .with(0xD, asking)
        .with(0xE, disabled);
    sentences::say(Answered::Nothing, facts)
}

fn moved_words(before: Dma, after: Dma, upper: u8, a: Answer, m: Manner) -> Text {
    let c = channel(before, a.channel);
    let transfer = Transfer::of(c.mode);
    let left = channel(after, a.channel).current.count;
    // of a word with one byte past the memory that is the upper one
    let half = transfer.word && lost(a.address, transfer, m.lent) == 1;
    // what is said of the units still to come: that the channel starts anew, how many are left, or nothing
    let rest = match a.last {
        _ if m.plain => 0,
        1 => c.mode / 16 % 2,
        _ => 2,
    };
    let facts = which::unit(a, transfer, half)
        .with(0x3, upper)
        .with(0x6, rest)
        .with_number(u64::from(left) + 1);
    let said = sentences::say(Answered::Unit, facts);
    // the device's upper byte was not used: it had one, and the unit is a byte to memory
    if transfer.way == Way::ToMemory && !transfer.word && upper != 0 {
        return said.and(sentences::say(Answered::UpperUnused, facts));
    }
    said
}

// How many bytes of a unit at an address are past so many bytes of memory.
fn lost(at: u32, transfer: Transfer, lent: u32) -> u8 {
    if transfer.word {
        u8::from(lent <= at & !1) + u8::from(lent <= at | 1)
    } else {
        u8::from(lent <= at)
    }
}

// A unit that an answer tells of: its address, the way that it went, how many bytes of it went to memory, and how many, whichever way, are past the end of it.
#[derive(Clone, Copy)]
pub struct Unit {
    pub address: u32,
    pub way: Way,
    pub written: u8,
    pub lost: u8,
}

pub fn unit_of(before: Dma, a: Answer, lent: u32) -> Option<Unit> {
    if a.status != 0 || a.operation() != Some(Op::Cycle) || a.cycle() != Cycle::Unit {
        return None;
    }
    let transfer = Transfer::of(channel(before, a.channel).mode);
    Some(Unit {
        address: a.address,
        way: transfer.way,
        written: match transfer.way {
            Way::ToMemory => transfer.size(),
            _ => 0,
        },
        lost: lost(a.address, transfer, lent),
    })
}

// Why a record was refused, worked out from the record and the chips before it.
fn refusal(chips: Chips, r: Record, status: u8, m: Manner) -> Text {
    let op = r.operation();
    let master = set_up(chips.icu);
    let other = set_up(chips.slave);
    // an acknowledge that a ready master refuses is the slave's fault, or that of both
    let needed = op == Some(Op::Acknowledge) && chips.icu.stage == Icu::READY;
    let slave = needed || is_slave(r.port);
    let stage = chips.chip(slave).stage;
    let owner = if chips.dma.serving {
        chips.dma.channel
    } else {
        marks_of(chips.dma).wide
    };
    let facts = Facts::from(r)
        .with(0x8, status)
        .with(0x9, owner)
        .with(
            0xA,
            counter(chips.timer, r.port % 4).format == Counter::BOTH,
        )
        .with(0xB, stage)
        .with(0xC, slave)
        .with(0xD, master)
        .with(0xE, other)
        .with(0xF, needed);
    let port = which::master_port(r.port);
    let sentence = match status {
        1 => Refused::BusTaken,
        2 => refused::malformed(r, m),
        3 => refused::early(op, port, stage, (master ^ other) & 2 != 0),
        4 => refused::unbuilt(port, r.byte),
        _ => Refused::CountOfOne,
    };
    sentences::say(sentence, facts)
}

// How an interrupt chip is set up: bit 0 vector mode, bit 1 single.
fn set_up(i: Icu) -> u8 {
    i.iw1 & 2 | u8::from(i.vector)
}
