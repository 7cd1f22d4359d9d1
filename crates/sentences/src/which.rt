// Which sentence says what an answer is, and the facts of a unit.
ghost use Rattle.std.specs.Prelude.{◌≡◌, ◌<◌, ◌≤◌, if◌then◌else◌};
ghost use Rattle.sentences.specs.Which.{transfer_of, low_by};

use crate::answers::Answered;
use crate::bytes::{Answer, Cycle, Op};
use crate::facts::Facts;
use crate::say;
use crate::text::Text;

// The first byte of a CALL.
const CALL: u8 = 0xcd;

// Which way a unit goes, as D3-D2 of its channel's mode say it. The last one stands for a way that is not known, too.
#[derive(Clone, Copy, PartialEq, Eq)]
pub enum Way {
    Verify,
    ToMemory,
    FromMemory,
    Other,
}

// How a unit goes: its way, and whether it is a word.
#[derive(Clone, Copy)]
pub struct Transfer {
    pub way: Way,
    pub word: bool,
}

impl Transfer {
    // As a channel's mode says it.
    pub fn of(mode: u8) -> Transfer
        ensures { result ≡ transfer_of mode }
    {
        Transfer {
            way: match mode / 4 % 4 {
                0 => Way::Verify,
                1 => Way::ToMemory,
                2 => Way::FromMemory,
                _ => Way::Other,
            },
            word: mode % 2 == 1,
        }
    }

    // The bytes of a unit.
    pub fn size(self) -> u8
        ensures positive { 0 < result }
        ensures bound { result ≤ 2 }
        ensures value { result ≡ (if self.word then 2 else 1) }
    {
        1 + u8::from(self.word)
    }
}

// An answer by itself: which way a unit went, and which port was read, is not known. A unit with an upper byte is a word; one without may be.
pub fn words_alone(a: Answer) -> Text {
    let sentence = match a.status {
        0 => done(a),
        1 => Answered::BusTaken,
        2 => Answered::NoSuch,
        3 => Answered::OutOfTurn,
        4 => Answered::NotBuilt,
        5 => Answered::NeverGiven,
        6 => Answered::CountOfOne,
        _ => Answered::NoStatus,
    };
    if a.status != 0 || a.operation() != Some(Op::Cycle) {
        return say(sentence, Facts::from(a));
    }
    let transfer = Transfer {
        way: Way::Other,
        word: a.upper != 0,
    };
    say(sentence, unit(a, transfer, false))
}

// The operation that an answer is to.
pub fn operation(a: Answer) -> Text {
    let sentence = match a.operation() {
        Some(Op::Reset) => Answered::Reset,
        Some(Op::Write) => Answered::Write,
        Some(Op::Read) => Answered::ReadPort,
        Some(Op::Lines) => Answered::Lines,
        Some(Op::Acknowledge) => Answered::Acknowledge,
        Some(Op::Advance) => Answered::Advance,
        Some(Op::Cycle) => Answered::Cycle,
        None => Answered::Other,
    };
    say(sentence, Facts::from(a))
}

// The slave's ports, 30 and 31, stand for the master's, which take the same words; any other stands for itself.
pub fn master_port(port: u8) -> u8 {
    port % 0x30
}

// What was done; of a read without its port.
pub fn done(a: Answer) -> Answered {
    match a.operation() {
        Some(Op::Read) => Answered::Read,
        Some(Op::Acknowledge) if a.kind == CALL => Answered::Call,
        Some(Op::Acknowledge) => Answered::Vector,
        Some(Op::Advance) => Answered::Rises,
        Some(Op::Cycle) => match a.cycle() {
            Cycle::Nothing => Answered::Nothing,
            Cycle::Granted => Answered::Granted,
            Cycle::Unit => Answered::Unit,
            Cycle::Released => Answered::Released,
        },
        _ => Answered::Done,
    }
}

// By port: what a byte is that was read there.
pub fn read(port: u8) -> Answered {
    match master_port(port) {
        0x00 => Answered::ReadLevels,
        0x01 => Answered::ReadImr,
        0x10..=0x12 => Answered::ReadCounter,
        0x21 => Answered::ReadSelection,
        0x22 | 0x23 => Answered::ReadCount,
        0x24..=0x26 => Answered::ReadAddress,
        0x28 => Answered::ReadControl,
        0x2a => Answered::ReadMode,
        0x2b => Answered::ReadStatus,
        0x2f => Answered::ReadMasks,
        _ => Answered::Read,
    }
}

// The facts of a unit by its answer, but for what is said of the units to come and of an upper byte that was not used. The end, the free bus and the end of memory are said by a 1 in
// the answer, and by nothing else. `half`: of a word past the end of memory that is the upper byte alone.
pub fn unit(a: Answer, transfer: Transfer, half: bool) -> Facts {
    let way = transfer.way as u8;
    let word = u8::from(transfer.word);
    let odd = word & a.address.to_le_bytes()[0] % 2;
    let outside = u8::from(a.outside == 1);
    let marks = odd | outside << 1;
    let told = if half { way | 8 } else { way | word << 2 };
    Facts::from(a)
        .with(0x3, 0)
        .with(0x4, way | word << 2)
        .with(0x6, 0)
        .with(0x7, a.free == 1)
        .with(0xC, u8::from(a.last == 1) | u8::from(marks != 0) << 2)
        .with(0xE, marks)
        .with(0xF, told * outside)
}

// 0 for no bit, 1 for one, 2 for several: a sentence has other words for each.
pub fn how_many(x: u8) -> u8 {
    match x.count_ones() {
        0 => 0,
        1 => 1,
        _ => 2,
    }
}

// Why INT is low, or that it is high.
#[derive(Clone, Copy)]
pub enum Int {
    NoLevelAsks,
    AllMasked,
    // none of the others outranks what is in service
    InService,
    High,
}

impl Int {
    // By the levels that ask, and those of them that are not masked.
    pub fn low(irr: u8, asked: u8) -> Int
        ensures { result ≡ low_by irr asked }
    {
        match (irr, asked) {
            (0, _) => Int::NoLevelAsks,
            (_, 0) => Int::AllMasked,
            _ => Int::InService,
        }
    }
}
