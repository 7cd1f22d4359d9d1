// A record and an answer by their bytes.
ghost use Rattle.std.specs.Prelude.{◌≡◌, ◌<◌, ◌↔◌, IsSome};
ghost use Rattle.sentences.specs.Bytes.{op_of, came_to, record_bytes, record_of, answer_bytes, answer_of};

// What a record asks for, by its first byte.
#[derive(Clone, Copy, PartialEq, Eq)]
pub enum Op {
    Reset,
    Write,
    Read,
    Lines,
    Acknowledge,
    Advance,
    Cycle,
}

impl Op {
    fn of(byte: u8) -> Option<Op>
        ensures known { IsSome result ↔ (byte < 7) }
        ensures value { result ≡ op_of byte }
    {
        match byte {
            0 => Some(Op::Reset),
            1 => Some(Op::Write),
            2 => Some(Op::Read),
            3 => Some(Op::Lines),
            4 => Some(Op::Acknowledge),
            5 => Some(Op::Advance),
            6 => Some(Op::Cycle),
            _ => None,
        }
    }
}

// What a DMA cycle came to, by byte 4 of its answer.
#[derive(Clone, Copy, PartialEq, Eq)]
pub enum Cycle {
    Nothing,
    Granted,
    Unit,
    Released,
}

#[derive(Clone, Copy, PartialEq, Eq)]
pub struct Record {
    pub op: u8,
    // a port, a group of lines, or the END of a cycle
    pub port: u8,
    // data, lines, or the device's byte
    pub byte: u8,
    // the device's upper byte
    pub upper: u8,
    // the last four bytes, little end first
    pub pulses: u32,
}

impl Record {
    // None where there is no such operation.
    pub fn operation(self) -> Option<Op>
        ensures known { IsSome result ↔ (self.op < 7) }
        ensures value { result ≡ op_of self.op }
    {
        Op::of(self.op)
    }
}

impl From<[u8; 8]> for Record {
    ghost from_gives = { λ bytes r. r ≡ record_of bytes };

    fn from([op, port, byte, upper, p0, p1, p2, p3]: [u8; 8]) -> Record {
        Record {
            op,
            port,
            byte,
            upper,
            pulses: u32::from_le_bytes([p0, p1, p2, p3]),
        }
    }
}

impl From<Record> for [u8; 8] {
    ghost from_gives = { λ r bytes. bytes ≡ record_bytes r };

    fn from(r: Record) -> [u8; 8] {
        let [p0, p1, p2, p3] = r.pulses.to_le_bytes();
        [r.op, r.port, r.byte, r.upper, p0, p1, p2, p3]
    }
}

// The names are those of a read, an acknowledge and a DMA cycle; in the answer to an advance the last twelve bytes are the rises of OUT0, OUT1 and OUT2.
#[derive(Clone, Copy)]
pub struct Answer {
    pub status: u8,
    pub op: u8,
    // what was read, a vector, or the byte of a unit
    pub byte: u8,
    pub levels: u8,
    // the first byte of a CALL, or what a DMA cycle came to
    pub kind: u8,
    // the low byte of a CALL's address, or the unit's channel
    pub channel: u8,
    // the high byte of a CALL's address, or whether a unit was the last
    pub last: u8,
    // whether the bus is free after a unit
    pub free: u8,
    // where the unit went
    pub address: u32,
    // whether that is past the end of memory
    pub outside: u8,
    // the upper byte of a word
    pub upper: u8,
    // 0 but after an advance
    pub others: [u8; 2],
}

impl Answer {
    // None where there is no such operation.
    pub fn operation(self) -> Option<Op>
        ensures known { IsSome result ↔ (self.op < 7) }
        ensures value { result ≡ op_of self.op }
    {
        Op::of(self.op)
    }

    pub fn cycle(self) -> Cycle
        ensures { result ≡ came_to self.kind }
    {
        match self.kind {
            1 => Cycle::Granted,
            2 => Cycle::Unit,
            3 => Cycle::Released,
            _ => Cycle::Nothing,
        }
    }

    // The record that the first eight bytes are.
    pub fn record(self) -> Record {
        Record {
            op: self.status,
            port: self.op,
            byte: self.byte,
            upper: self.levels,
            pulses: u32::from_le_bytes([self.kind, self.channel, self.last, self.free]),
        }
    }
}

impl From<[u8; 16]> for Answer {
    ghost from_gives = { λ bytes a. a ≡ answer_of bytes };

    fn from(a: [u8; 16]) -> Answer {
        let [
            status,
            op,
            byte,
            levels,
            kind,
            channel,
            last,
            free,
            a0,
            a1,
            a2,
            a3,
            outside,
            upper,
            x,
            y,
        ] = a;
        Answer {
            status,
            op,
            byte,
            levels,
            kind,
            channel,
            last,
            free,
            address: u32::from_le_bytes([a0, a1, a2, a3]),
            outside,
            upper,
            others: [x, y],
        }
    }
}

impl From<Answer> for [u8; 16] {
    ghost from_gives = { λ a bytes. bytes ≡ answer_bytes a };

    fn from(a: Answer) -> [u8; 16] {
        let [a0, a1, a2, a3] = a.address.to_le_bytes();
        let [x, y] = a.others;
        [
            a.status, a.op, a.byte, a.levels, a.kind, a.channel, a.last, a.free, a0, a1, a2, a3,
            a.outside, a.upper, x, y,
        ]
    }
}
