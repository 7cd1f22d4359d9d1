// Tapes from a seed: records steered so that the chips are really used.
//
// The maker mostly makes single records, drawn by weights. Now and then it starts a script, which sets a chip up record by record, with single
// records strewn in: the initializing words of the interrupt chip, a counter's mode and count, a counter that is then run (pulses, its gate, counts
// written again, reads), a channel with its requests and cycles (some of these after a reset of the DMA chip by register 0), a latch and reads of
// a counter, or both interrupt chips with what may happen to the two. In the end one record in thirty-two has a byte changed, whatever that makes of it.
//
// Addresses lie near 0, near the memory's end and near FFFFFFH. Most channels begin by turning the wide bus on, and more than half of the modes are by words.

ghost use Rattle.std.specs.Prelude.{◌<◌};

type Record = [u8; 8];

#[derive(Clone, Copy, PartialEq, Eq)]
pub enum Script {
    Icu,
    Counter,
    Channel,
    Reads,
    // A reset of the DMA chip, and then a channel.
    Reset,
    Run,
    BothChips,
}

#[derive(Clone, Copy)]
pub struct Maker {
    pub seed: u32,
    pub script: Option<Script>,
    pub step: u32,
    // What the script drew when it began.
    pub choice: u32,
    // The memory's length.
    pub memory: u32,
}

// Marsaglia's xorshift on 32 bits: every number but 0 comes once in a round of 2^32 - 1.
pub fn turn(x: u32) -> u32 {
    let a = x ^ x << 13;
    let b = a ^ a >> 17;
    b ^ b << 5
}

fn low(x: u32) -> u8 {
    (x % 256) as u8
}

fn record_of(op: u8, a: u32, b: u32) -> Record {
    [op, low(a), low(b), 0, 0, 0, 0, 0]
}

fn write_of(port: u32, data: u32) -> Record {
    record_of(1, port, data)
}

fn read_of(port: u32) -> Record {
    record_of(2, port, 0)
}

fn lines_of(group: u32, levels: u32) -> Record {
    record_of(3, group, levels)
}

const RESET: Record = [0; 8];

const ACKNOWLEDGE: Record = [4, 0, 0, 0, 0, 0, 0, 0];

// x where the draw is a multiple of n, else 0.
fn seldom(draw: u32, n: u32, x: u32) -> u32 {
    if draw % (n % 256 + 1) == 0 { x } else { 0 }
}

// Single records.

// Mostly 1 to 12 pulses, or up to 255; now and then many, nearly as many as a record may ask for, or one more than that.
fn advance(y: u32) -> Record {
    let few = if y / 16 % 8 == 0 { y / 256 } else { y % 12 + 1 };
    match y / 16 % 512 {
        0 => [5, 0, 0, 0, low(few), low(y / 65536), 0, 0],
        1 => [5, 0, 0, 0, 0, 0, 1, 0],
        2 => [5, 0, 0, 0, low(255 - y % 16), 255, 0, 0],
        _ => [5, 0, 0, 0, low(few), 0, 0, 0],
    }
}

// The device's two bytes are any, also where no word moves.
fn cycle(y: u32) -> Record {
    let mut record = record_of(6, seldom(y, 13, 1), y / 256);
    record[3] = low(y / 65536);
    record
}

// One in 32 records of lines has a level that its group lacks.
fn stray(y: u32, level: u32) -> u32 {
    seldom(y / 65536, 31, level)
}

// PFCW and MCW, each command twice or once: PFCW with levels, MCW now and then with POL, with D7 and with EXCN.
const COMMANDS: [u32; 16] = [
    0x20, 0x20, 0x60, 0x60, 0xA0, 0xA0, 0xE0, 0xC0, 0x80, 0x80, 0x00, 0x40, 0x0A, 0x0B, 0x48, 0x68,
];

fn command(port: u32, y: u32) -> Record {
    let word = COMMANDS[y as usize % 16];
    let also = seldom(y / 256, 11, 4) | seldom(y / 4096, 3, 0x80) | seldom(y / 16384, 3, 0x20);
    write_of(port, word | if word % 16 == 0 { y / 256 % 8 } else { also })
}

fn mask(y: u32) -> Record {
    write_of(1, y & y >> 8 & y >> 16)
}

// Small counts, 1 and 0 among them.
const COUNTS: [u32; 8] = [1, 2, 3, 1, 0, 5, 1, 4];

fn small_count(y: u32) -> u32 {
    COUNTS[y as usize % 8]
}

// The weights, in sixty-fourths. The last is a reset, or seven times in eight an acknowledge.
fn single(x: u32, y: u32) -> Record {
    match x % 64 {
        0..=9 => advance(y),
        10..=19 => cycle(y),
        20..=25 => lines_of(0, y & y >> 8 & 0xFE | stray(y, 1)),
        26..=28 => lines_of(1, (y | y >> 8) % 8 | stray(y, 8)),
        29..=31 => lines_of(2, y % 16 & y >> 8 | stray(y, 16)),
        32..=39 => ACKNOWLEDGE,
        40..=45 => command(0, y),
        46..=47 => read_of(y % 2),
        48 => mask(y),
        49..=52 => read_of(0x10 + y % 3),
        53 => write_of(0x13, y % 4 * 64 + y / 256 % 16),
        54..=56 => write_of(0x10 + y % 3, small_count(y / 256)),
        57..=59 => read_of(0x21 + y % 15),
        60 => write_of(0x20 + y % 16, y / 256),
        61 => write_of(y / 256 % 64, y / 65536),
        62 => read_of(y / 256 % 64),
        _ if y % 8 == 0 => RESET,
        _ => ACKNOWLEDGE,
    }
}

// The script of the interrupt chip: IW1, IW2, IW4 and a mask. Three in four announce IW4, one in four is level-triggered.

fn first_word(choice: u32) -> u32 {
    let bits = choice & 0xE4;
    bits | 0x12 | seldom(choice / 256, 3, 8) | u32::from(choice / 1024 % 4 != 0)
}

impl Maker {
    fn icu_record(&self, y: u32) -> Record {
        match self.step {
            0 => write_of(0, first_word(self.choice)),
            1..=2 => write_of(1, y),
            _ => mask(y),
        }
    }
}

// The script of a counter: its mode word, then one or two bytes of a small count. Every code of a mode comes, those of modes 0 and 2 more often.

const MODE_BITS: [u32; 12] = [0, 4, 0xC, 4, 0, 4, 2, 6, 8, 0xA, 0xE, 4];

fn mode_word(choice: u32) -> u32 {
    choice % 3 * 64 + (choice / 4 % 3 + 1) * 16 | MODE_BITS[choice as usize / 64 % 12]
}

impl Maker {
    fn counter_record(&self, y: u32) -> Record {
        match self.step {
            0 => write_of(0x13, mode_word(self.choice)),
            1 => write_of(0x10 + self.choice % 3, small_count(y)),
            _ => write_of(0x10 + self.choice % 3, seldom(y, 7, y / 256 % 3)),
        }
    }
}

// The script of a counter that is run: a mode word of any code, the counter's gate low or high, a count, and then what may happen to a counter.

// Every second run is slow: its counts are 1 to 3 and its pulses come one by one, so that other records come between any two states of the counter.
fn is_slow(choice: u32) -> bool {
    choice / 65536 % 2 == 0
}

// D5-D4: a slow run has no count of a high byte alone.
fn run_format(choice: u32) -> u32 {
    if is_slow(choice) {
        choice / 4 % 2 * 2 + 1
    } else {
        choice / 4 % 3 + 1
    }
}

// Else one count in eight is any byte, the others are small.
fn run_count(choice: u32, y: u32) -> u32 {
    if is_slow(choice) {
        y % 3 + 1
    } else if y % 8 == 0 {
        y / 256
    } else {
        y / 8 % 8
    }
}

// All gates high, or this counter's low.
fn gate_of(counter: u32, high: bool) -> Record {
    lines_of(1, if high { 7 } else { 7 & !(1 << (counter % 3)) })
}

fn slow_happening(choice: u32, y: u32) -> Record {
    let counter = choice % 3;
    match y % 16 {
        0..=6 => [5, 0, 0, 0, 1, 0, 0, 0],
        7..=9 => gate_of(counter, false),
        10..=13 => gate_of(counter, true),
        14 => write_of(0x10 + counter, run_count(choice, y / 16)),
        _ => read_of(0x10 + counter),
    }
}

fn quick_happening(choice: u32, y: u32) -> Record {
    let counter = choice % 3;
    match y % 16 {
        0..=5 => advance(y / 16),
        6..=8 => gate_of(counter, false),
        9..=11 => gate_of(counter, true),
        12..=13 => write_of(0x10 + counter, run_count(choice, y / 16)),
        14 => write_of(0x13, counter * 64),
        _ => read_of(0x10 + counter),
    }
}

fn happening(choice: u32, y: u32) -> Record {
    if is_slow(choice) {
        slow_happening(choice, y)
    } else {
        quick_happening(choice, y)
    }
}

// The second byte of a count, where the format has one.
fn second_byte(choice: u32, y: u32) -> Record {
    if run_format(choice) == 3 {
        return write_of(0x10 + choice % 3, seldom(y, 7, y / 256 % 3));
    }
    happening(choice, y)
}

impl Maker {
    fn run_record(&self, y: u32) -> Record {
        let counter = self.choice % 3;
        match self.step {
            0 => write_of(
                0x13,
                counter * 64 + run_format(self.choice) % 4 * 16 + self.choice / 64 % 8 * 2,
            ),
            1 => gate_of(counter, y % 2 == 0),
            2 => write_of(0x10 + counter, run_count(self.choice, y)),
            3 => second_byte(self.choice, y),
            _ => happening(self.choice, y),
        }
    }
}

// The script of a channel: the bus, its registers, its request, and some cycles.

// The bus is to be narrow once in four, which is refused while a channel's mode is by words.
fn bus(y: u32) -> Record {
    write_of(0x20, y & 0xFC | if y / 256 % 4 == 0 { 0 } else { 2 })
}

const CONTROLS: [u32; 8] = [0x00, 0x10, 0x10, 0x10, 0x00, 0x10, 0x04, 0x14];

// From two places below 0 to five above it, from six below it to one above, or, one in two, within four of the memory's end.
fn address_of(choice: u32, memory: u32) -> u32 {
    let near = choice / 64 % 8 + 16777212;
    match choice / 16 % 4 {
        0 => (near + 2) % 16777216,
        1 => (near - 2) % 16777216,
        _ => (near + memory % 16777216) % 16777216,
    }
}

fn channel_mode(y: u32) -> u32 {
    let by_words = u32::from(y / 16777216 % 3 > 0);
    y % 3 * 64 + y / 256 % 4 * 16 + (y / 65536 % 8 + 1) % 3 * 4 + by_words
}

impl Maker {
    fn channel_record(&self, y: u32) -> Record {
        let address = address_of(self.choice, self.memory);
        match self.step {
            0 => bus(y),
            1 => write_of(0x21, self.choice % 4 | seldom(self.choice / 1024, 5, 4)),
            2 => write_of(0x22, y % 6),
            3 => write_of(0x23, seldom(y, 15, y / 256 % 2 * 255)),
            4 => write_of(0x24, address),
            5 => write_of(0x25, address / 256),
            6 => write_of(0x26, address / 65536),
            7 => write_of(0x2A, channel_mode(y)),
            8 => write_of(0x28, CONTROLS[y as usize % 8]),
            9 => write_of(0x2F, y & y >> 8 & y >> 16 & 15),
            10 => lines_of(2, (y & y >> 8) % 16 | 1 << (self.choice % 4)),
            _ => cycle(y),
        }
    }
}

// The script of a reset: register 0 with D0 set, and any D1; some registers read; a channel selected, base or not, and one of its numbers read.

impl Maker {
    fn reset_record(&self, y: u32) -> Record {
        match self.step {
            0 => write_of(0x20, y & 0xFE | 1),
            3 => write_of(0x21, self.choice / 4 % 8),
            4 => read_of(0x22 + y % 5),
            _ => read_of(0x21 + y % 15),
        }
    }
}

// The script of reads: a latch, pulses, a byte, another latch or a byte, and two bytes.

impl Maker {
    fn read_record(&self, y: u32) -> Record {
        match self.step {
            0 => write_of(0x13, self.choice % 3 * 64 + y % 16),
            1 => advance(y),
            3 if self.choice / 4 % 2 == 0 => write_of(0x13, self.choice % 3 * 64 + y % 16),
            _ => read_of(0x10 + self.choice % 3),
        }
    }
}

// The script of both interrupt chips: the bus is freed; the master is set up, and then the slave; then come 24 to 54 records of what may happen to the
// two. In the end the slave is left single or not ready, and the master single, for the records that come after.

// What the two are set up as, sixteen times the master and the slave: 0 not ready, 1 single, 2 extended; 100H where one is to be in vector mode and the
// other in CALL mode.
fn setup(choice: u32) -> u32 {
    match choice % 32 {
        0..=21 => 0x22,
        22..=24 => 0x122,
        25..=26 => 0x11,
        27 => 0x21,
        28 => 0x12,
        29 => 0x20,
        30 => 0x10,
        _ => 0x02,
    }
}

// IW3, as each chip takes it.
const MASTER_WORD: u32 = 0x80;

const SLAVE_WORD: u32 = 0x07;

// What is drawn for one of the two chips.
#[derive(Clone, Copy)]
struct Chip {
    // The port that has A0=0; with its lowest bit it has A0=1.
    port: u32,
    // 0 not ready, 1 single, 2 extended.
    kind: u32,
    is_vector: bool,
    // IW3 that is right for it, and the other chip's.
    third_word: u32,
    other_word: u32,
    // The bits of the draw that are the chip's own.
    own: u32,
}

impl Chip {
    fn master(choice: u32) -> Chip {
        Chip {
            port: 0,
            kind: setup(choice) / 16 % 16,
            is_vector: choice / 32 % 2 == 1,
            third_word: MASTER_WORD,
            other_word: SLAVE_WORD,
            own: choice / 256 % 256,
        }
    }

    fn slave(choice: u32) -> Chip {
        Chip {
            port: 0x30,
            kind: setup(choice) % 16,
            is_vector: (choice / 32 ^ setup(choice) / 256) % 2 == 1,
            third_word: SLAVE_WORD,
            other_word: MASTER_WORD,
            own: choice / 65536 % 256,
        }
    }

    fn announces(self) -> bool {
        self.is_vector || self.own / 16 % 4 > 0
    }

    // IW1: three in eight are level-triggered.
    fn first_word(self, y: u32) -> u32 {
        let level = if self.own % 8 < 3 { 8 } else { 0 };
        let single = if self.kind == 1 { 2 } else { 0 };
        y & 0xE4 | 0x10 | level | single | u32::from(self.announces())
    }

    // An IW3 that is wrong: mostly the other chip's, or the right one with a bit turned over.
    fn wrong_word(self, y: u32) -> u32 {
        match y / 64 % 4 {
            0 => self.other_word,
            1 => y / 256,
            _ => self.third_word ^ 1 << (y % 8),
        }
    }

    // A chip that is to be left not ready gets wrong words alone for IW3.
    fn gets_wrong_word(self) -> bool {
        self.kind == 0 || self.kind == 2 && self.own / 64 == 0
    }

    // The last word of a chip that is to be ready: IW4, or a mask.
    fn last_word(self, y: u32) -> u32 {
        if self.announces() {
            let sfi = self.own / 8 % 2 * 2;
            y & 0xFC | sfi | u32::from(self.is_vector)
        } else {
            y & y >> 8 & y >> 16
        }
    }

    // Its seven steps: now and then an IW1 and a word that come to nothing, IW1, IW2, now and then a wrong IW3, IW3, and the last word. Where one is
    // left out the slave's lines come instead.
    fn set_up(self, step: u32, again: bool, y: u32) -> Record {
        match step {
            0 if again => write_of(self.port, y | 0x10),
            1 if again => write_of(self.port | 1, y / 256),
            2 => write_of(self.port, self.first_word(y)),
            3 => write_of(self.port | 1, y),
            4 if self.gets_wrong_word() => write_of(self.port | 1, self.wrong_word(y)),
            5 if self.kind == 2 => write_of(self.port | 1, self.third_word),
            0 | 1 | 4 | 5 => slave_lines(y),
            _ if self.kind == 0 => write_of(self.port | 1, self.wrong_word(y)),
            _ => write_of(self.port | 1, self.last_word(y)),
        }
    }
}

// All low, all high, or some; seldom of a group that is none.
fn slave_lines(y: u32) -> Record {
    match y % 4 {
        0 => lines_of(3, 0),
        1 => lines_of(3, 255),
        _ => lines_of(if y / 4 % 32 == 0 { 4 } else { 3 }, y / 256 & y / 65536),
    }
}

fn slave_mask(y: u32) -> Record {
    match y % 4 {
        0 => write_of(0x31, 255),
        1 => write_of(0x31, y / 256 | y / 65536),
        _ => write_of(0x31, y / 256 & y / 65536),
    }
}

// The master's order: rotation in self-FI, or a level made lowest, often level 6, so that 7 ranks first.
fn rotation(y: u32) -> Record {
    match y % 4 {
        0..=1 => write_of(0, 0x80),
        2 => write_of(0, 0xC6),
        _ => write_of(0, 0xC0 + y / 256 % 8),
    }
}

// A finish of the master: what it has in service blocks the slave.
fn master_finish(y: u32) -> Record {
    write_of(0, if y % 4 == 0 { 0x67 } else { 0x20 })
}

// The slave made idle, mostly: all masked, or its lines low.
fn idling(y: u32) -> Record {
    match y % 4 {
        0..=1 => write_of(0x31, 255),
        2 => lines_of(3, 0),
        _ => read_of(0x30),
    }
}

// INTP7 and, now and then, others of the master's lines.
fn master_lines(seventh: u32, y: u32) -> Record {
    lines_of(0, seventh | y & y >> 8 & y >> 16 & 0x7E)
}

// A round of the two: the slave asks, is acknowledged and finished; it is made idle, and INTP7 asks in its place; then it asks again, by all its lines.
fn in_turn(turn: u32, y: u32) -> Record {
    let every = lines_of(3, 255);
    match turn {
        0 if y % 2 == 0 => every,
        0 => lines_of(3, y / 256 | y / 65536),
        2 if y / 16 % 2 == 0 => write_of(0, 0x20),
        3 if y / 16 % 2 == 0 => command(0x30, y),
        3 => every,
        5 => master_finish(y),
        6 => idling(y),
        7 => master_lines(0x80, y),
        9 => master_lines(0, y),
        10 if y / 16 % 4 == 0 => read_of(0x30),
        10 => master_finish(y),
        11 => write_of(0x31, y & y >> 8 & y >> 16),
        12 => every,
        14 => master_finish(y),
        _ => ACKNOWLEDGE,
    }
}

fn joined_happening(turn: u32, y: u32) -> Record {
    let z = y / 32;
    match y % 32 {
        0..=18 => in_turn(turn, z),
        19 => slave_lines(z),
        20..=22 => ACKNOWLEDGE,
        23 => command(0x30, z),
        24 => command(0, z),
        25 => slave_mask(z),
        26 => read_of(0x30 + z % 2),
        27 => lines_of(0, z & 0xFE),
        28 => write_of(0x30, 0x20),
        29 => write_of(0, 0x20),
        30 => write_of(z % 2 * 0x30, 0x0A + z / 2 % 2),
        _ if z % 4 == 0 => write_of(0x30, z / 16 | 0x10),
        _ => write_of(0x30, 0x20),
    }
}

// The last five: IW1 and a word for the slave, and the initializing words of a single master.
fn closing(step: u32, choice: u32, y: u32) -> Record {
    match step {
        0 => write_of(
            0x30,
            if choice / 268435456 % 4 == 0 {
                0x12
            } else {
                0x10
            } | y & 0xEC,
        ),
        1 => write_of(0x31, y),
        2 => write_of(0, first_word(y)),
        _ => write_of(1, y),
    }
}

fn happenings(choice: u32) -> u32
    ensures { result < 64 }
{
    choice / 16777216 % 16 * 2 + 24
}

impl Maker {
    fn joined_record(&self, y: u32) -> Record {
        let last = happenings(self.choice) + 19;
        if self.step >= last {
            return closing(self.step - last, self.choice, y);
        }
        let again = self.choice / 64 % 4 == 0;
        match self.step {
            0 => lines_of(2, 0),
            1 => record_of(6, 1, y),
            2..=8 => Chip::master(self.choice).set_up(self.step - 2, again, y),
            9..=15 => Chip::slave(self.choice).set_up(self.step - 9, again, y),
            16 => rotation(y),
            17 => write_of(0x30, if y % 8 > 0 { 0x80 } else { 0xC0 + y / 256 % 8 }),
            18 => write_of(
                1,
                if y % 2 == 0 {
                    0x7F
                } else {
                    y & y >> 8 & y >> 16
                },
            ),
            _ => joined_happening((self.step % 16 + 13) % 16, y),
        }
    }
}

// Which script begins, if any, at this draw. One channel in five comes after a reset.
fn begun(x: u32) -> Option<Script> {
    match x / 64 % 64 {
        0..=1 => Some(Script::Icu),
        2..=7 | 17 => Some(Script::Counter),
        8..=10 | 18 if x / 16777216 % 5 == 0 => Some(Script::Reset),
        8..=10 | 18 => Some(Script::Channel),
        11..=12 => Some(Script::Reads),
        13..=15 => Some(Script::Run),
        16 => Some(Script::BothChips),
        _ => None,
    }
}

impl Script {
    fn steps(self, choice: u32) -> u32 {
        match self {
            Script::Icu => 4,
            Script::Counter => if choice / 4 % 3 == 2 { 3 } else { 2 },
            Script::Channel => choice / 4096 % 12 + 14,
            Script::Reads => 6,
            Script::Reset => 5,
            Script::Run => choice / 4096 % 16 + 6,
            Script::BothChips => happenings(choice) + 24,
        }
    }

    // What comes after it: after a reset, a channel.
    fn next(self) -> Option<Script> {
        if self == Script::Reset {
            Some(Script::Channel)
        } else {
            None
        }
    }
}

impl Maker {
    // A maker for each seed; 0 and 1 make the same tape.
    pub fn new(seed: u32, memory: u32) -> Maker {
        Maker {
            seed: turn(turn(turn(seed.max(1)))),
            script: None,
            step: 0,
            choice: 0,
            memory,
        }
    }

    // The next record. One in four of a script's records is a single one instead, and one record in thirty-two has a byte changed.
    pub fn next_record(&mut self) -> Record {
        let x = turn(self.seed);
        let z = turn(x);
        let y = turn(z);
        self.seed = y;
        // A script may begin where none is under way.
        if self.script.is_none() {
            self.script = begun(x);
            self.step = 0;
            self.choice = z;
        }
        let mut record = match self.script {
            Some(script) if x / 4096 % 4 != 0 => self.script_record(script, y),
            _ => single(x, y),
        };
        if x / 65536 % 32 == 0 {
            record[x as usize / 2097152 % 8] = low(y / 131072);
        }
        record
    }

    // The next record of the script.
    fn script_record(&mut self, script: Script, y: u32) -> Record {
        let record = match script {
            Script::Icu => self.icu_record(y),
            Script::Counter => self.counter_record(y),
            Script::Channel => self.channel_record(y),
            Script::Reads => self.read_record(y),
            Script::Reset => self.reset_record(y),
            Script::Run => self.run_record(y),
            Script::BothChips => self.joined_record(y),
        };
        self.step = self.step % 256 + 1;
        if self.step >= script.steps(self.choice) {
            self.script = script.next();
            self.step = 0;
        }
        record
    }
}
