// The board of document 01, with the timer's six modes, with edge requests that a fall withdraws, with a slave chip on line 7, with units that say
// where they fell outside the memory and with words, a second time: written from the documents alone and held against the first by running both on the
// same tapes.
//
// The whole board is one array of 112 numbers, which functions take and give back by value. What a record may be is read off tables, every refusal
// is decided before anything changes, and an advance is worked out by division, with no loop over its pulses.
#![tactic(auto)]

ghost use Rattle.std.specs.Prelude.{◌<◌};

#[derive(Clone, Copy, PartialEq, Eq)]
pub struct State(pub [u32; 112]);

// The interrupt chips: the master has the sixteen places from 0 on, the slave those from 96 on. Of them eleven are used.
const MASTER: usize = 0;

const SLAVE: usize = 96;

// 0 before the first IW1, 1 when IW2 is awaited, 2 when IW4 is awaited, 3 when ready, 4 when IW3 is awaited.
const STAGE: usize = 0;
// IW1, IW2 and IW4 as they were written. (IW3 has one value for each chip.)
const IW1: usize = 1;

const IW2: usize = 2;

const IW4: usize = 3;
// 1 while rotation in self-FI is on.
const TURNS: usize = 4;
// The level that ranks last.
const LOWEST: usize = 5;

const IMR: usize = 6;

const ISR: usize = 7;
// The requests of edge trigger: lines that have risen, are high still and were not acknowledged.
const EDGES: usize = 8;
// 0 when IRR is read at A0=0, 1 when ISR is.
const SHOWN: usize = 9;
// The lines of the chip's own group. The master has INTP1 to INTP7, in bits 1 to 7: its line 0 is OUT0, and the slave's INT is joined to line 7.
const INTP: usize = 10;

// The timer: counter c has the sixteen places from 16 + 16c on.

// 0 no mode, else the mode plus 1.
const MODE: usize = 0;
// 1 low byte, 2 high byte, 3 both.
const FORMAT: usize = 1;

const VALUE: usize = 2;

const OUT: usize = 3;

const GATE: usize = 4;
// The last complete count, and whether there is one since the mode word.
const COUNT: usize = 5;

const COMPLETE: usize = 6;
// 1 while the count has yet to be transferred, by a pulse or, in modes 1 and 5, by the first trigger.
const WAITING: usize = 7;

const TRIGGER: usize = 8;
// A first byte of two, and whether one has been written.
const HALF: usize = 9;

const HALVED: usize = 10;
// 1 when the next byte read is the second of two.
const PLACE: usize = 11;

const LATCH: usize = 12;

const LATCHED: usize = 13;
// 1 when a count has been transferred since the mode word.
const LOADED: usize = 14;
// In mode 3, 1 when the count that runs is odd.
const ODD: usize = 15;

// The DMA chip: places 64 to 71, then five for each channel, and one more.
const SELECTED: usize = 64;

const BASE: usize = 65;
// Register 8: D4 rotate, D2 disable.
const CONTROL: usize = 66;

const REQUESTS: usize = 67;

const ENDS: usize = 68;

const MASKS: usize = 69;
// The channel that ranks first.
const FIRST: usize = 70;
// 0 idle, else the channel served plus 1.
const SERVED: usize = 71;
// 1 while the bus is 16 bits wide: D1 of register 0.
const BUS: usize = 92;

// A channel's places: base and current stand two apart.
const BASE_COUNT: usize = 0;

const BASE_ADDRESS: usize = 1;

const CURRENT_COUNT: usize = 2;

const CURRENT_ADDRESS: usize = 3;

const CHANNEL_MODE: usize = 4;

// What a record may be. For each operation: what bytes 0 to 3, and bytes 4 to 7, may have other than zero. (An advance over 65,535 pulses has byte 6
// or 7 set.)
const USED_LOW: [u32; 8] = [0xFF, 0xFFFFFF, 0xFFFF, 0xFFFFFF, 0xFF, 0xFF, 0xFFFFFFFF, 0];

const USED_HIGH: [u32; 8] = [0, 0, 0, 0, 0, 0xFFFF, 0, 0];
// For each high nibble of a port: bit i is set where the port with low nibble i is open to a write, or to a read.
const WRITABLE: [u32; 16] = [
    0x0003, 0x000F, 0xF77F, 0x0003, 0, 0, 0, 0, 0, 0, 0, 0, 0, 0, 0, 0,
];

const READABLE: [u32; 16] = [
    0x0003, 0x0007, 0xFF7E, 0x0003, 0, 0, 0, 0, 0, 0, 0, 0, 0, 0, 0, 0,
];
// For each group of lines: the bits that it has.
const GROUP: [u32; 4] = [0xFE, 0x07, 0x0F, 0xFF];
// For D3-D1 of a mode word: the mode plus 1.
const MODES: [u32; 8] = [1, 2, 3, 4, 5, 6, 3, 4];
// Sets of modes: bit m + 1 is set where mode m belongs to the set.

// 0 and 4: a pulse transfers every complete count, and not only the first.
const RESTARTED: u32 = 0x22;
// 1 and 5: nothing but a trigger transfers, and the level of GATE means nothing.
const SHOT: u32 = 0x44;
// 2 and 3: a count of 1 is refused, and a fall of GATE sets OUT high.
const PERIODIC: u32 = 0x18;
// 1, 2, 3 and 5: a rise of GATE is a trigger.
const TRIGGERED: u32 = 0x5C;
// 4 and 5: OUT is low for one pulse at a time.
const STROBED: u32 = 0x60;
// For each DMA register: the bits of a written byte that are not built. 100H marks a register no use of which is built.
const UNBUILT: [u32; 16] = [
    0, 0, 0, 0, 0, 0, 0, 0, 0xEB, 0xFF, 0x02, 0, 0x100, 0x100, 0x100, 0,
];

// Small helpers.

fn narrow(x: u32) -> u8 {
    (x % 256) as u8
}

// Bit n of x, as 0 or 1.
fn bit(x: u32, n: u32) -> u32
    ensures { result < 2 }
{
    (x >> (n % 32)) % 2
}

fn has(x: u32, n: u32) -> bool {
    bit(x, n) == 1
}

// The byte with only bit n set.
fn one(n: u32) -> u32 {
    1 << (n % 8)
}

// Four bytes, little end first.
fn word(a: u32, b: u32, c: u32, d: u32) -> u32 {
    u32::from_le_bytes([a, b, c, d].map(narrow))
}

impl State {
    fn get(self, at: usize) -> u32 {
        self.0[at % 112]
    }

    // The board with x at a place.
    fn with(mut self, at: usize, x: u32) -> State {
        self.0[at % 112] = x;
        self
    }

    // Field f of an interrupt chip.
    fn icu(self, at: usize, f: usize) -> u32 {
        self.get(of_icu(at, f))
    }

    fn with_icu(self, at: usize, f: usize, x: u32) -> State {
        self.with(of_icu(at, f), x)
    }

    // Field f of counter c.
    fn timer(self, c: u32, f: usize) -> u32 {
        self.get(of_counter(c, f))
    }

    fn with_timer(self, c: u32, f: usize, x: u32) -> State {
        self.with(of_counter(c, f), x)
    }

    // Field f of a channel.
    fn channel(self, channel: u32, f: usize) -> u32 {
        self.get(of_channel(channel, f))
    }

    fn with_channel(self, channel: u32, f: usize, x: u32) -> State {
        self.with(of_channel(channel, f), x)
    }
}

// Where field f of an interrupt chip stands.
fn of_icu(at: usize, f: usize) -> usize {
    at % 112 + f % 16
}

// Where field f of counter c stands.
fn of_counter(c: u32, f: usize) -> usize {
    (c % 3) as usize * 16 + 16 + f % 16
}

// Where field f of a channel stands.
fn of_channel(channel: u32, f: usize) -> usize {
    (channel % 4) as usize * 5 + 72 + f % 5
}

// Why a record is refused, by the status of its answer.
#[derive(Clone, Copy, PartialEq, Eq)]
enum Refusal {
    // a channel has the bus
    Busy = 1,
    NoRecord = 2,
    OutOfTurn = 3,
    Unbuilt = 4,
    // a count of 1 in mode 2 or 3
    CountOfOne = 6,
}

impl Refusal {
    fn when(self, wrong: bool) -> Result<(), Refusal> {
        if wrong { Err(self) } else { Ok(()) }
    }
}

// What a record that is taken leaves: the board, the answer's data and its payload in three words, and 1 where OUT0 rose within an advance.
#[derive(Clone, Copy)]
struct Effect {
    s: State,
    data: u32,
    first: u32,
    second: u32,
    third: u32,
    rose: u32,
}

impl Effect {
    // The answer has data and no payload.
    fn with_data(s: State, data: u32) -> Effect {
        Effect {
            s,
            data,
            first: 0,
            second: 0,
            third: 0,
            rose: 0,
        }
    }
}

// Reset. Only what is not zero needs saying: level 7 lowest, gates high, channels masked.
pub fn second_reset() -> State {
    State([0; 112])
        .with_icu(MASTER, LOWEST, 7)
        .with_icu(SLAVE, LOWEST, 7)
        .with(MASKS, 15)
        .with_timer(0, GATE, 1)
        .with_timer(1, GATE, 1)
        .with_timer(2, GATE, 1)
}

// What the tables say of a record: is it one at all?

fn open_to_write(port: u32) -> bool {
    has(WRITABLE[(port / 16 % 16) as usize], port % 16)
}

fn open_to_read(port: u32) -> bool {
    has(READABLE[(port / 16 % 16) as usize], port % 16)
}

fn known_lines(group: u32, levels: u32) -> bool {
    let row = group as usize % 4;
    (group < 4) & (levels & !GROUP[row] == 0)
}

// A record: its bytes 0 to 3 and 4 to 7 as words, little end first, and bytes 0 to 2 by themselves.
#[derive(Clone, Copy)]
struct Record {
    low: u32,
    high: u32,
    op: u32,
    x: u32,
    y: u32,
}

impl Record {
    fn of(low: u32, high: u32) -> Record {
        let [op, x, y, _] = low.to_le_bytes().map(u32::from);
        Record {
            low,
            high,
            op,
            x,
            y,
        }
    }

    // Ports, lines and END, where the record has them.
    fn operands_known(self) -> bool {
        match self.op {
            1 => open_to_write(self.x),
            2 => open_to_read(self.x),
            3 => known_lines(self.x, self.y),
            6 => self.x < 2,
            _ => self.op < 7,
        }
    }

    // The test of status 2, on the record's bytes alone.
    fn is_well_made(self) -> bool {
        let row = self.op as usize % 8;
        let unused = self.low & !USED_LOW[row] | self.high & !USED_HIGH[row];
        (unused == 0) & self.operands_known()
    }
}

// An interrupt chip. `at` is the chip; where a rule asks for its lines, they are given.

// In level trigger (D3 of IW1) the lines are the requests.
fn irr(s: State, at: usize, lines: u32) -> u32 {
    if has(s.icu(at, IW1), 3) {
        lines % 256
    } else {
        s.icu(at, EDGES) % 256
    }
}

// The rank of the best level of a set, 0 for the first, 8 where the set is empty. The set is turned so that the first rank is bit 0; every bit
// then spreads upwards, and the zeros that are left are the ranks before the best. (The first board counts zeros from below.)
fn best_rank(levels: u32, lowest: u32) -> u32 {
    let twice = levels % 256 * 257;
    let turned = (twice >> (lowest % 8 + 1)) % 256;
    let two = turned | turned << 1;
    let four = two | two << 2;
    let eight = four | four << 4;
    (!eight & 255).count_ones()
}

fn level_at(rank: u32, lowest: u32) -> u32 {
    (rank % 8 + lowest % 8 + 1) % 8
}

fn request_rank(s: State, at: usize, lines: u32) -> u32 {
    best_rank(irr(s, at, lines) & !s.icu(at, IMR), s.icu(at, LOWEST))
}

fn ready(s: State, at: usize) -> bool {
    s.icu(at, STAGE) == 3
}

fn int(s: State, at: usize, lines: u32) -> bool {
    let serving = best_rank(s.icu(at, ISR), s.icu(at, LOWEST));
    ready(s, at) & (request_rank(s, at, lines) < serving)
}

// The two chips' lines.

fn slave_lines(s: State) -> u32 {
    s.icu(SLAVE, INTP) % 256
}

fn slave_int(s: State) -> bool {
    int(s, SLAVE, slave_lines(s))
}

// OUT0, INTP1 to INTP6, and INTP7 or the slave's INT.
fn master_lines(s: State) -> u32 {
    s.icu(MASTER, INTP) & 0xFE | s.timer(0, OUT) % 2 | u32::from(slave_int(s)) * 128
}

fn lines(s: State, at: usize) -> u32 {
    if at == SLAVE {
        return slave_lines(s);
    }
    master_lines(s)
}

// The INT that the CPU sees.
fn master_int(s: State) -> bool {
    int(s, MASTER, master_lines(s))
}

// Whether a chip looks for edges: it is ready, and not level-triggered.
fn sees_edges(s: State, at: usize) -> bool {
    ready(s, at) & !has(s.icu(at, IW1), 3)
}

// Takes in what a chip's lines did during a record: a rise asks, a fall withdraws. `also` has bit 0 set where OUT0 rose on the way. The last change
// counts: a line that is low now has fallen since it asked, if it ever did.
fn take_edges(s: State, at: usize, before: u32, also: u32) -> State {
    let now = lines(s, at);
    let edges = s.icu(at, EDGES);
    let rose = now & !before | also;
    let asking = (edges | rose) & now;
    s.with_icu(at, EDGES, if sees_edges(s, at) { asking } else { edges })
}

// Both chips, after a record from board s on. The slave comes first: its INT is the master's line 7, which moves once at most.
fn follow(next: State, s: State, also: u32) -> State {
    let settled = take_edges(next, SLAVE, slave_lines(s), 0);
    take_edges(settled, MASTER, master_lines(s), also)
}

// The one IW3 of each chip: a slave on the master's line 7, and slave number 7.
fn third_word(at: usize) -> u32 {
    if at == SLAVE { 0x07 } else { 0x80 }
}

// A0=1: out of turn before the first IW1, and a wrong IW3 is not built.
fn second_port_status(s: State, at: usize, b: u32) -> Result<(), Refusal> {
    match s.icu(at, STAGE) {
        0 => Err(Refusal::OutOfTurn),
        4 => Refusal::Unbuilt.when(b != third_word(at)),
        _ => Ok(()),
    }
}

fn icu_write_status(s: State, at: usize, a0: u32, b: u32) -> Result<(), Refusal> {
    if a0 == 1 {
        return second_port_status(s, at, b);
    }
    if has(b, 4) {
        return Ok(());
    }
    Refusal::OutOfTurn.when(!ready(s, at))?;
    Refusal::Unbuilt.when(has(b, 3) & (has(b, 2) | (b & 0x60 == 0x60)))
}

fn first_word(s: State, at: usize, b: u32) -> State {
    s.with_icu(at, STAGE, 1)
        .with_icu(at, IW1, b)
        .with_icu(at, IW4, 0)
        .with_icu(at, TURNS, 0)
        .with_icu(at, LOWEST, 7)
        .with_icu(at, IMR, 0)
        .with_icu(at, ISR, 0)
        .with_icu(at, EDGES, 0)
        .with_icu(at, SHOWN, 0)
}

// What follows the words that every chip of its kind has: IW4 where IW1 announced it (D0), else nothing.
fn after_words(s: State, at: usize) -> u32 {
    3 - bit(s.icu(at, IW1), 0)
}

// A0=1: IW2, IW3, IW4 or the mask, by what is awaited. An extended chip (D1 of IW1 is 0) has IW3 after IW2.
fn second_port(s: State, at: usize, b: u32) -> State {
    let stage = s.icu(at, STAGE);
    let extended = !has(s.icu(at, IW1), 1);
    let after = after_words(s, at);
    match stage {
        1 => s
            .with_icu(at, IW2, b)
            .with_icu(at, STAGE, if extended { 4 } else { after }),
        2 => s.with_icu(at, IW4, b % 4).with_icu(at, STAGE, 3),
        4 => s.with_icu(at, STAGE, after),
        _ => s.with_icu(at, IMR, b),
    }
}

// PFCW: the level that it is about, if any.
fn finish_level(s: State, at: usize, b: u32) -> Option<u32> {
    if has(b, 6) {
        return Some(b % 8);
    }
    let lowest = s.icu(at, LOWEST);
    let rank = best_rank(s.icu(at, ISR), lowest);
    (rank < 8).then_some(level_at(rank, lowest))
}

// PFCW. D5 (FI) clears the level's bit of ISR, D7 (RP) makes it lowest. With FI and SIL both 0 it is the switch of rotation in self-FI instead.
fn finish_word(s: State, at: usize, b: u32) -> State {
    if b & 0x60 == 0 {
        return s.with_icu(at, TURNS, bit(b, 7));
    }
    let Some(level) = finish_level(s, at, b) else {
        return s;
    };
    let isr = s.icu(at, ISR);
    let left = if has(b, 5) { isr & !one(level) } else { isr };
    let lowest = if has(b, 7) { level } else { s.icu(at, LOWEST) };
    s.with_icu(at, ISR, left).with_icu(at, LOWEST, lowest)
}

fn icu_write(s: State, at: usize, a0: u32, b: u32) -> State {
    if a0 == 1 {
        return second_port(s, at, b);
    }
    if has(b, 4) {
        return first_word(s, at, b);
    }
    if has(b, 3) {
        let shown = if has(b, 1) {
            bit(b, 0)
        } else {
            s.icu(at, SHOWN)
        };
        return s.with_icu(at, SHOWN, shown);
    }
    finish_word(s, at, b)
}

fn icu_read(s: State, at: usize, a0: u32) -> u32 {
    if a0 == 1 {
        return s.icu(at, IMR);
    }
    if s.icu(at, SHOWN) == 1 {
        s.icu(at, ISR)
    } else {
        irr(s, at, lines(s, at))
    }
}

// The state's part of an acknowledge of level n.
fn accept(s: State, at: usize, n: u32) -> State {
    let taken = s.with_icu(at, EDGES, s.icu(at, EDGES) & !one(n));
    if has(s.icu(at, IW4), 1) {
        let lowest = if s.icu(at, TURNS) == 1 {
            n
        } else {
            s.icu(at, LOWEST)
        };
        return taken.with_icu(at, LOWEST, lowest);
    }
    taken.with_icu(at, ISR, s.icu(at, ISR) | one(n))
}

// What the CPU is handed for level n: its vector, or the bytes of its CALL.
fn hand_over(s: State, at: usize, n: u32) -> Effect {
    let iw1 = s.icu(at, IW1);
    let iw2 = s.icu(at, IW2);
    if has(s.icu(at, IW4), 0) {
        return Effect::with_data(s, iw2 & 0xF8 | n);
    }
    // The low byte of the CALL address.
    let low = if has(iw1, 2) {
        iw1 & 0xE0 | n % 8 * 4
    } else {
        iw1 & 0xC0 | n % 8 * 8
    };
    Effect {
        first: word(0xCD, low, iw2, 0),
        ..Effect::with_data(s, 0)
    }
}

// The level that asks with the best rank.
fn offered(s: State, at: usize) -> u32 {
    level_at(request_rank(s, at, lines(s, at)), s.icu(at, LOWEST))
}

// One chip answers by itself. With INT low it hands over level 7's, whatever ranks lowest, and nothing changes.
fn answer(s: State, at: usize) -> Effect {
    if !int(s, at, lines(s, at)) {
        return hand_over(s, at, 7);
    }
    let n = offered(s, at);
    hand_over(accept(s, at, n), at, n)
}

// What a chip is set up as.
#[derive(Clone, Copy, PartialEq, Eq)]
pub enum Scale {
    Unready,
    Single,
    ExtendedCall,
    ExtendedVector,
}

impl Scale {
    pub fn is_extended(self) -> bool {
        matches!(self, Scale::ExtendedCall | Scale::ExtendedVector)
    }
}

fn scale_of(s: State, at: usize) -> Scale {
    if !ready(s, at) {
        Scale::Unready
    } else if has(s.icu(at, IW1), 1) {
        Scale::Single
    } else if has(s.icu(at, IW4), 0) {
        Scale::ExtendedVector
    } else {
        Scale::ExtendedCall
    }
}

// Out of turn: the master is not ready, or a chip is extended and the other one is not the same.
fn acknowledge_status(s: State) -> Result<(), Refusal> {
    let master = scale_of(s, MASTER);
    let slave = scale_of(s, SLAVE);
    let extended = master.is_extended() | slave.is_extended();
    Refusal::OutOfTurn.when((master == Scale::Unready) | (extended & (master != slave)))
}

// Whether the master leaves the answer to the slave: it is extended and takes level 7.
fn passes_on(s: State) -> bool {
    let called = (offered(s, MASTER) == 7) & master_int(s);
    called & scale_of(s, MASTER).is_extended()
}

// The master's own step is that of any level.
fn acknowledge(s: State) -> Effect {
    if passes_on(s) {
        return answer(accept(s, MASTER, 7), SLAVE);
    }
    answer(s, MASTER)
}

// Why a chip's INT is low.
#[derive(Clone, Copy, PartialEq, Eq)]
pub enum Cause {
    // it is high, or the chip is not ready
    None,
    // IRR is zero
    NothingAsks,
    // all that asks is masked
    Masked,
    // no level that asks and is not masked outranks those in service
    Outranked,
}

fn cause_of(s: State, at: usize) -> Cause {
    let asking = irr(s, at, lines(s, at));
    if !ready(s, at) | int(s, at, lines(s, at)) {
        Cause::None
    } else if asking == 0 {
        Cause::NothingAsks
    } else if asking & !s.icu(at, IMR) == 0 {
        Cause::Masked
    } else {
        Cause::Outranked
    }
}

// What the duel counts by: the master's requests as they stand.
#[derive(Clone, Copy)]
pub struct Asking {
    // why INT is low
    pub cause: Cause,
    // the requests of edge trigger, and whether edges are looked for
    pub edges: u32,
    pub by_edge: bool,
    pub imr: u32,
    pub out0: bool,
}

pub fn who_asks(s: State) -> Asking {
    Asking {
        cause: cause_of(s, MASTER),
        edges: s.icu(MASTER, EDGES),
        by_edge: sees_edges(s, MASTER),
        imr: s.icu(MASTER, IMR),
        out0: s.timer(0, OUT) != 0,
    }
}

// And: both chips as they stand.
#[derive(Clone, Copy)]
pub struct Joined {
    // what each is set up as, and whether it awaits IW3
    pub master: Scale,
    pub slave: Scale,
    pub master_awaits: bool,
    pub slave_awaits: bool,
    // whether the master's INT is high, and the level that it then takes
    pub calls: bool,
    pub level: u32,
    // whether the slave's INT is high, and why it is low
    pub offers: bool,
    pub cause: Cause,
    // whether INTP7 is high, the slave's INT aside
    pub intp7: bool,
    pub by_edge: bool,
}

pub fn both_chips(s: State) -> Joined {
    Joined {
        master: scale_of(s, MASTER),
        slave: scale_of(s, SLAVE),
        master_awaits: s.icu(MASTER, STAGE) == 4,
        slave_awaits: s.icu(SLAVE, STAGE) == 4,
        calls: master_int(s),
        level: offered(s, MASTER),
        offers: slave_int(s),
        cause: cause_of(s, SLAVE),
        intp7: has(s.icu(MASTER, INTP), 7),
        by_edge: sees_edges(s, MASTER),
    }
}

// The timer.

// 1 to 65,536: how many steps down a 16-bit number is from 0.
fn steps(x: u32) -> u32
    ensures { (result < 65537) × (0 < result) }
{
    (x % 65536 + 65535) % 65536 + 1
}

// The count that this byte completes; none where it is the first of two.
fn completed(s: State, c: u32, b: u32) -> Option<u32> {
    let byte = b % 256;
    match s.timer(c, FORMAT) {
        1 => Some(byte),
        2 => Some(byte * 256),
        _ if s.timer(c, HALVED) == 1 => Some(byte * 256 + s.timer(c, HALF) % 256),
        _ => None,
    }
}

// For a mode word: the mode plus 1.
fn mode_of(b: u32) -> u32 {
    MODES[(b / 2 % 8) as usize]
}

fn control_status(s: State, b: u32) -> Result<(), Refusal> {
    let c = b / 64 % 4;
    Refusal::Unbuilt.when(c == 3)?;
    if b & 0x30 == 0 {
        return Refusal::OutOfTurn.when(s.timer(c, MODE) == 0);
    }
    Refusal::Unbuilt.when(has(b, 0))
}

fn timer_write_status(s: State, port: u32, b: u32) -> Result<(), Refusal> {
    if port == 3 {
        return control_status(s, b);
    }
    let mode = s.timer(port, MODE);
    Refusal::OutOfTurn.when(mode == 0)?;
    Refusal::CountOfOne.when(has(PERIODIC, mode) & (completed(s, port, b) == Some(1)))
}

fn latch(s: State, c: u32) -> State {
    if s.timer(c, LATCHED) == 1 {
        return s;
    }
    s.with_timer(c, LATCH, s.timer(c, VALUE))
        .with_timer(c, LATCHED, 1)
}

fn timer_mode_word(s: State, c: u32, b: u32) -> State {
    let mode = mode_of(b);
    s.with_timer(c, MODE, mode)
        .with_timer(c, FORMAT, b / 16 % 4)
        .with_timer(c, OUT, u32::from(mode != 1))
        .with_timer(c, COMPLETE, 0)
        .with_timer(c, WAITING, 0)
        .with_timer(c, TRIGGER, 0)
        .with_timer(c, HALVED, 0)
        .with_timer(c, PLACE, 0)
        .with_timer(c, LATCHED, 0)
        .with_timer(c, LOADED, 0)
}

fn complete(s: State, c: u32, count: u32) -> State {
    let at_once = has(RESTARTED, s.timer(c, MODE)) | (s.timer(c, COMPLETE) == 0);
    let waiting = if at_once { 1 } else { s.timer(c, WAITING) };
    let counted = s.with_timer(c, COUNT, count).with_timer(c, HALVED, 0);
    counted
        .with_timer(c, WAITING, waiting)
        .with_timer(c, COMPLETE, 1)
}

fn count_byte(s: State, c: u32, b: u32) -> State {
    let out = if s.timer(c, MODE) == 1 {
        0
    } else {
        s.timer(c, OUT)
    };
    let level = s.with_timer(c, OUT, out);
    match completed(s, c, b) {
        Some(count) => complete(level, c, count),
        None => level.with_timer(c, HALF, b % 256).with_timer(c, HALVED, 1),
    }
}

fn timer_write(s: State, port: u32, b: u32) -> State {
    if port < 3 {
        return count_byte(s, port, b);
    }
    if b & 0x30 == 0 {
        return latch(s, b / 64 % 4);
    }
    timer_mode_word(s, b / 64 % 4, b)
}

fn timer_read(s: State, c: u32) -> Effect {
    let count = if s.timer(c, LATCHED) == 1 {
        s.timer(c, LATCH)
    } else {
        s.timer(c, VALUE)
    };
    let format = s.timer(c, FORMAT);
    if (format == 3) & (s.timer(c, PLACE) != 1) {
        return Effect::with_data(s.with_timer(c, PLACE, 1), count % 256);
    }
    let free = s.with_timer(c, PLACE, 0).with_timer(c, LATCHED, 0);
    Effect::with_data(free, (if format == 1 { count } else { count / 256 }) % 256)
}

// n pulses of modes 0 and 1 with the count in place and counting: OUT goes high where the value passes 0.
fn run_down(s: State, c: u32, n: u32) -> (State, u32) {
    let left = steps(s.timer(c, VALUE));
    let pulses = n % 65536;
    let counted = s.with_timer(c, VALUE, (left + 65536 - pulses) % 65536);
    if pulses < left {
        return (counted, 0);
    }
    (
        counted.with_timer(c, OUT, 1),
        u32::from(s.timer(c, OUT) == 0),
    )
}

// n pulses of mode 2 with the count in place and counting. The value is back at the count after `left` pulses and then after each `whole`.
fn run_round(s: State, c: u32, n: u32) -> (State, u32) {
    let left = steps(s.timer(c, VALUE));
    let whole = steps(s.timer(c, COUNT));
    let pulses = n % 65536;
    if pulses == 0 {
        return (s, 0);
    }
    if pulses < left {
        let value = left - pulses;
        let out = if value == 1 { 0 } else { s.timer(c, OUT) };
        return (s.with_timer(c, VALUE, value).with_timer(c, OUT, out), 0);
    }
    let into = (pulses - left) % whole % 65536;
    let rounds = (pulses - left) / whole % 65536;
    // The value reaches 1, and OUT goes low, before each return to the count but perhaps the first.
    let first = u32::from((left > 1) | (s.timer(c, OUT) == 0));
    let counted = s.with_timer(c, VALUE, (whole + 65536 - into) % 65536);
    let next = counted.with_timer(c, OUT, u32::from((into + 1 != whole) | (into == 0)));
    (
        next,
        if whole == 1 {
            first
        } else {
            (rounds + first) % 65536
        },
    )
}

// How many pulses a half of mode 3 lasts from a value: the longer half of an odd count ends after 0, any other after 2. The lowest bit of the
// value is not looked at.
fn half(value: u32, longer: bool) -> u32
    ensures { (result < 32769) × (0 < result) }
{
    let pairs = value / 2 % 32768;
    if longer {
        return pairs + 1;
    }
    (pairs + 32767) % 32768 + 1
}

// A value of mode 3, from which a half begins or goes on, after some pulses of that half.
fn down_by_twos(value: u32, n: u32) -> u32 {
    (value / 2 % 32768 * 2 + 131072 - n % 65536 * 2) % 65536
}

// n pulses of mode 3 with the count in place and counting. A round is counted from where OUT rises: its high half, then its low half.
fn run_halves(s: State, c: u32, n: u32) -> (State, u32) {
    let out = s.timer(c, OUT);
    let left = half(s.timer(c, VALUE), (out == 1) & (s.timer(c, ODD) == 1));
    let pulses = n % 65536;
    if pulses < left {
        let value = down_by_twos(s.timer(c, VALUE), pulses);
        return (s.with_timer(c, VALUE, value), 0);
    }
    let count = s.timer(c, COUNT);
    let high = half(count, count % 2 == 1);
    let round = high + half(count, false);
    // The half that ran on has the parity of its own count. With its end begins a half of the last complete count.
    let since = pulses - left + (if out == 1 { high } else { 0 }) % 65536;
    let into = since % round;
    let rises = since / round % 65536 + u32::from(out == 0);
    let loaded = s.with_timer(c, ODD, count % 2);
    if into < high {
        let value = down_by_twos(count, into);
        return (
            loaded.with_timer(c, VALUE, value).with_timer(c, OUT, 1),
            rises,
        );
    }
    let value = down_by_twos(count, into - high);
    (
        loaded.with_timer(c, VALUE, value).with_timer(c, OUT, 0),
        rises,
    )
}

// n pulses of modes 4 and 5 with the count in place and counting. The first ends a strobe; another strobe lasts from the pulse that makes the value 0
// to the next.
fn run_to_strobe(s: State, c: u32, n: u32) -> (State, u32) {
    let left = steps(s.timer(c, VALUE));
    let pulses = n % 65536;
    if pulses == 0 {
        return (s, 0);
    }
    let ended = u32::from((s.timer(c, OUT) == 0) & (left > 1));
    let value = (left + 65536 - pulses) % 65536;
    let next = s
        .with_timer(c, VALUE, value)
        .with_timer(c, OUT, u32::from(pulses != left));
    (next, ended + u32::from(pulses > left))
}

// Whether a pulse that transfers nothing counts.
fn counts(s: State, c: u32) -> bool {
    let mode = s.timer(c, MODE);
    if has(SHOT, mode) {
        return s.timer(c, LOADED) == 1;
    }
    // Only mode 0 waits for the second byte of a count.
    (s.timer(c, GATE) == 1) & ((mode != 1) | (s.timer(c, HALVED) == 0))
}

// n pulses that don't count: the first ends a strobe all the same.
fn pass(s: State, c: u32, n: u32) -> (State, u32) {
    if has(STROBED, s.timer(c, MODE)) & (n > 0) {
        return (s.with_timer(c, OUT, 1), u32::from(s.timer(c, OUT) == 0));
    }
    (s, 0)
}

// n pulses with nothing to transfer but what mode 2 or 3 transfers at its own end.
fn run(s: State, c: u32, n: u32) -> (State, u32) {
    let mode = s.timer(c, MODE);
    if !counts(s, c) {
        return pass(s, c, n);
    }
    match mode {
        1 => run_down(s, c, n),
        2 => run_down(s, c, n),
        3 => run_round(s, c, n),
        4 => run_halves(s, c, n),
        _ => run_to_strobe(s, c, n),
    }
}

// Mode 3 counts by twos, from the count without its lowest bit.
fn transfer(s: State, c: u32) -> State {
    let count = s.timer(c, COUNT) % 65536;
    let value = if s.timer(c, MODE) == 4 {
        count / 2 * 2
    } else {
        count
    };
    s.with_timer(c, VALUE, value)
        .with_timer(c, ODD, count % 2)
        .with_timer(c, WAITING, 0)
        .with_timer(c, TRIGGER, 0)
        .with_timer(c, LOADED, 1)
}

// A pulse that transfers and leaves OUT as given, and n pulses after it.
fn restart(s: State, c: u32, out: u32, n: u32) -> (State, u32) {
    let (next, rises) = run(transfer(s, c).with_timer(c, OUT, out), c, n);
    (next, rises % 65536 + u32::from(out > s.timer(c, OUT)))
}

// n pulses of one counter, and how many made its OUT rise.
fn pulses(s: State, c: u32, n: u32) -> (State, u32) {
    let mode = s.timer(c, MODE);
    let left = n % 65536;
    if left == 0 {
        return (s, 0);
    }
    if s.timer(c, COMPLETE) == 0 {
        return (s, 0);
    }
    // The complete count itself: it ends a strobe of mode 4 and leaves OUT in the other modes.
    if (s.timer(c, WAITING) == 1) & !has(SHOT, mode) {
        return restart(s, c, if mode == 5 { 1 } else { s.timer(c, OUT) }, left - 1);
    }
    // The trigger begins the low pulse of mode 1, and sets OUT high in the other modes.
    if s.timer(c, TRIGGER) == 1 {
        return restart(s, c, u32::from(mode != 2), left - 1);
    }
    run(s, c, left)
}

fn gate(s: State, c: u32, level: u32) -> State {
    let was = s.timer(c, GATE);
    let mode = s.timer(c, MODE);
    let next = s.with_timer(c, GATE, level);
    if (level < was) & has(PERIODIC, mode) {
        return next.with_timer(c, OUT, 1);
    }
    if (level > was) & (s.timer(c, COMPLETE) == 1) & has(TRIGGERED, mode) {
        return next.with_timer(c, TRIGGER, 1);
    }
    next
}

// The rises of the three counters, one word each. OUT0's go to the interrupt chip too.
fn advance(s: State, n: u32) -> Effect {
    let (s, first) = pulses(s, 0, n);
    let (s, second) = pulses(s, 1, n);
    let (s, third) = pulses(s, 2, n);
    Effect {
        first,
        second,
        third,
        rose: u32::from(first > 0),
        ..Effect::with_data(s, 0)
    }
}

// What the duel counts by: a counter as it stands.
#[derive(Clone, Copy)]
pub struct Watched {
    pub mode: Option<u32>,
    // since the mode word: a count is complete, waits for its transfer (in modes 1 and 5 for the first trigger), something was loaded
    pub complete: bool,
    pub waiting: bool,
    pub triggered: bool,
    pub count: u32,
    pub value: u32,
    pub out: bool,
    pub gate: bool,
    pub loaded: bool,
}

// Counter c modulo 3.
pub fn watch(s: State, c: u32) -> Watched {
    Watched {
        mode: s.timer(c, MODE).checked_sub(1),
        complete: s.timer(c, COMPLETE) == 1,
        waiting: s.timer(c, WAITING) == 1,
        triggered: s.timer(c, TRIGGER) == 1,
        count: s.timer(c, COUNT),
        value: s.timer(c, VALUE),
        out: s.timer(c, OUT) == 1,
        gate: s.timer(c, GATE) == 1,
        loaded: s.timer(c, LOADED) == 1,
    }
}

// The DMA chip.

fn dma_reset(s: State) -> State {
    let idle = s
        .with(SELECTED, 0)
        .with(BASE, 0)
        .with(CONTROL, 0)
        .with(ENDS, 0)
        .with(MASKS, 15)
        .with(FIRST, 0)
        .with(SERVED, 0);
    (0..4).fold(idle, blank)
}

fn blank(s: State, channel: u32) -> State {
    s.with_channel(channel, BASE_COUNT, 0)
        .with_channel(channel, BASE_ADDRESS, 0)
        .with_channel(channel, CURRENT_COUNT, 0)
        .with_channel(channel, CURRENT_ADDRESS, 0)
        .with_channel(channel, CHANNEL_MODE, 0)
}

// The word bit of a mode byte.
fn by_words(mode: u32) -> bool {
    has(mode, 0)
}

fn mode_byte(s: State, channel: u32) -> u32 {
    s.channel(channel, CHANNEL_MODE)
}

// What is not built besides single bits: mode 11, direction 11, a mode by words on a narrow bus, and a narrow bus where some channel's mode is by words.
fn misfits(s: State, register: u32, b: u32) -> bool {
    let modes = mode_byte(s, 0) | mode_byte(s, 1) | mode_byte(s, 2) | mode_byte(s, 3);
    match register {
        0 => (b % 4 == 0) & by_words(modes),
        10 => (b & 0xC0 == 0xC0) | (b & 0x0C == 0x0C) | (by_words(b) & (s.get(BUS) == 0)),
        _ => false,
    }
}

fn dma_write_status(s: State, register: u32, b: u32) -> Result<(), Refusal> {
    let row = register as usize % 16;
    let unbuilt = (b % 256 + 256) & UNBUILT[row] != 0;
    Refusal::Unbuilt.when(unbuilt | misfits(s, register, b))
}

fn dma_read_status(register: u32) -> Result<(), Refusal> {
    let row = register as usize % 16;
    Refusal::Unbuilt.when(UNBUILT[row] == 0x100)
}

// Registers 2 to 6: which number of the channel, and which byte of it.
fn field_of(register: u32) -> usize
    ensures { result < 2 }
{
    if register < 4 {
        return BASE_COUNT;
    }
    BASE_ADDRESS
}

fn shift_of(register: u32) -> u32
    ensures { result < 24 }
{
    if register < 4 {
        return register % 2 * 8;
    }
    (register - 4) % 3 * 8
}

// x with one byte replaced.
fn replaced(x: u32, register: u32, b: u32) -> u32 {
    let shift = shift_of(register);
    x & !(255 << shift) | b % 256 << shift
}

// A number of a channel, with one byte replaced.
fn write_byte(s: State, channel: u32, f: usize, register: u32, b: u32) -> State {
    s.with_channel(channel, f, replaced(s.channel(channel, f), register, b))
}

fn write_number(s: State, register: u32, b: u32) -> State {
    let channel = s.get(SELECTED);
    let f = field_of(register);
    let base = write_byte(s, channel, f, register, b);
    if s.get(BASE) == 0 {
        return write_byte(base, channel, f + 2, register, b);
    }
    base
}

fn read_number(s: State, register: u32) -> u32 {
    let channel = s.get(SELECTED);
    let f = field_of(register);
    let base = s.channel(channel, f);
    let current = s.channel(channel, f + 2);
    ((if s.get(BASE) == 1 { base } else { current }) >> shift_of(register)) % 256
}

fn write_control(s: State, b: u32) -> State {
    let first = if s.get(CONTROL) & b & 0x10 == 0 {
        0
    } else {
        s.get(FIRST)
    };
    s.with(FIRST, first).with(CONTROL, b)
}

// Register 0: D0 resets the chip, and D1 is the bus from then on, with or without D0.
fn write_command(s: State, b: u32) -> State {
    let bus = bit(b, 1);
    if has(b, 0) {
        return dma_reset(s).with(BUS, bus);
    }
    s.with(BUS, bus)
}

fn dma_write(s: State, register: u32, b: u32) -> State {
    match register {
        0 => write_command(s, b),
        1 => s.with(SELECTED, b % 4).with(BASE, bit(b, 2)),
        2..=6 => write_number(s, register, b),
        8 => write_control(s, b),
        10 => s.with_channel(s.get(SELECTED), CHANNEL_MODE, b),
        15 => s.with(MASKS, b % 16),
        _ => s,
    }
}

// What a register shows.
fn dma_shown(s: State, register: u32) -> u32 {
    let channel = s.get(SELECTED);
    match register {
        1 => one(channel) | bit(s.get(BASE), 0) * 16,
        2..=6 => read_number(s, register),
        8 => s.get(CONTROL),
        10 => mode_byte(s, channel),
        11 => s.get(REQUESTS) % 16 * 16 + s.get(ENDS) % 16,
        15 => s.get(MASKS),
        _ => 0,
    }
}

// Reading status clears the end bits.
fn dma_read(s: State, register: u32) -> Effect {
    let shown = dma_shown(s, register);
    if register == 11 {
        return Effect::with_data(s.with(ENDS, 0), shown);
    }
    Effect::with_data(s, shown)
}

// The first-ranked of a set of channels that is not empty: the same turning and counting, on four bits.
fn best_channel(channels: u32, first: u32) -> u32
    ensures { result < 4 }
{
    let twice = channels % 16 * 17;
    let turned = (twice >> (first % 4)) % 16;
    let two = turned | turned << 1;
    let four = two | two << 2;
    ((!four & 15).count_ones() % 4 + first % 4) % 4
}

fn grant(s: State) -> Effect {
    let wanting = s.get(REQUESTS) & !s.get(MASKS) & 15;
    let channel = best_channel(wanting, s.get(FIRST));
    if (wanting == 0) | has(s.get(CONTROL), 2) {
        return Effect::with_data(s, 0);
    }
    Effect {
        first: word(1, channel, 0, 0),
        ..Effect::with_data(s.with(SERVED, channel + 1), 0)
    }
}

// Service stops.
fn stop(s: State, channel: u32) -> State {
    let rotated = if has(s.get(CONTROL), 4) {
        (channel % 4 + 1) % 4
    } else {
        s.get(FIRST)
    };
    s.with(SERVED, 0).with(FIRST, rotated)
}

// Which way a channel moves bytes, by D3-D2 of its mode.
#[derive(Clone, Copy, PartialEq, Eq)]
pub enum Direction {
    Verify,
    ToMemory,
    ToDevice,
}

fn direction_of(mode: u32) -> Direction {
    match mode / 4 % 4 {
        0 => Direction::Verify,
        1 => Direction::ToMemory,
        _ => Direction::ToDevice,
    }
}

// One byte at an address of memory, by the channel's direction: what moves.
fn move_byte(mode: u32, address: u32, device: u8, memory: &mut [u8]) -> u8 {
    let at = (address % 16777216) as usize;
    match direction_of(mode) {
        Direction::Verify => 0,
        Direction::ToMemory => {
            if at < memory.len() {
                memory[at] = device;
            }
            device
        }
        Direction::ToDevice => memory.get(at).copied().unwrap_or(0xFF),
    }
}

// One unit, as a number of one byte or two, the lower one first. A word is the byte at the even address and the one above it, whichever of the two
// the address names.
fn move_unit(mode: u32, address: u32, device: u32, memory: &mut [u8]) -> u32 {
    if !by_words(mode) {
        return u32::from(move_byte(mode, address, narrow(device), memory));
    }
    let lower = move_byte(mode, address & !1, narrow(device), memory);
    let upper = move_byte(mode, address | 1, narrow(device / 256), memory);
    word(u32::from(lower), u32::from(upper), 0, 0)
}

// 1 where the memory lacks a byte of the unit, and so its last one. Verify looks for none.
fn fallen(mode: u32, address: u32, length: usize) -> u32 {
    let last = address | mode % 2;
    u32::from((direction_of(mode) != Direction::Verify) & ((last % 16777216) as usize >= length))
}

// One step up or down of a 24-bit address: by one, or by two where words move.
fn stepped(mode: u32, address: u32) -> u32 {
    let width = mode % 2 + 1;
    let by = if has(mode, 5) {
        16777216 - width
    } else {
        width
    };
    (address % 16777216 + by % 16777216) % 16777216
}

// The end of a channel's work: reload or mask.
fn end(s: State, channel: u32, mode: u32) -> State {
    let told = s.with(ENDS, s.get(ENDS) | one(channel));
    if has(mode, 4) {
        let count = s.channel(channel, BASE_COUNT);
        let address = s.channel(channel, BASE_ADDRESS);
        return told
            .with_channel(channel, CURRENT_COUNT, count)
            .with_channel(channel, CURRENT_ADDRESS, address);
    }
    told.with(MASKS, s.get(MASKS) | one(channel))
}

// What a unit leaves, with END as given and the lower byte that moved.
fn unit(s: State, channel: u32, mode: u32, address: u32, ended: bool, data: u32) -> Effect {
    let count = s.channel(channel, CURRENT_COUNT) % 65536;
    let place = s.with_channel(channel, CURRENT_ADDRESS, stepped(mode, address));
    let next = place.with_channel(channel, CURRENT_COUNT, (count + 65535) % 65536);
    if ended | (count == 0) {
        let after = stop(end(next, channel, mode), channel);
        return Effect {
            first: word(2, channel, 1, 1),
            second: address,
            ..Effect::with_data(after, data)
        };
    }
    if mode / 64 % 4 == 1 {
        return Effect {
            first: word(2, channel, 0, 1),
            second: address,
            ..Effect::with_data(stop(next, channel), data)
        };
    }
    Effect {
        first: word(2, channel, 0, 0),
        second: address,
        ..Effect::with_data(next, data)
    }
}

fn cycle(s: State, ended: bool, device: u32, memory: &mut [u8]) -> Effect {
    let served = s.get(SERVED);
    if served == 0 {
        return grant(s);
    }
    let channel = (served % 8 + 7) % 8 % 4;
    let mode = mode_byte(s, channel);
    let address = s.channel(channel, CURRENT_ADDRESS);
    if (mode / 64 % 4 == 0) & !has(s.get(REQUESTS), channel) {
        return Effect {
            first: word(3, channel, 0, 1),
            ..Effect::with_data(stop(s, channel), 0)
        };
    }
    let moved = move_unit(mode, address, device, memory);
    let mut told = unit(s, channel, mode, address, ended, moved % 256);
    told.third = fallen(mode, address, memory.len()) | moved & 0xFF00;
    told
}

// What the duel counts units by: how a channel modulo 4 moves them.
#[derive(Clone, Copy)]
pub struct Moving {
    pub direction: Direction,
    // the address falls
    pub down: bool,
    pub by_words: bool,
}

pub fn watch_channel(s: State, channel: u32) -> Moving {
    let mode = mode_byte(s, channel);
    Moving {
        direction: direction_of(mode),
        down: has(mode, 5),
        by_words: by_words(mode),
    }
}

// The board.

fn write_status(s: State, port: u32, b: u32) -> Result<(), Refusal> {
    match port / 16 {
        0 => icu_write_status(s, MASTER, port % 2, b),
        1 => timer_write_status(s, port % 4, b),
        2 => dma_write_status(s, port % 16, b),
        _ => icu_write_status(s, SLAVE, port % 2, b),
    }
}

fn read_status(s: State, port: u32) -> Result<(), Refusal> {
    match port / 16 {
        0 => Refusal::OutOfTurn.when(!ready(s, MASTER)),
        1 => Refusal::OutOfTurn.when(s.timer(port % 4, MODE) == 0),
        2 => dma_read_status(port % 16),
        _ => Refusal::OutOfTurn.when(!ready(s, SLAVE)),
    }
}

// What the chip says of a write, a read or an acknowledge; the bus must not be in service.
fn chip_status(s: State, r: Record) -> Result<(), Refusal> {
    match r.op {
        1 => write_status(s, r.x, r.y),
        2 => read_status(s, r.x),
        4 => acknowledge_status(s),
        _ => Ok(()),
    }
}

// The record's status, decided before anything changes: 2, then 1, then what the chip says.
fn status_of(s: State, r: Record) -> Result<(), Refusal> {
    Refusal::NoRecord.when(!r.is_well_made())?;
    let asks = matches!(r.op, 1 | 2 | 4);
    Refusal::Busy.when(asks && s.get(SERVED) != 0)?;
    chip_status(s, r)
}

fn write(s: State, port: u32, b: u32) -> State {
    match port / 16 {
        0 => icu_write(s, MASTER, port % 2, b),
        1 => timer_write(s, port % 4, b),
        2 => dma_write(s, port % 16, b),
        _ => icu_write(s, SLAVE, port % 2, b),
    }
}

fn read(s: State, port: u32) -> Effect {
    match port / 16 {
        0 => Effect::with_data(s, icu_read(s, MASTER, port % 2)),
        1 => timer_read(s, port % 4),
        2 => dma_read(s, port % 16),
        _ => Effect::with_data(s, icu_read(s, SLAVE, port % 2)),
    }
}

fn set_lines(s: State, group: u32, levels: u32) -> State {
    match group {
        0 => s.with_icu(MASTER, INTP, levels),
        2 => s.with(REQUESTS, levels),
        3 => s.with_icu(SLAVE, INTP, levels),
        _ => gate(
            gate(gate(s, 0, bit(levels, 0)), 1, bit(levels, 1)),
            2,
            bit(levels, 2),
        ),
    }
}

// What a record that is taken does. Bytes 2 and 3 are what the device has for a unit, bytes 4 and 5 the pulses of an advance.
fn obey(s: State, r: Record, memory: &mut [u8]) -> Effect {
    match r.op {
        0 => Effect::with_data(second_reset(), 0),
        1 => Effect::with_data(write(s, r.x, r.y), 0),
        2 => read(s, r.x),
        3 => Effect::with_data(set_lines(s, r.x, r.y), 0),
        4 => acknowledge(s),
        5 => advance(s, r.high % 65536),
        _ => cycle(s, r.x == 1, r.low / 65536, memory),
    }
}

fn levels(s: State) -> u32 {
    s.timer(0, OUT) % 2
        + s.timer(1, OUT) % 2 * 2
        + s.timer(2, OUT) % 2 * 4
        + u32::from(master_int(s)) * 8
}

// The board after a record, and the record's answer.
#[derive(Clone, Copy)]
pub struct Answered {
    pub s: State,
    pub answer: [u8; 16],
}

fn sealed(s: State, d: Effect, status: u32, op: u32) -> Answered {
    let mut answer = [0; 16];
    answer[0] = narrow(status);
    answer[1] = narrow(op);
    answer[2] = narrow(d.data);
    answer[3] = narrow(levels(s));
    answer[4..8].copy_from_slice(&d.first.to_le_bytes());
    answer[8..12].copy_from_slice(&d.second.to_le_bytes());
    answer[12..].copy_from_slice(&d.third.to_le_bytes());
    Answered { s, answer }
}

// One record on the board: its bytes 0 to 3 and 4 to 7 as words, little end first.
pub fn second_step(s: State, low: u32, high: u32, memory: &mut [u8]) -> Answered {
    let r = Record::of(low, high);
    if let Err(refusal) = status_of(s, r) {
        return sealed(s, Effect::with_data(s, 0), refusal as u32, r.op);
    }
    let d = obey(s, r, memory);
    let next = d.s;
    sealed(follow(next, s, d.rose), d, 0, r.op)
}
