// The 71071: four DMA channels that move bytes or words between a device and lent memory, one unit a bus cycle.
// Not modelled: memory to memory, software requests, cascade, bus timing.
#![tactic(auto)]

ghost use Rattle.std.specs.Prelude.{◌≡◌, not, min, [], ◌+◌, ◌<◌, Ok, length, set, MatchOption};
ghost use Rattle.dma.specs.Fields.{chan, channels_are, word};
ghost use Rattle.dma.specs.Answers.{status_of, written_as, got_as, shown_as};
ghost use Rattle.dma.specs.Registers.{reset_of, requested_of, taken, any_words, initialized_of, selected_of, replaced_of, loaded_of, kept_first, controlled_of, held_zero, unbuilt_mode, refuses_mode, moded_of, masked_by, write_of, byte_at, shown_span, masks_of, read_of, seen_of};
ghost use Rattle.dma.specs.Report.{told, nothing};
ghost use Rattle.dma.specs.Cycle.{demand, ready, channel_at, winner, granted_of, first_after, releases, released_of, in_memory, peek_of, poke_of, size_of, carried, carried_of, memory_of, stepped, next, last_of, stops_of, moved_of, ends_after, settled_of, unit_of, cycle_of, plain_of};

// Where a transfer stands, or starts: an address of 24 bits, and the units still to come, less one.
#[repr(C)]
#[derive(Clone, Copy, PartialEq, Eq)]
pub struct Span {
    pub address: u32,
    pub count: u16,
}

#[repr(C)]
#[derive(Clone, Copy, PartialEq, Eq)]
pub struct Channel {
    pub current: Span,
    pub base: Span,
    // TMODE D7-D6, ADIR D5, AUTI D4, TDIR D3-D2, W/B D0: the width of its units
    pub mode: u8,
    pub masked: bool,
}

#[repr(C)]
#[derive(Clone, Copy, PartialEq, Eq)]
pub struct Dma {
    pub channels: [Channel; 4],
    // 16B: the data bus has 16 bits
    pub wide: bool,
    // the channel that registers 2 to 6 and A are of, and whether 2 to 6 are its base alone
    pub selected: u8,
    pub base: bool,
    pub rotate: bool,
    pub disabled: bool,
    // the first-ranked channel
    pub first: u8,
    // the channel in service; 0 while there is none
    pub serving: bool,
    pub channel: u8,
    // a bit for each channel
    pub requests: u8,
    pub ends: u8,
}

// Why a register is not written, or not shown.
#[derive(Clone, Copy, PartialEq, Eq)]
pub enum Refusal {
    // there is no such register to write, or to read
    NotThere,
    // it asks for what is not built, or for words on the 8-bit bus
    NotBuilt,
}

impl Refusal {
    // Its status number.
    pub fn status(self) -> u8
        ensures { result ≡ status_of self }
    {
        match self {
            Refusal::NotThere => 2,
            Refusal::NotBuilt => 4,
        }
    }
}

// What a read shows: its byte, and the end bits after it, which are all that it may change of the chip.
#[derive(Clone, Copy)]
pub struct Shown {
    pub byte: u8,
    pub ends: u8,
}

// What a unit carries: its byte, a word's upper byte, and whether any of it lies outside the lent memory.
#[derive(Clone, Copy)]
pub struct Carried {
    pub byte: u8,
    pub upper: u8,
    pub outside: bool,
}

impl Carried {
    fn new(byte: u8, upper: u8, outside: bool) -> Carried
        ensures { result ≡ carried byte upper outside }
    {
        Carried {
            byte,
            upper,
            outside,
        }
    }
}

// One byte or word moved, or verified.
#[derive(Clone, Copy)]
pub struct Unit {
    pub channel: u8,
    pub end: bool,
    pub stopped: bool,
    pub address: u32,
    pub byte: u8,
    pub upper: u8,
    pub outside: bool,
}

// What one bus cycle did, with the channel that it did it for.
#[derive(Clone, Copy)]
pub enum Report {
    Nothing,
    Granted(u8),
    Moved(Unit),
    Released(u8),
}

#[derive(Clone, Copy)]
pub struct Cycle {
    pub dma: Dma,
    pub report: Report,
}

// How many bytes of the memory have an address.
fn room(memory: &[u8]) -> usize
    ensures { result ≡ min (length memory.now) 16777216 }
{
    memory.len().min(16777216)
}

// Whether the memory has a byte at an address, and the address space too.
fn is_inside(memory: &[u8], at: u32) -> bool
    ensures { result ≡ in_memory memory.now at }
{
    (at as usize) < room(memory)
}

// The byte at an address, FFH outside.
fn peek_byte(memory: &[u8], at: u32) -> Carried
    ensures { result ≡ carried (peek_of memory.now at) 0 (not (in_memory memory.now at)) }
{
    if is_inside(memory, at) {
        return Carried::new(memory[at as usize], 0, false);
    }
    Carried::new(255, 0, true)
}

// The bytes at an address and the next. Where the next one is inside, both are.
fn peek_word(memory: &[u8], at: u32) -> Carried
    requires { at < 4294967295 }
    ensures { result ≡ carried (peek_of memory.now at) (peek_of memory.now (at + 1)) (not (in_memory memory.now (at + 1))) }
{
    let next = at + 1;
    if is_inside(memory, next) {
        return Carried::new(memory[at as usize], memory[next as usize], false);
    }
    let lower = peek_byte(memory, at);
    Carried::new(lower.byte, 255, true)
}

// A byte at an address, lost outside.
fn poke_byte(memory: &mut [u8], at: u32, b: u8) -> Carried
    ensures result { result ≡ carried b 0 (not (in_memory memory.old at)) }
    ensures memory { memory.new ≡ poke_of memory.old at b }
{
    if is_inside(memory, at) {
        memory[at as usize] = b;
        return Carried::new(b, 0, false);
    }
    Carried::new(b, 0, true)
}

// Two bytes at an address and the next. Where the next one is inside, both are.
fn poke_word(memory: &mut [u8], at: u32, b: u8, upper: u8) -> Carried
    requires { at < 4294967295 }
    ensures result { result ≡ carried b upper (not (in_memory memory.old (at + 1))) }
    ensures memory { memory.new ≡ poke_of (poke_of memory.old at b) (at + 1) upper }
{
    let next = at + 1;
    if is_inside(memory, next) {
        memory[at as usize] = b;
        memory[next as usize] = upper;
        return Carried::new(b, upper, false);
    }
    let lower = poke_byte(memory, at, b);
    Carried::new(lower.byte, upper, true)
}

// The address of the next unit, modulo 2^24.
fn next_address(a: u32, falls: bool, word: bool) -> u32
    ensures { result ≡ stepped a falls (size_of word) }
{
    let size = if word { 2 } else { 1 };
    if falls {
        (a % Dma::SPACE + Dma::SPACE - size) % Dma::SPACE
    } else {
        (a % Dma::SPACE + size) % Dma::SPACE
    }
}

impl Span {
    // A byte written to register 2 to 6 replaces that byte alone.
    #[tactic(auto, unfolding(crate::specs::Registers::replaced_of))]
    fn replace(mut self, register: u8, x: u8) -> Span
        ensures { result ≡ replaced_of register x self }
    {
        let [low, high] = self.count.to_le_bytes();
        let [a0, a1, a2, a3] = self.address.to_le_bytes();
        match register {
            Dma::COUNT => self.count = u16::from_le_bytes([x, high]),
            Dma::COUNT_HIGH => self.count = u16::from_le_bytes([low, x]),
            Dma::ADDRESS => self.address = u32::from_le_bytes([x, a1, a2, a3]),
            Dma::ADDRESS_MIDDLE => self.address = u32::from_le_bytes([a0, x, a2, a3]),
            _ => self.address = u32::from_le_bytes([a0, a1, x, a3]),
        }
        self
    }

    // The byte that register 2 to 6 shows.
    #[tactic(auto, unfolding(crate::specs::Registers::byte_at))]
    fn show(self, register: u8) -> u8
        ensures { result ≡ byte_at register self }
    {
        let [low, high] = self.count.to_le_bytes();
        let [a0, a1, a2, _] = self.address.to_le_bytes();
        match register {
            Dma::COUNT => low,
            Dma::COUNT_HIGH => high,
            Dma::ADDRESS => a0,
            Dma::ADDRESS_MIDDLE => a1,
            _ => a2,
        }
    }
}

impl Channel {
    // TDIR: device to memory, memory to device
    const WRITES: u8 = 1;

    const READS: u8 = 2;

    // Its units are words.
    fn is_word(self) -> bool
        ensures { result ≡ word self }
    {
        bits::bit(self.mode, 0)
    }

    // It has the bus only while it asks for it.
    fn is_demand(self) -> bool
        ensures { result ≡ demand self }
    {
        self.mode / 64 == 0
    }

    // Current after a unit.
    fn step(self) -> Span
        ensures { result ≡ next self }
    {
        let falls = bits::bit(self.mode, 5);
        Span {
            address: next_address(self.current.address, falls, self.is_word()),
            count: bits::one_less(self.current.count),
        }
    }

    // The channel after a unit. The last one masks it, unless it autoinitializes.
    #[tactic(auto, unfolding(crate::specs::Cycle::moved_of))]
    pub fn advance(mut self, last: bool) -> Channel
        ensures { result ≡ moved_of self last }
    {
        if last && bits::bit(self.mode, 4) {
            self.current = self.base;
            return self;
        }
        self.current = self.step();
        if last {
            self.masked = true;
        }
        self
    }

    // A count of N is N + 1 units: the last one finds the count at 0.
    fn is_last(self, end: bool) -> bool
        ensures { result ≡ last_of self end }
    {
        self.current.count == 0 || end
    }

    // The last unit stops service, and in single mode any unit does.
    fn does_stop(self, last: bool) -> bool
        ensures { result ≡ stops_of self last }
    {
        last || self.mode / 64 == 1
    }

    // Moves the unit, and says whether any of it lies outside the memory. A word at an odd address uses the even one below. Verify moves nothing,
    // answers 0 and has nothing outside.
    pub fn transfer(self, byte: u8, upper: u8, memory: &mut [u8]) -> Carried
        ensures result { result ≡ carried_of self memory.old byte upper }
        ensures memory { memory.new ≡ memory_of self memory.old byte upper }
    {
        let word = self.is_word();
        let at = self.current.address;
        match self.mode / 4 % 4 {
            Channel::WRITES if word => poke_word(memory, at / 2 * 2, byte, upper),
            Channel::WRITES => poke_byte(memory, at, byte),
            Channel::READS if word => peek_word(memory, at / 2 * 2),
            Channel::READS => peek_byte(memory, at),
            _ => Carried::new(0, 0, false),
        }
    }
}

// Whether a cycle moves a unit of channel n, which is c, and nothing more comes of it. Most units are like that, and such a one changes nothing of
// the chip but that channel's address and count.
#[tactic(auto, unfolding(crate::specs::Cycle::plain_of))]
pub fn is_plain(c: Channel, serving: bool, n: u8, requests: u8, end: bool) -> bool
    ensures { result ≡ plain_of c serving n requests end }
{
    if !serving || Dma::CHANNELS <= n || c.current.count == 0 || end {
        return false;
    }
    match c.mode / 64 {
        0 => bits::bit(requests, n),
        1 => false,
        _ => true,
    }
}

impl Dma {
    pub const CHANNELS: u8 = 4;

    // the addresses that 24 bits name
    pub const SPACE: u32 = 16777216;

    // A3-A0; their numbers, which are the registers', from here on
    pub const PORTS: u8 = 16;

    pub const INITIALIZE: u8 = 0;

    pub const SELECTION: u8 = 1;

    pub const COUNT: u8 = 2;

    pub const COUNT_HIGH: u8 = 3;

    pub const ADDRESS: u8 = 4;

    pub const ADDRESS_MIDDLE: u8 = 5;

    pub const ADDRESS_HIGH: u8 = 6;

    pub const DEVICE_CONTROL: u8 = 8;

    pub const DEVICE_CONTROL_HIGH: u8 = 9;

    pub const MODE_CONTROL: u8 = 10;

    pub const STATUS: u8 = 11;

    pub const MASK: u8 = 15;

    // Every channel masked, an 8-bit bus, all else zero.
    #[tactic(auto, unfolding(crate::specs::Registers::reset_of))]
    pub fn reset() -> Dma
        ensures { result ≡ reset_of }
    {
        let zero = Span {
            address: 0,
            count: 0,
        };
        let unset = Channel {
            current: zero,
            base: zero,
            mode: 0,
            masked: true,
        };
        Dma {
            channels: [unset; 4],
            wide: false,
            selected: 0,
            base: false,
            rotate: false,
            disabled: false,
            first: 0,
            serving: false,
            channel: 0,
            requests: 0,
            ends: 0,
        }
    }

    // The request lines, channel 0 in bit 0.
    #[tactic(auto, unfolding(crate::specs::Registers::requested_of))]
    pub fn set_requests(self, levels: u8) -> Dma
        ensures { result ≡ requested_of self levels }
    {
        Dma {
            requests: levels % 16,
            ..self
        }
    }

    // Channel n, all zero where there is none. Each place is named by itself: where the place is a variable, the compiler moves the chip whole.
    fn channel_at(self, n: u8) -> Channel
        ensures { result ≡ chan self n }
    {
        match n {
            0 => self.channels[0],
            1 => self.channels[1],
            2 => self.channels[2],
            3 => self.channels[3],
            _ => Channel {
                current: Span {
                    address: 0,
                    count: 0,
                },
                base: Span {
                    address: 0,
                    count: 0,
                },
                mode: 0,
                masked: false,
            },
        }
    }

    // Channel n replaced, where there is one.
    fn with_channel(mut self, n: u8, c: Channel) -> Dma
        ensures { result ≡ channels_are (set self.channels n c) self }
    {
        match n {
            0 => self.channels[0] = c,
            1 => self.channels[1] = c,
            2 => self.channels[2] = c,
            3 => self.channels[3] = c,
            _ => {}
        }
        self
    }

    // Whether any channel moves words.
    #[tactic(auto, unfolding(crate::specs::Registers::any_words))]
    fn has_words(self) -> bool
        ensures { result ≡ any_words self }
    {
        self.channels.iter().any(|c| c.is_word())
    }

    // Register 0: RES resets all but the request lines, which are no register; 16B is the width of the bus, and no channel may move words without it.
    #[tactic(auto, unfolding(crate::specs::Registers::initialized_of))]
    fn initialize(self, x: u8) -> Result<Dma, Refusal>
        ensures { written_as self result ≡ initialized_of self x }
    {
        let wide = bits::bit(x, 1);
        if bits::bit(x, 0) {
            return Ok(Dma {
                wide,
                requests: self.requests,
                ..Dma::reset()
            });
        }
        if !wide && self.has_words() {
            return Err(Refusal::NotBuilt);
        }
        Ok(Dma { wide, ..self })
    }

    // Register 1: the channel that other registers are of, and BASE.
    #[tactic(auto, unfolding(crate::specs::Registers::selected_of))]
    fn select(self, x: u8) -> Dma
        ensures { taken result ≡ selected_of self x }
    {
        Dma {
            selected: x % 4,
            base: bits::bit(x, 2),
            ..self
        }
    }

    // Registers 2 to 6: base always takes the byte, current only with BASE=0.
    #[tactic(auto, unfolding(crate::specs::Registers::loaded_of))]
    fn load(self, register: u8, x: u8) -> Dma
        ensures { result ≡ loaded_of self register x }
    {
        let c = self.channel_at(self.selected);
        let base = c.base.replace(register, x);
        if self.base {
            return self.with_channel(self.selected, Channel { base, ..c });
        }
        let current = c.current.replace(register, x);
        self.with_channel(self.selected, Channel { current, base, ..c })
    }

    // The first rank under a new ROT: rotation that is turned on starts from channel 0.
    fn keep_first(self, rotate: bool) -> u8
        ensures { result ≡ kept_first self rotate }
    {
        if rotate && self.rotate { self.first } else { 0 }
    }

    // Register 8: ROT and DDMA.
    #[tactic(auto, unfolding(crate::specs::Registers::controlled_of))]
    fn control(self, x: u8) -> Result<Dma, Refusal>
        ensures { written_as self result ≡ controlled_of self x }
    {
        if bits::masked(x, 20) != 0 {
            return Err(Refusal::NotBuilt);
        }
        let rotate = bits::bit(x, 4);
        Ok(Dma {
            rotate,
            disabled: bits::bit(x, 2),
            first: self.keep_first(rotate),
            ..self
        })
    }

    // Register 9: none of its bits is built.
    fn control_high(self, x: u8) -> Result<Dma, Refusal>
        ensures { written_as self result ≡ held_zero self x }
    {
        if x == 0 {
            Ok(self)
        } else {
            Err(Refusal::NotBuilt)
        }
    }

    // TMODE 11, TDIR 11, and D1.
    #[tactic(auto, unfolding(crate::specs::Registers::unbuilt_mode))]
    pub fn is_unbuilt_mode(x: u8) -> bool
        ensures { result ≡ unbuilt_mode x }
    {
        x / 64 == 3 || x / 4 % 4 == 3 || bits::bit(x, 1)
    }

    // The same, and words on an 8-bit bus.
    #[tactic(auto, unfolding(crate::specs::Registers::refuses_mode))]
    fn does_refuse_mode(self, x: u8) -> bool
        ensures { result ≡ refuses_mode self x }
    {
        Dma::is_unbuilt_mode(x) || bits::bit(x, 0) && !self.wide
    }

    // Register A, of the selected channel.
    #[tactic(auto, unfolding(crate::specs::Registers::moded_of))]
    fn set_mode(self, x: u8) -> Result<Dma, Refusal>
        ensures { written_as self result ≡ moded_of self x }
    {
        if self.does_refuse_mode(x) {
            return Err(Refusal::NotBuilt);
        }
        let c = self.channel_at(self.selected);
        Ok(self.with_channel(self.selected, Channel { mode: x, ..c }))
    }

    // Register F.
    #[tactic(auto, unfolding(crate::specs::Registers::masked_by))]
    fn set_masks(self, x: u8) -> Dma
        ensures { result ≡ masked_by self x }
    {
        let [c0, c1, c2, c3] = self.channels;
        let channels = [
            Channel {
                masked: bits::bit(x, 0),
                ..c0
            },
            Channel {
                masked: bits::bit(x, 1),
                ..c1
            },
            Channel {
                masked: bits::bit(x, 2),
                ..c2
            },
            Channel {
                masked: bits::bit(x, 3),
                ..c3
            },
        ];
        Dma { channels, ..self }
    }

    // A write of x to the register A3-A0.
    #[tactic(auto, unfolding(crate::specs::Registers::write_of, crate::specs::Registers::selected_of))]
    pub fn write(self, register: u8, x: u8) -> Result<Dma, Refusal>
        ensures { written_as self result ≡ write_of self register x }
    {
        let r = register % Dma::PORTS;
        match r {
            Dma::INITIALIZE => self.initialize(x),
            Dma::SELECTION => Ok(self.select(x)),
            Dma::COUNT..=Dma::ADDRESS_HIGH => Ok(self.load(r, x)),
            Dma::DEVICE_CONTROL => self.control(x),
            Dma::DEVICE_CONTROL_HIGH => self.control_high(x),
            Dma::MODE_CONTROL => self.set_mode(x),
            Dma::MASK => Ok(self.set_masks(x)),
            // there is no register 7, and the status is only read
            7 | Dma::STATUS => Err(Refusal::NotThere),
            _ => Err(Refusal::NotBuilt),
        }
    }

    // What registers 2 to 6 are of.
    #[tactic(auto, unfolding(crate::specs::Registers::shown_span))]
    fn shown_span(self) -> Span
        ensures { result ≡ shown_span self }
    {
        let c = self.channel_at(self.selected);
        if self.base { c.base } else { c.current }
    }

    // Register F, read.
    fn masks(self) -> u8
        ensures { result ≡ masks_of self }
    {
        let [c0, c1, c2, c3] = self.channels;
        bits::weigh(c0.masked, 1)
            + bits::weigh(c1.masked, 2)
            + bits::weigh(c2.masked, 4)
            + bits::weigh(c3.masked, 8)
    }

    // A read that shows a byte and changes nothing.
    fn show(self, byte: u8) -> Result<Shown, Refusal>
        ensures { result ≡ Ok (record { byte = byte; ends = self.ends }) }
    {
        Ok(Shown {
            byte,
            ends: self.ends,
        })
    }

    // A read of the register A3-A0. That of B, the status, clears the end bits.
    #[tactic(auto, unfolding(crate::specs::Registers::seen_of, crate::specs::Registers::read_of))]
    pub fn look(self, register: u8) -> Result<Shown, Refusal>
        ensures { shown_as self result ≡ seen_of self register }
    {
        let r = register % Dma::PORTS;
        // what initializes is only written
        if r == Dma::INITIALIZE {
            return Err(Refusal::NotThere);
        }
        if r == Dma::SELECTION {
            return self.show(bits::with(bits::weigh(self.base, 16), self.selected));
        }
        if r <= Dma::ADDRESS_HIGH {
            return self.show(self.shown_span().show(r));
        }
        // there is no register 7
        if r == 7 {
            return Err(Refusal::NotThere);
        }
        if r == Dma::DEVICE_CONTROL {
            return self.show(bits::weigh(self.rotate, 16) + bits::weigh(self.disabled, 4));
        }
        if r == Dma::DEVICE_CONTROL_HIGH {
            return self.show(0);
        }
        if r == Dma::MODE_CONTROL {
            return self.show(self.channel_at(self.selected).mode);
        }
        if r == Dma::STATUS {
            return Ok(Shown {
                byte: self.requests % 16 * 16 + self.ends % 16,
                ends: 0,
            });
        }
        if r < Dma::MASK {
            return Err(Refusal::NotBuilt);
        }
        self.show(self.masks())
    }

    // The same, with the chip as it is afterwards.
    #[tactic(auto, using(crate::proofs::Looks::put_back))]
    pub fn read(self, register: u8) -> Result<(u8, Dma), Refusal>
        ensures { got_as self result ≡ read_of self register }
    {
        let Shown { byte, ends } = self.look(register)?;
        Ok((byte, Dma { ends, ..self }))
    }

    // Channel n asks for service and is not masked.
    #[tactic(auto, unfolding(crate::specs::Cycle::ready))]
    fn is_ready(self, n: u8) -> bool
        ensures { result ≡ ready self n }
    {
        !self.channel_at(n).masked && bits::bit(self.requests, n)
    }

    // The channel at rank k. The first rank means nothing while the rank is fixed.
    #[tactic(auto, unfolding(crate::specs::Cycle::channel_at))]
    fn ranked(self, k: u8) -> u8
        ensures { result ≡ channel_at self k }
    {
        let first = if self.rotate { self.first } else { 0 };
        (first % 4 + k % 4) % 4
    }

    // The highest-ranked ready channel.
    fn find_winner(self) -> Option<u8>
        ensures { MatchOption result (winner self ≡ 4) (λ n. (winner self ≡ n) × (n < 4)) }
    {
        for k in 0..Dma::CHANNELS {
            let n = self.ranked(k);
            if self.is_ready(n) {
                return Some(n);
            }
        }
        None
    }

    // The first rank once the served channel is served no more.
    fn first_after(self) -> u8
        ensures { result ≡ first_after self self.channel }
    {
        if self.rotate {
            (self.channel % 4 + 1) % 4
        } else {
            self.first
        }
    }

    // The end bits after a unit of the served channel.
    fn ends_after(self, last: bool) -> u8
        ensures { result ≡ ends_after self last }
    {
        if last {
            bits::with(self.ends, self.channel)
        } else {
            self.ends
        }
    }

    // The served channel becomes c, and service goes on or stops.
    fn settle(self, c: Channel, last: bool, stop: bool) -> Dma
        ensures { result ≡ settled_of self c last stop }
    {
        let ends = self.ends_after(last);
        let moved = self.with_channel(self.channel, c);
        if stop {
            return Dma {
                serving: false,
                channel: 0,
                first: self.first_after(),
                ends,
                ..moved
            };
        }
        Dma {
            serving: true,
            ends,
            ..moved
        }
    }

    // One unit of the served channel.
    #[tactic(auto, unfolding(crate::specs::Cycle::unit_of))]
    fn move_unit(self, end: bool, byte: u8, upper: u8, memory: &mut [u8]) -> Cycle
        ensures dma { result.dma ≡ (unit_of self end byte upper memory.old).dma }
        ensures report { told result.report ≡ (unit_of self end byte upper memory.old).report }
        ensures memory { memory.new ≡ (unit_of self end byte upper memory.old).memory }
    {
        let c = self.channel_at(self.channel);
        let last = c.is_last(end);
        let stopped = c.does_stop(last);
        let carried = c.transfer(byte, upper, memory);
        Cycle {
            dma: self.settle(c.advance(last), last, stopped),
            report: Report::Moved(Unit {
                channel: self.channel,
                end: last,
                stopped,
                address: c.current.address,
                byte: carried.byte,
                upper: carried.upper,
                outside: carried.outside,
            }),
        }
    }

    // Demand gives the bus back when its request is low.
    fn does_release(self) -> bool
        ensures { result ≡ releases self }
    {
        self.channel_at(self.channel).is_demand() && !bits::bit(self.requests, self.channel)
    }

    // The bus goes back to the CPU; to the ranks this is a service that stopped.
    #[tactic(auto, unfolding(crate::specs::Cycle::released_of))]
    fn release(self) -> Cycle
        ensures dma { result.dma ≡ (released_of self []).dma }
        ensures report { told result.report ≡ (released_of self []).report }
    {
        Cycle {
            dma: Dma {
                serving: false,
                channel: 0,
                first: self.first_after(),
                ..self
            },
            report: Report::Released(self.channel),
        }
    }

    // Channel n is in service from the next cycle on.
    #[tactic(auto, unfolding(crate::specs::Cycle::granted_of))]
    fn grant(self, n: u8) -> Cycle
        ensures dma { result.dma ≡ (granted_of self n []).dma }
        ensures report { told result.report ≡ (granted_of self n []).report }
    {
        Cycle {
            dma: Dma {
                serving: true,
                channel: n,
                ..self
            },
            report: Report::Granted(n),
        }
    }

    // A cycle in which nothing happens.
    fn rest(self) -> Cycle
        ensures dma { result.dma ≡ self }
        ensures report { told result.report ≡ nothing }
    {
        Cycle {
            dma: self,
            report: Report::Nothing,
        }
    }

    // One bus cycle. END and the device's bytes matter to a unit alone, the upper one to a word: a grant or a release ignores them.
    #[tactic(auto, unfolding(crate::specs::Cycle::cycle_of, crate::specs::Cycle::released_of, crate::specs::Cycle::nothing_of, crate::specs::Cycle::granted_of))]
    pub fn cycle(self, end: bool, byte: u8, upper: u8, memory: &mut [u8]) -> Cycle
        ensures dma { result.dma ≡ (cycle_of self end byte upper memory.old).dma }
        ensures report { told result.report ≡ (cycle_of self end byte upper memory.old).report }
        ensures memory { memory.new ≡ (cycle_of self end byte upper memory.old).memory }
    {
        if self.serving {
            if self.does_release() {
                return self.release();
            }
            return self.move_unit(end, byte, upper, memory);
        }
        if self.disabled {
            return self.rest();
        }
        match self.find_winner() {
            Some(n) => self.grant(n),
            None => self.rest(),
        }
    }
}
