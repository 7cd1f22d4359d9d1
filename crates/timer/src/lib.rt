// The 71054: three counters on one clock, in six modes, binary; the multiple latch and BCD are not built.
#![tactic(auto)]

ghost use Rattle.std.specs.Prelude.{◌≡◌, ◌≤◌, ltb};
ghost use Rattle.bits.specs.Bits.{less};
ghost use Rattle.timer.specs.declared.Moving.{Moving};
ghost use Rattle.timer.specs.Shared.{transferred, counted};
ghost use Rattle.timer.specs.Mode0.{pulse0};
ghost use Rattle.timer.specs.Mode1.{pulse1};
ghost use Rattle.timer.specs.Mode2.{pulse2};
ghost use Rattle.timer.specs.Mode3.{loaded_even, end_of_half, pulse3};
ghost use Rattle.timer.specs.Mode4.{pulse4};
ghost use Rattle.timer.specs.Mode5.{pulse5};
ghost use Rattle.timer.specs.Modes.{mode_of, moded};
ghost use Rattle.timer.specs.Ports.{status_of, reset_of, told_wrote, told_shown, told_seen, mode_set, mode_word, latch_word, control_of, dropped, completed, size_of, count_of, begun, write_of, held, read_of, seen_of};
ghost use Rattle.timer.specs.Pulse.{pulse_of, gate_of};
ghost use Rattle.timer.specs.Run.{rise_of, ran_of};
ghost use Rattle.timer.specs.Steady.{rose, fall0, fall2, fall3, fall4, fell_by, rested, steady_of};
ghost use Rattle.timer.specs.Timer.{written_as, got_as, resets_of, controls_of, writes_of, reads_of, pulses_of, gates_of, outs_of};

#[repr(C)]
#[derive(Clone, Copy, PartialEq, Eq)]
pub struct Counter {
    // 0 to 5, any other number is no mode
    pub mode: u8,
    // RWM1-RWM0: 1 low byte, 2 high byte, 3 both
    pub format: u8,
    // the down counter
    pub value: u16,
    // the last complete count
    pub count: u16,
    // a count is complete since the mode word
    pub full: bool,
    // a complete count waits for the pulse that transfers it; in modes 1 and 5 that is the first trigger's
    pub pending: bool,
    // GATE rose, and the next pulse of mode 1, 2, 3 or 5 loads
    pub trigger: bool,
    // the low byte of a count is kept apart in `low`, its high byte to come
    pub half: bool,
    pub low: u8,
    // `latch` holds what reads show
    pub latched: bool,
    pub latch: u16,
    // the next read of a two-byte format is the high byte
    pub second: bool,
    pub gate: bool,
    pub out: bool,
    // the running count of mode 3 was odd
    pub odd: bool,
}

// Why a write or a read is refused.
#[derive(Clone, Copy, PartialEq, Eq)]
pub enum Refusal {
    // the control port is not open to reads
    NotThere,
    // no mode is set
    OutOfTurn,
    // BCD, or the multiple latch
    NotBuilt,
    // count 1 in mode 2 or 3
    TooSmall,
}

impl Refusal {
    // Its status number.
    pub fn status(self) -> u8
        ensures { result ≡ status_of self }
    {
        match self {
            Refusal::NotThere => 2,
            Refusal::OutOfTurn => 3,
            Refusal::NotBuilt => 4,
            Refusal::TooSmall => 6,
        }
    }
}

// What a read of a counter shows: the byte, and the two fields that it may change as they are after it.
#[derive(Clone, Copy)]
pub struct Shown {
    pub byte: u8,
    pub latched: bool,
    pub second: bool,
}

// What n pulses make of a counter: the counter afterwards, and how many of them made OUT rise.
#[derive(Clone, Copy)]
pub struct Ran {
    pub counter: Counter,
    pub rises: u32,
}

// The three fields that a pulse moves once nothing pends.
#[derive(Clone, Copy)]
pub struct Moving {
    pub value: u16,
    pub out: bool,
    pub odd: bool,
}

#[repr(C)]
#[derive(Clone, Copy, PartialEq, Eq)]
pub struct Timer {
    pub counters: [Counter; Timer::COUNTERS],
}

// One where a level rose.
fn rise(was: bool, now: bool) -> u32
    ensures value { result ≡ rise_of was now }
    ensures upper_bound { result ≤ 1 }
{
    u32::from(!was && now)
}

// A steady pulse of modes 0 and 1, in which OUT never falls.
fn fall_0(m: &mut Moving)
    ensures { m.new ≡ fall0 m.old }
{
    m.value = bits::one_less(m.value);
    if m.value == 0 {
        m.out = true;
    }
}

// A steady pulse of mode 2, and whether it made OUT rise.
fn fall_2(count: u16, m: &mut Moving) -> bool
    ensures moves { m.new ≡ fall2 count m.old }
    ensures tells { result ≡ rose m.old m.new }
{
    if m.value == 1 {
        let low = !m.out;
        m.value = count;
        m.out = true;
        return low;
    }
    m.value = bits::one_less(m.value);
    if m.value == 1 {
        m.out = false;
    }
    false
}

// The same of mode 3.
fn fall_3(count: u16, m: &mut Moving) -> bool
    ensures moves { m.new ≡ fall3 count m.old }
    ensures tells { result ≡ rose m.old m.new }
{
    if m.value == end_of_half(m.out, m.odd) {
        m.value = count - count % 2;
        m.out = !m.out;
        m.odd = count % 2 == 1;
        return m.out;
    }
    m.value = bits::one_less(bits::one_less(m.value));
    false
}

// The same of modes 4 and 5.
fn fall_4(m: &mut Moving) -> bool
    ensures moves { m.new ≡ fall4 m.old }
    ensures tells { result ≡ rose m.old m.new }
{
    m.value = bits::one_less(m.value);
    if m.value == 0 {
        m.out = false;
        return false;
    }
    let low = !m.out;
    m.out = true;
    low
}

// Where a half of mode 3 ends: the high half of an odd count is the longer one.
fn end_of_half(high: bool, odd: bool) -> u16
    ensures { result ≡ end_of_half high odd }
{
    if high && odd { 0 } else { 2 }
}

// What a mode's table says besides its pulse: whether OUT starts high.
#[tactic(auto, unfolding(crate::specs::Modes::mode_of))]
fn starts_high(mode: u8) -> bool
    ensures { result ≡ (mode_of mode).high }
{
    matches!(mode, 1..=5)
}

// Whether GATE's rise is a trigger.
#[tactic(auto, unfolding(crate::specs::Modes::mode_of))]
fn has_trigger(mode: u8) -> bool
    ensures { result ≡ (mode_of mode).triggers }
{
    matches!(mode, 1 | 2 | 3 | 5)
}

// Whether GATE's fall sets OUT high.
#[tactic(auto, unfolding(crate::specs::Modes::mode_of))]
fn lifts_out(mode: u8) -> bool
    ensures { result ≡ (mode_of mode).lifts }
{
    matches!(mode, 2 | 3)
}

// Whether a count byte sets OUT low.
#[tactic(auto, unfolding(crate::specs::Modes::mode_of))]
fn drops_out(mode: u8) -> bool
    ensures { result ≡ (mode_of mode).drops }
{
    mode == 0
}

// Whether each complete count is to be transferred, and not the first alone.
#[tactic(auto, unfolding(crate::specs::Modes::mode_of))]
fn takes_each(mode: u8) -> bool
    ensures { result ≡ (mode_of mode).each }
{
    matches!(mode, 0 | 4) // mode 5 waits for a trigger
}

// The minimum count.
#[tactic(auto, unfolding(crate::specs::Modes::mode_of))]
fn least(mode: u8) -> u16
    ensures value { result ≡ (mode_of mode).least }
    ensures upper_bound { result ≤ 2 }
{
    if matches!(mode, 2 | 3) { 2 } else { 1 }
}

// Whether a count is below the minimum; 0 counts 65,536.
fn is_too_small(mode: u8, n: u16) -> bool
    ensures { result ≡ ltb (size_of n) (mode_of mode).least }
{
    n != 0 && n < least(mode)
}

impl Counter {
    // the mode of a counter that has none yet
    pub const NONE: u8 = 255;

    // the formats, as RWM1-RWM0 name them
    pub const LOW: u8 = 1;

    pub const HIGH: u8 = 2;

    pub const BOTH: u8 = 3;

    // No mode, and GATE high: the one level that isn't low.
    pub fn reset() -> Counter
        ensures { result ≡ reset_of }
    {
        Counter {
            mode: Counter::NONE,
            format: 0,
            value: 0,
            count: 0,
            full: false,
            pending: false,
            trigger: false,
            half: false,
            low: 0,
            latched: false,
            latch: 0,
            second: false,
            gate: true,
            out: false,
            odd: false,
        }
    }

    // Whether a mode is set.
    #[tactic(auto, unfolding(crate::specs::Modes::moded))]
    fn is_moded(self) -> bool
        ensures { result ≡ moded self }
    {
        self.mode < 6
    }

    // The value stays: it is what reads show until the first transfer.
    #[tactic(auto, unfolding(crate::specs::Ports::mode_set))]
    fn set_mode(mut self, mode: u8, format: u8) -> Counter
        ensures { result ≡ mode_set mode format self }
    {
        self.mode = mode;
        self.format = format;
        self.out = starts_high(mode);
        self.full = false;
        self.pending = false;
        self.trigger = false;
        self.half = false;
        self.second = false;
        self.latched = false;
        self
    }

    // A mode word. In x10 and x11 D3 does not count: 110 is mode 2 too, 111 mode 3.
    #[tactic(auto, unfolding(crate::specs::Ports::mode_word))]
    fn take_mode(self, word: u8) -> Result<Counter, Refusal>
        ensures { told_wrote self result ≡ mode_word self word }
    {
        if word % 2 == 1 {
            return Err(Refusal::NotBuilt);
        }
        let named = word / 2 % 8;
        let mode = if named % 4 < 2 { named } else { named % 4 };
        Ok(self.set_mode(mode, word / 16 % 4))
    }

    // A latch that holds already is left as it is.
    #[tactic(auto, unfolding(crate::specs::Ports::latch_word))]
    fn take_latch(mut self) -> Result<Counter, Refusal>
        ensures { told_wrote self result ≡ latch_word self }
    {
        if !self.is_moded() {
            return Err(Refusal::OutOfTurn);
        }
        if !self.latched {
            self.latched = true;
            self.latch = self.value;
        }
        Ok(self)
    }

    // A control word whose D7-D6 name this counter.
    #[tactic(auto, unfolding(crate::specs::Ports::control_of))]
    pub fn control(self, word: u8) -> Result<Counter, Refusal>
        ensures { told_wrote self result ≡ control_of self word }
    {
        if word / 16 % 4 == 0 {
            self.take_latch()
        } else {
            self.take_mode(word)
        }
    }

    // What a count byte does to OUT at once.
    fn drop_out(mut self) -> Counter
        ensures { result ≡ dropped self }
    {
        if drops_out(self.mode) {
            self.out = false;
        }
        self
    }

    // A complete count: the down counter gets it at a pulse, never here.
    #[tactic(auto, unfolding(crate::specs::Ports::completed))]
    fn complete(mut self, n: u16) -> Counter
        ensures { result ≡ completed self n }
    {
        self.count = n;
        self.half = false;
        if !takes_each(self.mode) && self.full {
            return self;
        }
        self.full = true;
        self.pending = true;
        self.drop_out()
    }

    // A refused count leaves the byte kept apart, so the high byte may be written again.
    #[tactic(auto, unfolding(crate::specs::Ports::count_of))]
    fn take_count(self, n: u16) -> Result<Counter, Refusal>
        ensures { told_wrote self result ≡ count_of self n }
    {
        if is_too_small(self.mode, n) {
            return Err(Refusal::TooSmall);
        }
        Ok(self.complete(n))
    }

    // The first byte of two.
    #[tactic(auto, unfolding(crate::specs::Ports::begun))]
    fn begin(mut self, x: u8) -> Counter
        ensures { result ≡ begun self x }
    {
        self.half = true;
        self.low = x;
        self.drop_out()
    }

    // A count byte.
    #[tactic(auto, unfolding(crate::specs::Ports::write_of))]
    pub fn write(self, x: u8) -> Result<Counter, Refusal>
        ensures { told_wrote self result ≡ write_of self x }
    {
        if !self.is_moded() {
            return Err(Refusal::OutOfTurn);
        }
        let x = u16::from(x);
        match self.format {
            Counter::LOW => self.take_count(x),
            Counter::HIGH => self.take_count(x * 256),
            _ if self.half => self.take_count(u16::from(self.low) + x * 256),
            _ => Ok(self.begin(x as u8)),
        }
    }

    // What a read shows.
    #[tactic(auto, unfolding(crate::specs::Ports::held))]
    fn shown(self) -> u16
        ensures { result ≡ held self }
    {
        if self.latched { self.latch } else { self.value }
    }

    // A count byte read. Its place is not the writer's.
    #[tactic(auto, unfolding(crate::specs::Ports::read_of, crate::specs::Ports::seen_of))]
    pub fn look(self) -> Result<Shown, Refusal>
        ensures { told_seen self result ≡ seen_of self }
    {
        if !self.is_moded() {
            return Err(Refusal::OutOfTurn);
        }
        let v = self.shown();
        let (low, high) = ((v % 256) as u8, (v / 256) as u8);
        let (byte, latched, second) = match self.format {
            Counter::LOW => (low, false, self.second),
            Counter::HIGH => (high, false, self.second),
            _ if self.second => (high, false, false),
            // the last byte alone frees the latch
            _ => (low, self.latched, true),
        };
        Ok(Shown {
            byte,
            latched,
            second,
        })
    }

    // The same, with the counter as it is afterwards.
    #[tactic(auto, unfolding(crate::specs::Ports::read_of, crate::specs::Ports::seen_of))]
    pub fn read(self) -> Result<(u8, Counter), Refusal>
        ensures { told_shown self result ≡ read_of self }
    {
        let s = self.look()?;
        let after = Counter {
            latched: s.latched,
            second: s.second,
            ..self
        };
        Ok((s.byte, after))
    }

    // The last complete count is transferred, once.
    fn transfer(self) -> Counter
        ensures { result ≡ transferred self }
    {
        Counter {
            pending: false,
            value: self.count,
            ..self
        }
    }

    // One less, and at the end OUT takes a level.
    fn count_down(mut self, end: u16, level: bool) -> Counter
        ensures { result ≡ counted end level (less self.value) self }
    {
        self.value = bits::one_less(self.value);
        if self.value == end {
            self.out = level;
        }
        self
    }

    // Where the half of mode 3 ends that runs.
    fn half_end(self) -> u16
        ensures { result ≡ end_of_half self.out self.odd }
    {
        end_of_half(self.out, self.odd)
    }

    // The load of mode 3: the even number below an odd one, and that it was odd.
    fn load_even(self) -> Counter
        ensures { result ≡ loaded_even self }
    {
        Counter {
            value: self.count - self.count % 2,
            odd: self.count % 2 == 1,
            ..self
        }
    }

    // A pulse in mode 0.
    #[tactic(auto, unfolding(crate::specs::Mode0::pulse0))]
    fn pulse_0(self) -> Counter
        ensures { result ≡ pulse0 self }
    {
        if self.pending {
            self.transfer()
        } else if self.gate && !self.half {
            self.count_down(0, true)
        } else {
            self
        }
    }

    // A pulse in mode 1.
    #[tactic(auto, unfolding(crate::specs::Mode1::pulse1))]
    fn pulse_1(self) -> Counter
        ensures { result ≡ pulse1 self }
    {
        let fires = self.trigger;
        if fires {
            Counter {
                trigger: false,
                out: false,
                ..self.transfer()
            }
        } else if self.pending {
            self
        } else {
            self.count_down(0, true)
        }
    }

    // A pulse in mode 2.
    #[tactic(auto, unfolding(crate::specs::Mode2::pulse2))]
    fn pulse_2(self) -> Counter
        ensures { result ≡ pulse2 self }
    {
        if self.pending {
            let mut first = self.transfer();
            first.trigger = false;
            first
        } else if self.trigger {
            Counter {
                trigger: false,
                value: self.count,
                out: true,
                ..self
            }
        } else if !self.gate {
            self
        } else if self.value == 1 {
            Counter {
                value: self.count,
                out: true,
                ..self
            }
        } else {
            self.count_down(1, false)
        }
    }

    // A pulse in mode 3.
    #[tactic(auto, unfolding(crate::specs::Mode3::pulse3))]
    fn pulse_3(self) -> Counter
        ensures { result ≡ pulse3 self }
    {
        if self.pending {
            Counter {
                pending: false,
                trigger: false,
                ..self.load_even()
            }
        } else if self.trigger {
            Counter {
                trigger: false,
                out: true,
                ..self.load_even()
            }
        } else if !self.gate {
            self
        } else if self.value == self.half_end() {
            Counter {
                out: !self.out,
                ..self.load_even()
            }
        } else {
            Counter {
                value: bits::one_less(bits::one_less(self.value)),
                ..self
            }
        }
    }

    // A pulse in mode 4. The strobe ends first, whatever the pulse does then.
    #[tactic(auto, unfolding(crate::specs::Mode4::pulse4))]
    fn pulse_4(mut self) -> Counter
        ensures { result ≡ pulse4 self }
    {
        self.out = true; // a strobe lasts one pulse
        if self.pending {
            self.transfer()
        } else if self.gate {
            self.count_down(0, false)
        } else {
            self
        }
    }

    // A pulse in mode 5, where the strobe ends likewise.
    #[tactic(auto, unfolding(crate::specs::Mode5::pulse5))]
    fn pulse_5(mut self) -> Counter
        ensures { result ≡ pulse5 self }
    {
        self.out = true;
        let starts = self.trigger;
        if starts {
            Counter {
                trigger: false,
                ..self.transfer()
            }
        } else if self.pending {
            self
        } else {
            self.count_down(0, false)
        }
    }

    // One pulse of CLK.
    #[tactic(auto, unfolding(crate::specs::Pulse::pulse_of, crate::specs::Modes::mode_of))]
    pub fn pulse(self) -> Counter
        ensures { result ≡ pulse_of self }
    {
        if !self.full {
            return self;
        }
        match self.mode {
            0 => self.pulse_0(),
            1 => self.pulse_1(),
            2 => self.pulse_2(),
            3 => self.pulse_3(),
            4 => self.pulse_4(),
            5 => self.pulse_5(),
            _ => self,
        }
    }

    // n pulses, each a step that tells whether OUT rose.
    fn fall<F: Fn(&mut Moving) -> bool>(self, n: u32, step: F) -> Ran
        requires { F.IsAlwaysCallable step }
        ensures moves { (rule : Moving → Moving) → ((m : _) (r : _) (next : _) → F.post step m r next → next.now ≡ rule m.now) → result.counter ≡ (fell_by rule self n).counter }
        ensures tells { (rule : Moving → Moving) → ((m : _) (r : _) (next : _) → F.post step m r next → next.now ≡ rule m.now) → ((m : _) (r : _) (next : _) → F.post step m r next → r ≡ rose m.now next.now) → result ≡ fell_by rule self n }
    {
        let mut m = Moving {
            value: self.value,
            out: self.out,
            odd: self.odd,
        };
        let mut rises = 0;
        for _ in 0..n {
            rises += u32::from(step(&mut m));
        }
        Ran {
            counter: Counter {
                value: m.value,
                out: m.out,
                odd: m.odd,
                ..self
            },
            rises,
        }
    }

    // n pulses of modes 0 and 1. OUT never falls on the way, so it rose once if it ends high and was low.
    fn fall_once(self, n: u32) -> Ran
        ensures { result ≡ fell_by fall0 self n }
    {
        let ran = self.fall(n, |m| {
            fall_0(m);
            false
        });
        Ran {
            rises: rise(self.out, ran.counter.out),
            ..ran
        }
    }

    fn rest(self) -> Ran
        ensures { result ≡ rested self }
    {
        Ran {
            counter: self,
            rises: 0,
        }
    }

    // n pulses of a counter for which nothing pends.
    fn run_steady(self, n: u32) -> Ran
        ensures { result ≡ steady_of self n }
    {
        if !self.full {
            return self.rest();
        }
        match self.mode {
            0 if self.gate && !self.half => self.fall_once(n),
            1 if !self.pending => self.fall_once(n),
            2 if self.gate => self.fall(n, |m| fall_2(self.count, m)),
            3 if self.gate => self.fall(n, |m| fall_3(self.count, m)),
            4 if self.gate => self.fall(n, fall_4),
            5 if !self.pending => self.fall(n, fall_4),
            _ => self.rest(),
        }
    }

    // n pulses of CLK: the first uses up what pends.
    pub fn run(self, n: u32) -> Ran
        ensures { result ≡ ran_of self n }
    {
        if n == 0 {
            return self.rest();
        }
        let next = self.pulse();
        let ran = next.run_steady(n - 1);
        Ran {
            counter: ran.counter,
            rises: rise(self.out, next.out) + ran.rises,
        }
    }

    // GATE at a level; a repeated level is no edge.
    #[tactic(auto, unfolding(crate::specs::Pulse::gate_of))]
    pub fn set_gate(mut self, high: bool) -> Counter
        ensures { result ≡ gate_of self high }
    {
        if high == self.gate {
            return self;
        }
        self.gate = high;
        if high && has_trigger(self.mode) && self.full {
            self.trigger = true;
        }
        if !high && lifts_out(self.mode) {
            self.out = true;
        }
        self
    }
}

impl Timer {
    pub const COUNTERS: usize = 3;

    // A1-A0
    pub const PORTS: u8 = 4;

    // the control port among them, which is not open to reads
    pub const CONTROL: u8 = 3;

    // Three counters at their reset.
    #[tactic(auto, unfolding(crate::specs::Timer::resets_of))]
    pub fn reset() -> Timer
        ensures { result ≡ resets_of }
    {
        Timer {
            counters: [Counter::reset(); Timer::COUNTERS],
        }
    }

    // A control word; 11 in D7-D6 is the multiple latch.
    #[tactic(auto, unfolding(crate::specs::Timer::controls_of, crate::specs::Timer::wrote_by))]
    fn control(mut self, word: u8) -> Result<Timer, Refusal>
        ensures { written_as self result ≡ controls_of self word }
    {
        let n = usize::from(word / 64);
        if n == 3 {
            return Err(Refusal::NotBuilt);
        }
        self.counters[n] = self.counters[n].control(word)?;
        Ok(self)
    }

    // A write at A1-A0 of a.
    #[tactic(auto, unfolding(crate::specs::Timer::writes_of, crate::specs::Timer::wrote_by))]
    pub fn write(mut self, a: u8, x: u8) -> Result<Timer, Refusal>
        ensures { written_as self result ≡ writes_of self a x }
    {
        let port = a % Timer::PORTS;
        if port == Timer::CONTROL {
            return self.control(x);
        }
        let n = usize::from(port);
        self.counters[n] = self.counters[n].write(x)?;
        Ok(self)
    }

    // A read at A1-A0 of a.
    #[tactic(auto, unfolding(crate::specs::Timer::reads_of, crate::specs::Timer::got_by))]
    pub fn read(mut self, a: u8) -> Result<(u8, Timer), Refusal>
        ensures { got_as self result ≡ reads_of self a }
    {
        let port = a % Timer::PORTS;
        if port == Timer::CONTROL {
            return Err(Refusal::NotThere);
        }
        let n = usize::from(port);
        let (byte, after) = self.counters[n].read()?;
        self.counters[n] = after;
        Ok((byte, self))
    }

    // One pulse of the one clock.
    #[tactic(auto, unfolding(crate::specs::Timer::pulses_of))]
    pub fn pulse(self) -> Timer
        ensures { result ≡ pulses_of self }
    {
        Timer {
            counters: self.counters.map(Counter::pulse),
        }
    }

    // Bits 0 to 2 are the levels of GATE0 to GATE2.
    #[tactic(auto, unfolding(crate::specs::Timer::gates_of))]
    pub fn set_gates(self, levels: u8) -> Timer
        ensures { result ≡ gates_of self levels }
    {
        let [a, b, c] = self.counters;
        Timer {
            counters: [
                a.set_gate(bits::bit(levels, 0)),
                b.set_gate(bits::bit(levels, 1)),
                c.set_gate(bits::bit(levels, 2)),
            ],
        }
    }

    // OUT0 to OUT2 as bits 0 to 2.
    #[tactic(auto, unfolding(crate::specs::Timer::outs_of))]
    pub fn outs(self) -> u8
        ensures value { result ≡ outs_of self }
        ensures upper_bound { result ≤ 7 }
    {
        let [a, b, c] = self.counters;
        bits::weigh(a.out, 1) + bits::weigh(b.out, 2) + bits::weigh(c.out, 4)
    }
}
