// The board: the chips and their wiring, and what a record does to them.
// What stands over a chip or two by itself is public for the loop (`records`), which owns the chips and has no board in its hands.
#![tactic(auto)]

ghost use Rattle.std.specs.Prelude.{◌≡◌, Bool, not, ◌++◌, ◌∷◌, [], ltb, if◌then◌else◌};
ghost use Rattle.bits.specs.Choice.{◌and◌};
ghost use Rattle.icu.specs.declared.Icu.{Icu};
ghost use Rattle.icu.specs.Words as IcuWords;
ghost use Rattle.icu.specs.Service as IcuService;
ghost use Rattle.timer.specs.Timer.{gates_of};
ghost use Rattle.tape.specs.Records.{uses_bus};
ghost use Rattle.tape.specs.Answers.{twelve, little_of};
ghost use Rattle.dma.specs.Registers.{requested_of};
ghost use Rattle.dma.specs.Report.{told};
ghost use Rattle.board.specs.Wiring.{intp_is, timer_is, dma_is, lines_by, lines_at, levels_of, fresh_of, levels_at, wired_to, followed, lines, reset_of};
ghost use Rattle.board.specs.Operations.{done, turn_of, flag_of, payload_of, a0, icu_told, icu_written, icu_shown, slave_lines, dma_written, timer_written, slave_written, dma_shown, timer_shown, slave_shown, slave_gives, acknowledge_of, write_of, read_of, cycle_of, cycle_memory};
ghost use Rattle.board.specs.Advance.{advanced_of, rises_payload, advance_of};
ghost use Rattle.board.specs.Step.{step_of, step_memory, answered_of, execute_of, memory_after};

use dma::{Dma, Report};
use icu::{Icu, Named, Refusal};
use tape::Operation;
use timer::Timer;

// The bytes of a cut record, which wait for the next call.
#[repr(C)]
#[derive(Clone, Copy, PartialEq, Eq)]
pub struct Kept {
    pub bytes: [u8; 7],
    pub length: u8,
}

#[repr(C)]
#[derive(Clone, Copy, PartialEq, Eq)]
pub struct Board {
    // the master
    pub icu: Icu,
    // the levels of INTP1 to INTP7; INTP0 is OUT0, and no bit of this
    pub intp: u8,
    // the slave, whose INT is joined to INTP7, and the levels of its own INTP0 to INTP7
    pub slave: Icu,
    pub slaveintp: u8,
    pub timer: Timer,
    pub dma: Dma,
    pub kept: Kept,
}

// What an interrupt chip does in its turn: the chip afterwards, and the status, data and payload of its answer.
#[derive(Clone, Copy)]
pub struct Turn {
    pub icu: Icu,
    pub status: u8,
    pub byte: u8,
    pub payload: [u8; 12],
}

impl Turn {
    fn told(icu: Icu, byte: u8) -> Turn
        ensures { result ≡ record { icu = icu; status = 0; byte = byte; payload = twelve [] } }
    {
        Turn {
            icu,
            status: 0,
            byte,
            payload: [0; 12],
        }
    }

    // Refused by number: the chip stays as it was.
    fn refused(icu: Icu, status: u8) -> Turn
        ensures { result ≡ record { icu = icu; status = status; byte = 0; payload = twelve [] } }
    {
        Turn {
            icu,
            status,
            byte: 0,
            payload: [0; 12],
        }
    }
}

// The interrupt chip once its lines have changed, and the levels that an answer then shows.
#[derive(Clone, Copy)]
pub struct Wired {
    pub icu: Icu,
    pub levels: u8,
}

#[derive(Clone, Copy)]
pub struct Stepped {
    pub board: Board,
    pub answer: [u8; 16],
}

// What n pulses make of the timer and the interrupt chip, and how many made each OUT rise.
#[derive(Clone, Copy)]
pub struct Run {
    pub timer: Timer,
    pub icu: Icu,
    pub rises: [u32; 3],
}

// The interrupt chip's eight lines, line 0 at a level.
fn lines_by(intp: u8, out0: bool) -> u8
    ensures { result ≡ lines_by intp out0 }
{
    if out0 {
        bits::with(intp, 0)
    } else {
        bits::without(intp, 0)
    }
}

pub fn lines_at(intp: u8, timer: Timer) -> u8
    ensures { result ≡ lines_at intp timer }
{
    lines_by(intp, timer.counters[0].out)
}

// The level of OUT0 before its last change: where it rose, the other one than now.
fn before_change(was: bool, now: bool, rises: u32) -> bool
    ensures { result ≡ (if ltb 0 rises then not now else was) }
{
    if 0 < rises { !now } else { was }
}

// n pulses, counter by counter. The interrupt chip keeps no more of them than the last change of OUT0.
pub fn run_pulses(timer: Timer, icu: Icu, intp: u8, n: u32) -> Run
    ensures { result ≡ advanced_of intp timer icu n }
{
    // for the proof: then the timer is itself, and not three counters put together
    if n == 0 {
        return Run {
            timer,
            icu,
            rises: [0, 0, 0],
        };
    }
    let a = timer.counters[0];
    let ra = a.run(n);
    let rb = timer.counters[1].run(n);
    let rc = timer.counters[2].run(n);
    let na = ra.counter;
    let from = before_change(a.out, na.out, ra.rises);
    Run {
        timer: Timer {
            counters: [na, rb.counter, rc.counter],
        },
        icu: icu.lines(lines_by(intp, from), lines_by(intp, na.out)),
        rises: [ra.rises, rb.rises, rc.rises],
    }
}

// A unit as payload.
pub fn moved_payload(
    channel: u8,
    end: bool,
    stopped: bool,
    address: u32,
    outside: bool,
    upper: u8,
) -> [u8; 12]
    ensures { result ≡ twelve (2 ∷ channel ∷ flag_of end ∷ flag_of stopped ∷ little_of address ++ flag_of outside ∷ upper ∷ []) }
{
    let a = address.to_le_bytes();
    let e = u8::from(end);
    let s = u8::from(stopped);
    let o = u8::from(outside);
    [2, channel, e, s, a[0], a[1], a[2], a[3], o, upper, 0, 0]
}

// A cycle's report as payload.
pub fn payload(report: Report) -> [u8; 12]
    ensures { result ≡ twelve (payload_of (told report)) }
{
    match report {
        Report::Nothing => [0; 12],
        Report::Granted(n) => [1, n, 0, 0, 0, 0, 0, 0, 0, 0, 0, 0],
        Report::Moved(u) => {
            moved_payload(u.channel, u.end, u.stopped, u.address, u.outside, u.upper)
        }
        Report::Released(n) => [3, n, 0, 1, 0, 0, 0, 0, 0, 0, 0, 0],
    }
}

// The data of a report: the byte moved.
pub fn byte_moved(report: Report) -> u8
    ensures { result ≡ (told report).byte }
{
    match report {
        Report::Moved(u) => u.byte,
        _ => 0,
    }
}

// Three rise counts as payload.
pub fn rises_payload(rises: [u32; 3]) -> [u8; 12]
    ensures { result ≡ twelve (rises_payload rises) }
{
    let mut p = [0; 12];
    p[..4].copy_from_slice(&rises[0].to_le_bytes());
    p[4..8].copy_from_slice(&rises[1].to_le_bytes());
    p[8..].copy_from_slice(&rises[2].to_le_bytes());
    p
}

// The levels of an answer: OUT0 to OUT2, and INT.
pub fn levels_at(icu: Icu, intp: u8, timer: Timer) -> u8
    ensures { result ≡ levels_at icu intp timer }
{
    timer.outs() + 8 * u8::from(icu.int(lines_at(intp, timer)))
}

// Other INTP levels or another timer: what changed of the eight lines reaches the interrupt chip.
pub fn rewire(icu: Icu, intp: u8, timer: Timer, new_intp: u8, new_timer: Timer) -> Wired
    ensures { result ≡ wired_to icu (lines_at intp timer) new_intp new_timer }
{
    let next = icu.lines(lines_at(intp, timer), lines_at(new_intp, new_timer));
    Wired {
        icu: next,
        levels: levels_at(next, new_intp, new_timer),
    }
}

pub fn write_icu(icu: Icu, iw3: u8, a0: bool, x: u8) -> Turn
    ensures { result ≡ turn_of (IcuWords.write_of icu iw3 a0 x) }
{
    match icu.write(iw3, a0, x) {
        Ok(c) => Turn::told(c, 0),
        Err(Refusal::OutOfTurn) => Turn::refused(icu, 3),
        Err(Refusal::NotBuilt) => Turn::refused(icu, 4),
    }
}

pub fn read_icu(icu: Icu, a0: bool, lines: u8) -> Turn
    ensures { result ≡ turn_of (IcuService.read_of icu a0 lines) }
{
    match icu.read(a0, lines) {
        Some(x) => Turn::told(icu, x),
        None => Turn::refused(icu, 3),
    }
}

pub fn acknowledge(icu: Icu, lines: u8) -> Turn
    ensures { result ≡ turn_of (IcuService.acknowledge_of icu lines) }
{
    match icu.acknowledge(lines) {
        Some((c, Named::Vector(x))) => Turn::told(c, x),
        Some((c, Named::Call(low, high))) => Turn {
            icu: c,
            status: 0,
            byte: 0,
            payload: [0xcd, low, high, 0, 0, 0, 0, 0, 0, 0, 0, 0],
        },
        None => Turn::refused(icu, 3),
    }
}

// Whether a served DMA channel keeps the processor off the bus.
pub fn is_blocked(serving: bool, o: Operation) -> bool
    ensures { result ≡ serving and uses_bus o }
{
    serving && o.uses_bus()
}

impl Board {
    // Every chip at its reset, every line low but the gates, no bytes kept.
    pub fn reset() -> Board
        ensures { result ≡ fresh_of }
    {
        Board {
            icu: Icu::reset(),
            intp: 0,
            slave: Icu::reset(),
            slaveintp: 0,
            timer: Timer::reset(),
            dma: Dma::reset(),
            kept: Kept {
                bytes: [0; 7],
                length: 0,
            },
        }
    }

    // OUT0 to OUT2 and INT.
    pub fn levels(self) -> u8
        ensures { result ≡ levels_of self }
    {
        levels_at(
            self.icu,
            cascade::join(self.intp, self.slave, self.slaveintp),
            self.timer,
        )
    }

    // The master's eight lines.
    fn lines(self) -> u8
        ensures { result ≡ lines self }
    {
        lines_at(
            cascade::join(self.intp, self.slave, self.slaveintp),
            self.timer,
        )
    }

    // The master sees its lines go from those of the board before a record to those of the board that the record has made.
    fn follow(self, was: Board) -> Board
        ensures { result ≡ followed was self }
    {
        Board {
            icu: self.icu.lines(was.lines(), self.lines()),
            ..self
        }
    }

    // What a record comes to: this board, and the answer. `op` is the record's first byte, which the answer repeats.
    fn tell(self, op: u8, status: u8, byte: u8, payload: [u8; 12]) -> Stepped
        ensures { result ≡ answered_of op (record { status = status; board = self; byte = byte; payload = payload }) }
    {
        Stepped {
            board: self,
            answer: tape::answer(status, op, byte, self.levels(), payload),
        }
    }

    // The same, where an interrupt chip says what to tell.
    fn tell_turn(self, op: u8, t: Turn) -> Stepped
        ensures { result ≡ answered_of op (record { status = t.status; board = self; byte = t.byte; payload = t.payload }) }
    {
        self.tell(op, t.status, t.byte, t.payload)
    }

    fn write_master(self, op: u8, port: u8, x: u8) -> Stepped
        ensures { result ≡ answered_of op (icu_told self (icu_written self (a0 port) x)) }
    {
        let t = write_icu(self.icu, cascade::MASTER_IW3, port % Icu::PORTS == 1, x);
        Board { icu: t.icu, ..self }.tell_turn(op, t)
    }

    // OUT0 may change, and reaches the master at once.
    #[tactic(auto, using(crate::proofs::Refusals::never_0), unfolding(crate::specs::Step::answered_of, crate::specs::Operations::timer_written))]
    fn write_timer(self, op: u8, port: u8, x: u8) -> Stepped
        ensures { result ≡ answered_of op (timer_written self port x) }
    {
        match self.timer.write(port, x) {
            Ok(timer) => Board { timer, ..self }.follow(self).tell(op, 0, 0, [0; 12]),
            Err(refusal) => self.tell(op, refusal.status(), 0, [0; 12]),
        }
    }

    #[tactic(auto, using(dma::proofs::Refusals::never_0), unfolding(crate::specs::Step::answered_of, crate::specs::Operations::dma_written))]
    fn write_dma(self, op: u8, port: u8, x: u8) -> Stepped
        ensures { result ≡ answered_of op (dma_written self port x) }
    {
        match self.dma.write(port, x) {
            Ok(dma) => Board { dma, ..self }.tell(op, 0, 0, [0; 12]),
            Err(refusal) => self.tell(op, refusal.status(), 0, [0; 12]),
        }
    }

    // The slave's INT may change, and line 7 with it.
    fn write_slave(self, op: u8, port: u8, x: u8) -> Stepped
        ensures { result ≡ answered_of op (slave_written self (a0 port) x) }
    {
        let t = write_icu(self.slave, cascade::SLAVE_IW3, port % Icu::PORTS == 1, x);
        if t.status == 0 {
            let next = Board {
                slave: t.icu,
                ..self
            };
            return next.follow(self).tell(op, 0, 0, [0; 12]);
        }
        self.tell(op, t.status, 0, [0; 12])
    }

    // The port's high digit names the chip: 0 master, 1 timer, 2 DMA chip, 3 slave.
    fn step_write(self, op: u8, port: u8, x: u8) -> Stepped
        ensures { result ≡ answered_of op (write_of self port x) }
    {
        match port / 16 {
            0 => self.write_master(op, port, x),
            1 => self.write_timer(op, port, x),
            2 => self.write_dma(op, port, x),
            _ => self.write_slave(op, port, x),
        }
    }

    fn read_master(self, op: u8, port: u8) -> Stepped
        ensures { result ≡ answered_of op (icu_told self (icu_shown self (a0 port))) }
    {
        let t = read_icu(self.icu, port % Icu::PORTS == 1, self.lines());
        Board { icu: t.icu, ..self }.tell_turn(op, t)
    }

    #[tactic(auto, using(crate::proofs::Refusals::never_0), unfolding(crate::specs::Step::answered_of, crate::specs::Operations::timer_shown))]
    fn read_timer(self, op: u8, port: u8) -> Stepped
        ensures { result ≡ answered_of op (timer_shown self port) }
    {
        match self.timer.read(port) {
            Ok((byte, timer)) => Board { timer, ..self }.tell(op, 0, byte, [0; 12]),
            Err(refusal) => self.tell(op, refusal.status(), 0, [0; 12]),
        }
    }

    #[tactic(auto, using(dma::proofs::Refusals::never_0), unfolding(crate::specs::Step::answered_of, crate::specs::Operations::dma_shown))]
    fn read_dma(self, op: u8, port: u8) -> Stepped
        ensures { result ≡ answered_of op (dma_shown self port) }
    {
        match self.dma.read(port) {
            Ok((byte, dma)) => Board { dma, ..self }.tell(op, 0, byte, [0; 12]),
            Err(refusal) => self.tell(op, refusal.status(), 0, [0; 12]),
        }
    }

    fn read_slave(self, op: u8, port: u8) -> Stepped
        ensures { result ≡ answered_of op (slave_shown self (a0 port)) }
    {
        self.tell_turn(
            op,
            read_icu(self.slave, port % Icu::PORTS == 1, self.slaveintp),
        )
    }

    fn step_read(self, op: u8, port: u8) -> Stepped
        ensures { result ≡ answered_of op (read_of self port) }
    {
        match port / 16 {
            0 => self.read_master(op, port),
            1 => self.read_timer(op, port),
            2 => self.read_dma(op, port),
            _ => self.read_slave(op, port),
        }
    }

    // The bytes of a cut record outlast a reset.
    fn step_reset(self, op: u8) -> Stepped
        ensures { result ≡ answered_of op (done (reset_of self)) }
    {
        let next = Board {
            kept: self.kept,
            ..Board::reset()
        };
        next.tell(op, 0, 0, [0; 12])
    }

    fn step_intp(self, op: u8, x: u8) -> Stepped
        ensures { result ≡ answered_of op (done (followed self (intp_is x self))) }
    {
        let next = Board { intp: x, ..self };
        next.follow(self).tell(op, 0, 0, [0; 12])
    }

    // A gate's fall may set OUT0 high.
    fn step_gates(self, op: u8, x: u8) -> Stepped
        ensures { result ≡ answered_of op (done (followed self (timer_is (gates_of self.timer x) self))) }
    {
        let next = Board {
            timer: self.timer.set_gates(x),
            ..self
        };
        next.follow(self).tell(op, 0, 0, [0; 12])
    }

    fn step_requests(self, op: u8, x: u8) -> Stepped
        ensures { result ≡ answered_of op (done (dma_is (requested_of self.dma x) self)) }
    {
        let next = Board {
            dma: self.dma.set_requests(x),
            ..self
        };
        next.tell(op, 0, 0, [0; 12])
    }

    // The slave's own lines; its INT may change, and line 7 with it.
    fn step_slave_intp(self, op: u8, x: u8) -> Stepped
        ensures { result ≡ answered_of op (done (followed self (slave_lines self x))) }
    {
        let next = Board {
            slave: self.slave.lines(self.slaveintp, x),
            slaveintp: x,
            ..self
        };
        next.follow(self).tell(op, 0, 0, [0; 12])
    }

    // Level 7 is taken and passed on: the slave gives the bytes, and line 7 follows.
    fn pass_on(self, op: u8) -> Stepped
        ensures { result ≡ answered_of op (slave_gives self) }
    {
        let t = acknowledge(self.slave, self.slaveintp);
        let next = Board {
            icu: self.icu.serve(Some(7)),
            slave: t.icu,
            ..self
        };
        next.follow(self).tell_turn(op, t)
    }

    // An interrupt chip gives the vector or the CALL; status 3 where neither answers.
    fn step_acknowledge(self, op: u8) -> Stepped
        ensures { result ≡ answered_of op (acknowledge_of self) }
    {
        let lines = self.lines();
        if cascade::is_passed_on(self.icu, lines, self.slave) {
            return self.pass_on(op);
        }
        if cascade::is_answered(self.icu, self.slave) {
            let t = acknowledge(self.icu, lines);
            return Board { icu: t.icu, ..self }.tell_turn(op, t);
        }
        self.tell(op, 3, 0, [0; 12])
    }

    fn step_advance(self, op: u8, n: u32) -> Stepped
        ensures { result ≡ answered_of op (advance_of self n) }
    {
        let joined = cascade::join(self.intp, self.slave, self.slaveintp);
        let a = run_pulses(self.timer, self.icu, joined, n);
        let next = Board {
            icu: a.icu,
            timer: a.timer,
            ..self
        };
        next.tell(op, 0, 0, rises_payload(a.rises))
    }

    fn step_cycle(self, op: u8, end: bool, x: u8, upper: u8, memory: &mut [u8]) -> Stepped
        ensures result { result ≡ answered_of op (cycle_of self end x upper memory.old) }
        ensures memory { memory.new ≡ cycle_memory self end x upper memory.old }
    {
        let c = self.dma.cycle(end, x, upper, memory);
        let next = Board { dma: c.dma, ..self };
        next.tell(op, 0, byte_moved(c.report), payload(c.report))
    }

    fn execute(self, op: u8, o: Operation, memory: &mut [u8]) -> Stepped
        ensures result { result ≡ answered_of op (execute_of self o memory.old) }
        ensures memory { memory.new ≡ memory_after self o memory.old }
    {
        match o {
            Operation::Reset => self.step_reset(op),
            Operation::Write(port, x) => self.step_write(op, port, x),
            Operation::Read(port) => self.step_read(op, port),
            Operation::Intp(x) => self.step_intp(op, x),
            Operation::Gates(x) => self.step_gates(op, x),
            Operation::Requests(x) => self.step_requests(op, x),
            Operation::SlaveIntp(x) => self.step_slave_intp(op, x),
            Operation::Acknowledge => self.step_acknowledge(op),
            Operation::Advance(n) => self.step_advance(op, n),
            Operation::Cycle(end, x, upper) => self.step_cycle(op, end, x, upper, memory),
        }
    }

    // One record. (The loop over the records of a tape is `records::run`, which owns the chips and moves none; both are `step_of`.)
    pub fn step(self, r: [u8; 8], memory: &mut [u8]) -> Stepped
        ensures result { result ≡ step_of self r memory.old }
        ensures memory { memory.new ≡ step_memory self r memory.old }
    {
        let op = r[0];
        // not a record at all
        let Some(o) = tape::decode(r) else {
            return self.tell(op, 2, 0, [0; 12]);
        };
        // the bus is with a DMA channel
        if is_blocked(self.dma.serving, o) {
            return self.tell(op, 1, 0, [0; 12]);
        }
        self.execute(op, o, memory)
    }
}
