// The loop over the records of a tape.
#![tactic(auto)]

ghost use Rattle.std.specs.Prelude.{◌≡◌, ◌++◌, ◌+◌, ◌*◌, ◌≤◌, length, take, drop};
ghost use Rattle.std.proofs.Math.Seq.{paste};
ghost use Rattle.tape.specs.Answers.{answer_of};
ghost use Rattle.board.specs.Records.{record_at, fitting, run_of};

use board::Board;
use dma::Dma;
use icu::Icu;
use std::array;
use tape::{Input, Operation};
use timer::Timer;

// Record i.
fn record_at(input: &Input, i: usize) -> [u8; 8]
    requires { 8 * i + 8 ≤ length input.now }
    ensures { result ≡ record_at input.now i }
{
    let held = tape::held(input.size);
    let at = 8 * i;
    if held <= at {
        let mut r = [0; 8];
        r.copy_from_slice(&input.tape[at - held..at - held + 8]);
        r
    } else {
        array::from_fn(|j| input.byte_at(at + j))
    }
}

// The answer of record i.
fn tell(to: &mut [u8], i: usize, status: u8, op: u8, byte: u8, levels: u8, payload: [u8; 12])
    requires { 16 * i + 16 ≤ length to.old }
    ensures { to.new ≡ paste to.old (16 * i) (answer_of status op byte levels payload) 16 }
{
    let a = tape::answer(status, op, byte, levels, payload);
    to[16 * i..16 * i + 16].copy_from_slice(&a);
}

// The whole records that some kept bytes and the tape make, one after another, as many as the buffer has room for. The loop owns the chips,
// and each operation is an arm that changes its own chip, puts its answer and goes on to the next record. The
// bytes that the board itself keeps stay as they are.
pub fn run(
    board: Board,
    kept: [u8; 7],
    size: u8,
    tape: &[u8],
    memory: &mut [u8],
    answers: &mut [u8],
) -> Board
    ensures result { result ≡ (run_of board memory.old (take size kept ++ tape.now) (length answers.old)).board }
    ensures memory { memory.new ≡ (run_of board memory.old (take size kept ++ tape.now) (length answers.old)).memory }
    ensures answers { answers.new ≡ (run_of board memory.old (take size kept ++ tape.now) (length answers.old)).answers ++ drop (16 * fitting (take size kept ++ tape.now) (length answers.old)) answers.old }
{
    let waiting = board.kept;
    let input = Input { kept, size, tape };
    let k = (input.count_bytes() / 8).min(answers.len() / 16);
    let mut levels = board.levels();
    let mut icu = board.icu;
    let mut intp = board.intp;
    let mut slave = board.slave;
    let mut slaveintp = board.slaveintp;
    // INTP as the master has them, with the slave's INT on line 7
    let mut joined = cascade::join(intp, slave, slaveintp);
    let mut timer = board.timer;
    let mut dma = board.dma;
    for i in 0..k {
        let r = record_at(&input, i);
        let op = r[0];
        // not a record at all
        let Some(o) = tape::decode(r) else {
            tell(answers, i, 2, op, 0, levels, [0; 12]);
            continue;
        };
        // the bus is with a DMA channel
        if board::is_blocked(dma.serving, o) {
            tell(answers, i, 1, op, 0, levels, [0; 12]);
            continue;
        }
        match o {
            // the chips at their reset, INTP, the slave's lines and the DMA requests low; the memory stays
            Operation::Reset => {
                icu = Icu::reset();
                intp = 0;
                slave = Icu::reset();
                slaveintp = 0;
                joined = 0;
                timer = Timer::reset();
                dma = Dma::reset();
                levels = 0;
                tell(answers, i, 0, op, 0, levels, [0; 12]);
                continue;
            }
            // the chip that the port's high digit names: 0 master, 1 timer, 2 DMA chip, 3 slave
            Operation::Write(port, x) => match port / 16 {
                0 => {
                    let t = board::write_icu(icu, cascade::MASTER_IW3, port % Icu::PORTS == 1, x);
                    icu = t.icu;
                    levels = board::levels_at(icu, joined, timer);
                    tell(answers, i, t.status, op, t.byte, levels, t.payload);
                    continue;
                }
                // OUT0 may change, and reaches the interrupt chip at once
                1 => match timer.write(port, x) {
                    Ok(after) => {
                        let wired = board::rewire(icu, joined, timer, joined, after);
                        icu = wired.icu;
                        timer = after;
                        levels = wired.levels;
                        tell(answers, i, 0, op, 0, levels, [0; 12]);
                        continue;
                    }
                    Err(refusal) => {
                        tell(answers, i, refusal.status(), op, 0, levels, [0; 12]);
                        continue;
                    }
                },
                2 => match dma.write(port, x) {
                    Ok(after) => {
                        dma = after;
                        tell(answers, i, 0, op, 0, levels, [0; 12]);
                        continue;
                    }
                    Err(refusal) => {
                        tell(answers, i, refusal.status(), op, 0, levels, [0; 12]);
                        continue;
                    }
                },
                // the slave's INT may change, and line 7 with it
                _ => {
                    let t = board::write_icu(slave, cascade::SLAVE_IW3, port % Icu::PORTS == 1, x);
                    if t.status == 0 {
                        let after = t.icu;
                        let now = cascade::join(intp, after, slaveintp);
                        let wired = board::rewire(icu, joined, timer, now, timer);
                        icu = wired.icu;
                        slave = after;
                        joined = now;
                        levels = wired.levels;
                        tell(answers, i, 0, op, 0, levels, [0; 12]);
                        continue;
                    }
                    tell(answers, i, t.status, op, 0, levels, [0; 12]);
                    continue;
                }
            },
            // likewise; no level changes
            Operation::Read(port) => match port / 16 {
                0 => {
                    let lines = board::lines_at(joined, timer);
                    let t = board::read_icu(icu, port % Icu::PORTS == 1, lines);
                    tell(answers, i, t.status, op, t.byte, levels, t.payload);
                    continue;
                }
                // port 13H is not open to reads, so this is a counter's: `% 3` keeps the index in range and changes nothing
                1 => {
                    let n = (port % Timer::PORTS % 3) as usize;
                    match timer.counters[n].look() {
                        Ok(shown) => {
                            let mut c = timer.counters[n];
                            c.latched = shown.latched;
                            c.second = shown.second;
                            timer.counters[n] = c;
                            tell(answers, i, 0, op, shown.byte, levels, [0; 12]);
                            continue;
                        }
                        Err(refusal) => {
                            tell(answers, i, refusal.status(), op, 0, levels, [0; 12]);
                            continue;
                        }
                    }
                }
                2 => match dma.look(port) {
                    Ok(shown) => {
                        dma.ends = shown.ends;
                        tell(answers, i, 0, op, shown.byte, levels, [0; 12]);
                        continue;
                    }
                    Err(refusal) => {
                        tell(answers, i, refusal.status(), op, 0, levels, [0; 12]);
                        continue;
                    }
                },
                _ => {
                    let t = board::read_icu(slave, port % Icu::PORTS == 1, slaveintp);
                    tell(answers, i, t.status, op, t.byte, levels, t.payload);
                    continue;
                }
            },
            // INTP1 to INTP7; INTP0 is OUT0
            Operation::Intp(x) => {
                let now = cascade::join(x, slave, slaveintp);
                let wired = board::rewire(icu, joined, timer, now, timer);
                icu = wired.icu;
                intp = x;
                joined = now;
                levels = wired.levels;
                tell(answers, i, 0, op, 0, levels, [0; 12]);
                continue;
            }
            // a gate's fall may set OUT0 high
            Operation::Gates(x) => {
                let after = timer.set_gates(x);
                let wired = board::rewire(icu, joined, timer, joined, after);
                icu = wired.icu;
                timer = after;
                levels = wired.levels;
                tell(answers, i, 0, op, 0, levels, [0; 12]);
                continue;
            }
            Operation::Requests(x) => {
                dma = dma.set_requests(x);
                tell(answers, i, 0, op, 0, levels, [0; 12]);
                continue;
            }
            // the slave's own lines; its INT may change, and line 7 with it
            Operation::SlaveIntp(x) => {
                let after = slave.lines(slaveintp, x);
                let now = cascade::join(intp, after, x);
                let wired = board::rewire(icu, joined, timer, now, timer);
                icu = wired.icu;
                slave = after;
                slaveintp = x;
                joined = now;
                levels = wired.levels;
                tell(answers, i, 0, op, 0, levels, [0; 12]);
                continue;
            }
            // an interrupt chip gives the vector or the CALL
            Operation::Acknowledge => {
                let lines = board::lines_at(joined, timer);
                // level 7 is taken and passed on: the slave gives the bytes, and line 7 follows
                if cascade::is_passed_on(icu, lines, slave) {
                    let t = board::acknowledge(slave, slaveintp);
                    let after = t.icu;
                    let now = cascade::join(intp, after, slaveintp);
                    let wired = board::rewire(icu.serve(Some(7)), joined, timer, now, timer);
                    icu = wired.icu;
                    slave = after;
                    joined = now;
                    levels = wired.levels;
                    tell(answers, i, t.status, op, t.byte, levels, t.payload);
                    continue;
                }
                if cascade::is_answered(icu, slave) {
                    let t = board::acknowledge(icu, lines);
                    icu = t.icu;
                    levels = board::levels_at(icu, joined, timer);
                    tell(answers, i, t.status, op, t.byte, levels, t.payload);
                    continue;
                }
                tell(answers, i, 3, op, 0, levels, [0; 12]);
                continue;
            }
            // one clock for the three counters; OUT0 reaches the interrupt chip after each pulse
            Operation::Advance(n) => {
                let a = board::run_pulses(timer, icu, joined, n);
                timer = a.timer;
                icu = a.icu;
                levels = board::levels_at(icu, joined, timer);
                tell(answers, i, 0, op, 0, levels, board::rises_payload(a.rises));
                continue;
            }
            // of the DMA chip a plain unit changes its channel alone, and is done here; `Dma::cycle` does any other cycle
            Operation::Cycle(end, x, upper) => {
                let n = dma.channel;
                let at = (n % 4) as usize;
                let c = dma.channels[at];
                if dma::is_plain(c, dma.serving, n, dma.requests, end) {
                    let carried = c.transfer(x, upper, memory);
                    dma.channels[at] = c.advance(false);
                    let p = board::moved_payload(
                        n,
                        false,
                        false,
                        c.current.address,
                        carried.outside,
                        carried.upper,
                    );
                    tell(answers, i, 0, op, carried.byte, levels, p);
                    continue;
                }
                let cycled = dma.cycle(end, x, upper, memory);
                let report = cycled.report;
                dma = cycled.dma;
                tell(
                    answers,
                    i,
                    0,
                    op,
                    board::byte_moved(report),
                    levels,
                    board::payload(report),
                );
                continue;
            }
        }
    }
    Board {
        icu,
        intp,
        slave,
        slaveintp,
        timer,
        dma,
        kept: waiting,
    }
}
