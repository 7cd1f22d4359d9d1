// The interrupt chip, a 71059: eight levels, one INT. Which others it is wired to (IW3), and what they do together, is not the chip's own
// matter: see the crate `cascade`.
// Not modelled: polling, the exceptional nesting mode, the bits of IW4 but two, the pins' timing.
#![tactic(auto)]

ghost use Rattle.std.specs.Prelude.{◌≡◌, ◌↔◌, ◌<◌, IsNone, IfSome, if◌then◌else◌};
ghost use Rattle.icu.specs.declared.Icu.{Icu};
ghost use Rattle.icu.specs.Answers.{written_as, got_as, acknowledged_as, named_as};
ghost use Rattle.icu.specs.Words.{reset_of, iw1, only_iw4, later_word, sets_exceptional, mcw, finished, pfcw, write_of};
ghost use Rattle.icu.specs.Ranks.{level_or_8, highest_of, rank_of};
ghost use Rattle.icu.specs.Requests.{irr_of, asked_of, int_of, lines_of};
ghost use Rattle.icu.specs.Service.{takes, served_by, vector_of, call_low_of, naming, acknowledge_of, read_of};

// What the chip holds. IRR is no field: it is the lines, or the edge requests. Neither is INT.
#[repr(C)]
#[derive(Clone, Copy, PartialEq, Eq)]
pub struct Icu {
    // which word A0=1 takes: none yet, IW2, IW3, IW4, or IMR when ready
    pub stage: u8,
    // IW1 as it was written: A7-A5, 1, LEV, AG4, SNGL, I4
    pub iw1: u8,
    pub iw2: u8,
    // of IW4: self-FI, and vector mode in place of CALL
    pub sfi: bool,
    pub vector: bool,
    // rotation in self-FI
    pub rotation: bool,
    // reads at A0=0 show ISR and not IRR
    pub showsisr: bool,
    pub edges: u8,
    pub isr: u8,
    pub imr: u8,
    pub lowest: u8,
}

// Why a write is refused.
#[derive(Clone, Copy, PartialEq, Eq)]
pub enum Refusal {
    OutOfTurn,
    NotBuilt,
}

// How a level is named to the processor: by a vector, or by the two address bytes of a CALL, low byte first.
#[derive(Clone, Copy, PartialEq, Eq)]
pub enum Named {
    Vector(u8),
    Call(u8, u8),
}

// The highest-ranked level whose bit is set in x. The level past the lowest has the first rank: with x turned right so that it is bit 0,
// the bits go down the ranks, and there are as many zero bits below the lowest one as ranks above the level.
#[tactic(auto, using(crate::proofs::Turned::none_set, crate::proofs::Turned::found))]
pub fn highest(x: u8, lowest: u8) -> Option<u8>
    ensures value { level_or_8 result ≡ highest_of x lowest }
    ensures level { IfSome result (λ n. n < 8) }
    ensures none { IsNone result ↔ (x ≡ 0) }
{
    if x == 0 {
        return None;
    }
    let first = (lowest % 8 + 1) % 8;
    let turned = x.rotate_right(u32::from(first));
    Some((first + turned.trailing_zeros() as u8) % 8)
}

// The same, rank by rank, as the rule has it: a loop whose `break` has the level. No chip uses it: the program `duel` holds `highest` against it.
#[tactic(auto, using(crate::proofs::Ranks::end, crate::proofs::Ranks::hit, crate::proofs::Ranks::miss), unfolding(crate::specs::Ranks::highest_of))]
pub fn highest_by_steps(x: u8, lowest: u8) -> Option<u8>
    ensures value { level_or_8 result ≡ highest_of x lowest }
    ensures level { IfSome result (λ n. n < 8) }
{
    let mut rank = 0;
    loop {
        if rank == Icu::LEVELS {
            break None;
        }
        let level = (lowest % 8 + 1 + rank) % 8;
        if bits::bit(x, level) {
            break Some(level);
        }
        rank += 1;
    }
}

// SNM and EXCN of an MCW, which set the exceptional nesting mode together.
fn sets_exceptional(x: u8) -> bool
    ensures { result ≡ sets_exceptional x }
{
    bits::bit(x, 6) && bits::bit(x, 5)
}

// How far below the highest rank a level stands.
#[tactic(auto, unfolding(crate::specs::Ranks::rank_of))]
fn rank(lowest: u8, level: u8) -> u8
    ensures { result ≡ rank_of lowest level }
{
    (level % 8 + 7 - lowest % 8) % 8
}

impl Icu {
    // A0
    pub const PORTS: u8 = 2;

    pub const LEVELS: u8 = 8;

    pub const NOT_STARTED: u8 = 0;

    pub const AWAITS_IW2: u8 = 1;

    pub const AWAITS_IW4: u8 = 2;

    pub const READY: u8 = 3;

    pub const AWAITS_IW3: u8 = 4;

    #[tactic(auto, unfolding(crate::specs::Words::reset_of))]
    pub fn reset() -> Icu
        ensures { result ≡ reset_of }
    {
        Icu {
            stage: Icu::NOT_STARTED,
            iw1: 0,
            iw2: 0,
            sfi: false,
            vector: false,
            rotation: false,
            showsisr: false,
            edges: 0,
            isr: 0,
            imr: 0,
            lowest: 7,
        }
    }

    // IW1: all but IW2 starts again.
    #[tactic(auto, unfolding(crate::specs::Words::reset_of, crate::specs::Words::iw1))]
    fn start(self, x: u8) -> Icu
        ensures { result ≡ iw1 self x }
    {
        Icu {
            stage: Icu::AWAITS_IW2,
            iw1: x,
            iw2: self.iw2,
            ..Icu::reset()
        }
    }

    // IW4 is next where IW1 announced it, and otherwise the chip is ready.
    fn await_iw4(self) -> Icu
        ensures { result ≡ only_iw4 self }
    {
        let stage = if bits::bit(self.iw1, 0) {
            Icu::AWAITS_IW4
        } else {
            Icu::READY
        };
        Icu { stage, ..self }
    }

    // A word at A0=1: IMR, IW2, IW3 or IW4, by what is awaited. Of IW3 the chip takes the one that fits its wiring.
    #[tactic(auto, unfolding(crate::specs::Words::later_word))]
    fn write_later(self, iw3: u8, x: u8) -> Result<Icu, Refusal>
        ensures { written_as self result ≡ later_word self iw3 x }
    {
        match self.stage {
            Icu::READY => Ok(Icu { imr: x, ..self }),
            Icu::AWAITS_IW2 => {
                let next = Icu { iw2: x, ..self };
                if bits::bit(self.iw1, 1) {
                    Ok(next.await_iw4())
                } else {
                    Ok(Icu {
                        stage: Icu::AWAITS_IW3,
                        ..next
                    })
                }
            }
            Icu::AWAITS_IW3 => {
                if x == iw3 {
                    Ok(self.await_iw4())
                } else {
                    Err(Refusal::NotBuilt)
                }
            }
            Icu::AWAITS_IW4 => Ok(Icu {
                stage: Icu::READY,
                sfi: bits::bit(x, 1),
                vector: bits::bit(x, 0),
                ..self
            }),
            _ => Err(Refusal::OutOfTurn),
        }
    }

    // MCW: which register a read at A0=0 shows.
    #[tactic(auto, unfolding(crate::specs::Words::mcw))]
    fn write_mcw(self, x: u8) -> Result<Icu, Refusal>
        ensures { written_as self result ≡ mcw self x }
    {
        if bits::bit(x, 2) || sets_exceptional(x) {
            Err(Refusal::NotBuilt)
        } else if bits::bit(x, 1) {
            Ok(Icu {
                showsisr: bits::bit(x, 0),
                ..self
            })
        } else {
            Ok(self)
        }
    }

    // The finish command without a level: the highest-ranked level in service ends, and no other.
    #[tactic(auto, unfolding(crate::specs::Words::finished))]
    fn finish(self, rotate: bool) -> Icu
        ensures { result ≡ finished self rotate }
    {
        let Some(n) = highest(self.isr, self.lowest) else {
            return self;
        };
        let others = bits::without(self.isr, n);
        let lowest = if rotate { n } else { self.lowest };
        Icu {
            isr: others,
            lowest,
            ..self
        }
    }

    // PFCW, by RP, SIL and FI, with the level it names.
    fn write_pfcw(self, x: u8) -> Icu
        ensures { result ≡ pfcw self x }
    {
        let n = x % 8;
        match x / 32 {
            0 => Icu {
                rotation: false,
                ..self
            },
            1 => self.finish(false),
            3 => Icu {
                isr: bits::without(self.isr, n),
                ..self
            },
            4 => Icu {
                rotation: true,
                ..self
            },
            5 => self.finish(true),
            6 => Icu { lowest: n, ..self },
            7 => Icu {
                isr: bits::without(self.isr, n),
                lowest: n,
                ..self
            },
            _ => self,
        }
    }

    // A byte written at A0, to a chip that IW3 wires so.
    #[tactic(auto, unfolding(crate::specs::Words::write_of))]
    pub fn write(self, iw3: u8, a0: bool, x: u8) -> Result<Icu, Refusal>
        ensures { written_as self result ≡ write_of self iw3 a0 x }
    {
        if a0 {
            self.write_later(iw3, x)
        } else if bits::bit(x, 4) {
            Ok(self.start(x))
        } else if self.stage != Icu::READY {
            Err(Refusal::OutOfTurn)
        } else if bits::bit(x, 3) {
            self.write_mcw(x)
        } else {
            Ok(self.write_pfcw(x))
        }
    }

    // IRR: in level trigger the lines as they are, in edge trigger the rises not yet acknowledged or withdrawn.
    #[tactic(auto, unfolding(crate::specs::Requests::irr_of))]
    pub fn irr(self, lines: u8) -> u8
        ensures { result ≡ irr_of self lines }
    {
        if bits::bit(self.iw1, 3) {
            lines
        } else {
            self.edges
        }
    }

    // The requested levels that IMR leaves.
    #[tactic(auto, unfolding(crate::specs::Requests::asked_of))]
    pub fn asked(self, lines: u8) -> u8
        ensures { result ≡ asked_of self lines }
    {
        bits::masked(self.irr(lines), self.imr)
    }

    // The level that INT is high for, which an acknowledge takes: the highest-ranked one asked for, where it outranks every level in service.
    pub fn interrupting(self, lines: u8) -> Option<u8>
        ensures { result ≡ (if int_of self lines then Some (takes self lines) else None) }
    {
        if self.stage != Icu::READY {
            return None;
        }
        let asked = highest(self.asked(lines), self.lowest)?;
        match highest(self.isr, self.lowest) {
            None => Some(asked),
            Some(served) if rank(self.lowest, asked) < rank(self.lowest, served) => Some(asked),
            Some(_) => None,
        }
    }

    // INT: whether some level asked for outranks every level in service.
    pub fn int(self, lines: u8) -> bool
        ensures { result ≡ int_of self lines }
    {
        self.interrupting(lines).is_some()
    }

    // The lines go from one set of levels to another: rises ask, falls withdraw.
    #[tactic(auto, unfolding(crate::specs::Requests::lines_of))]
    pub fn lines(self, was: u8, now: u8) -> Icu
        ensures { result ≡ lines_of self was now }
    {
        if self.stage != Icu::READY || bits::bit(self.iw1, 3) {
            return self;
        }
        let risen = bits::masked(now, was);
        let fallen = bits::masked(was, now);
        Icu {
            edges: bits::masked(self.edges | risen, fallen),
            ..self
        }
    }

    // An acknowledge takes a level, or with INT low none. The request of the level taken goes.
    #[tactic(auto, unfolding(crate::specs::Service::served_of))]
    fn edges_after(self, taken: Option<u8>) -> u8
        ensures { result ≡ (served_by self taken).edges }
    {
        match taken {
            Some(n) => bits::without(self.edges, n),
            None => self.edges,
        }
    }

    // Its ISR bit is set, but not in self-FI.
    #[tactic(auto, unfolding(crate::specs::Service::served_of))]
    fn isr_after(self, taken: Option<u8>) -> u8
        ensures { result ≡ (served_by self taken).isr }
    {
        match taken {
            Some(n) if !self.sfi => bits::with(self.isr, n),
            _ => self.isr,
        }
    }

    // In self-FI with rotation it becomes lowest.
    #[tactic(auto, unfolding(crate::specs::Service::served_of))]
    fn lowest_after(self, taken: Option<u8>) -> u8
        ensures { result ≡ (served_by self taken).lowest }
    {
        match taken {
            Some(n) if self.sfi && self.rotation => n,
            _ => self.lowest,
        }
    }

    // The chip once an acknowledge has taken a level, or none.
    #[tactic(auto, using(crate::proofs::Served::serves_whole))]
    pub fn serve(self, taken: Option<u8>) -> Icu
        ensures { result ≡ served_by self taken }
    {
        let edges = self.edges_after(taken);
        let isr = self.isr_after(taken);
        let lowest = self.lowest_after(taken);
        Icu {
            edges,
            isr,
            lowest,
            ..self
        }
    }

    // The vector of level n.
    #[tactic(auto, unfolding(crate::specs::Service::vector_of))]
    fn vector_of(self, n: u8) -> u8
        ensures { result ≡ vector_of self n }
    {
        self.iw2 / 8 * 8 + n % 8
    }

    // The low address byte of level n's CALL, 4 or 8 bytes apart.
    #[tactic(auto, unfolding(crate::specs::Service::call_low_of))]
    fn call_low(self, n: u8) -> u8
        ensures { result ≡ call_low_of self n }
    {
        if bits::bit(self.iw1, 2) {
            self.iw1 / 32 * 32 + n % 8 * 4
        } else {
            self.iw1 / 64 * 64 + n % 8 * 8
        }
    }

    // The bytes that name level n.
    fn name(self, n: u8) -> Named
        ensures { (after : Icu) → named_as after result ≡ naming self n after }
    {
        if self.vector {
            Named::Vector(self.vector_of(n))
        } else {
            Named::Call(self.call_low(n), self.iw2)
        }
    }

    // The processor acknowledges an interrupt: the chip afterwards, and the bytes that it gives. With INT low these are the bytes of level 7, and the chip stays as
    // it is. Before the chip is ready there is no answer.
    #[tactic(auto, unfolding(crate::specs::Service::acknowledge_of))]
    pub fn acknowledge(self, lines: u8) -> Option<(Icu, Named)>
        ensures { acknowledged_as self result ≡ acknowledge_of self lines }
    {
        if self.stage != Icu::READY {
            return None;
        }
        let taken = self.interrupting(lines);
        Some((self.serve(taken), self.name(taken.unwrap_or(7))))
    }

    // A read: IMR at A0=1, IRR or ISR at A0=0. Before the chip is ready there is no answer. It changes nothing.
    #[tactic(auto, unfolding(crate::specs::Service::read_of))]
    pub fn read(self, a0: bool, lines: u8) -> Option<u8>
        ensures { got_as self result ≡ read_of self a0 lines }
    {
        if self.stage != Icu::READY {
            None
        } else if a0 {
            Some(self.imr)
        } else if self.showsisr {
            Some(self.isr)
        } else {
            Some(self.irr(lines))
        }
    }
}
