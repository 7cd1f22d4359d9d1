// Two interrupt chips, the slave's INT on line 7 of the master. Each keeps to the rules of the crate `icu`; here is what comes of the wire between them.
#![tactic(auto)]

ghost use Rattle.std.specs.Prelude.{◌≡◌};
ghost use Rattle.cascade.specs.Cascade.{joined_of, set_up_of, answerer_of, answered, passed_on};

use icu::Icu;

// IW3 of each: a bit for the line with a slave on it, and the number of that line.
pub const MASTER_IW3: u8 = 0x80;

pub const SLAVE_IW3: u8 = 0x07;

// How a chip is set up, by IW1 once it is ready.
#[derive(Clone, Copy, PartialEq, Eq)]
pub enum SetUp {
    Unready,
    Single,
    Extended,
}

// Who answers an acknowledge.
#[derive(Clone, Copy, PartialEq, Eq)]
pub enum Answerer {
    Nobody,
    Master,
    Both,
}

// INTP as the master has them: line 7 is INTP7 or the slave's INT.
#[tactic(auto, unfolding(crate::specs::Cascade::joined_of))]
pub fn join(intp: u8, slave: Icu, slaveintp: u8) -> u8
    ensures { result ≡ joined_of intp slave slaveintp }
{
    if slave.int(slaveintp) {
        bits::with(intp, 7)
    } else {
        intp
    }
}

pub fn set_up(chip: Icu) -> SetUp
    ensures { result ≡ set_up_of chip }
{
    if chip.stage != Icu::READY {
        SetUp::Unready
    } else if bits::bit(chip.iw1, 1) {
        SetUp::Single
    } else {
        SetUp::Extended
    }
}

// Who answers an acknowledge, as the two chips are set up. Two extended ones have to agree on the bytes: both give vectors, or both give CALLs.
#[tactic(auto, unfolding(crate::specs::Cascade::answerer_of))]
pub fn who_answers(master: Icu, slave: Icu) -> Answerer
    ensures { result ≡ answerer_of master slave }
{
    match (set_up(master), set_up(slave)) {
        (SetUp::Single, SetUp::Unready | SetUp::Single) => Answerer::Master,
        (SetUp::Extended, SetUp::Extended) if master.vector == slave.vector => Answerer::Both,
        _ => Answerer::Nobody,
    }
}

// Whether an acknowledge is in turn.
#[tactic(auto, unfolding(crate::specs::Cascade::answered))]
pub fn is_answered(master: Icu, slave: Icu) -> bool
    ensures { result ≡ answered master slave }
{
    who_answers(master, slave) != Answerer::Nobody
}

// Whether the slave gives the bytes: both answer, and the master takes level 7.
#[tactic(auto, unfolding(crate::specs::Cascade::passed_on))]
pub fn is_passed_on(master: Icu, lines: u8, slave: Icu) -> bool
    ensures { result ≡ passed_on master lines slave }
{
    who_answers(master, slave) == Answerer::Both && master.interrupting(lines) == Some(7)
}
