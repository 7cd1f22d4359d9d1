// duel CHARTS..: holds the board of this repository, the first, and an independent second one against the charts of the files that it is given, and
// against each other on long tapes.
#![tactic(auto)]

mod first;
mod rounds;
mod run;
mod search;
mod spoilt;

use report::{Exit, STDOUT};
use rival::show::Output;
use rounds::Counted;
use run::Totals;
use search::Searched;
use std::fmt::Write;

const ROUNDS: u32 = 120;

fn tell_usage() -> Exit {
    io::write_all(
        report::STDERR,
        b"usage: duel CHARTS..    runs files of charts on both boards, and then the duel: ./run duel charts/*.chart\n",
    );
    Exit::Usage
}

// An argument that is empty or begins with a dash names no file here: such a one is given as ./-NAME.
fn is_wrong_at(rt: &HostRuntime, i: usize) -> bool {
    let mut word = io::buffer();
    match report::arg(rt, i, &mut word) {
        Ok(n) => matches!(&word[..n], [] | [b'-', ..]),
        Err(_) => true,
    }
}

fn run_all(rt: &HostRuntime, words: usize) -> Exit {
    let mut out = Output(STDOUT);
    let totals = Totals::of_arguments(rt, words);
    let totalled = totals.print();
    let searched = Searched::compare();
    let told = write!(out, "{searched}");
    let counted = Counted::duel(ROUNDS);
    let written = counted.print(ROUNDS);
    let differences = searched
        .differences
        .saturating_add(counted.tally.differences)
        .saturating_add(counted.seen.places.otherwise());
    totals.print_last(differences, totalled.and(told).and(written).is_ok())
}

fn main(rt: HostRuntime) {
    let words = report::arg_count(&rt);
    // Wrong usage is found before anything is run.
    let are_wrong = words < 2 || (1..words).any(|i| is_wrong_at(&rt, i));
    report::end(if are_wrong {
        tell_usage()
    } else {
        run_all(&rt, words)
    });
}
