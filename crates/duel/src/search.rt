// The two searches for the highest-ranked level of the first board, the one that the chips use and the one rank by rank, against each other: every byte
// with every lowest level.
use icu::Icu;
use report::STDOUT;
use rival::counts::add;
use rival::show::Output;
use std::fmt;
use std::fmt::Write;

#[derive(Clone, Copy, Default)]
pub struct Searched {
    // pairs of a byte and a lowest level, those of them in which no level is found, and those in which the searches differ
    pairs: u64,
    empty: u64,
    pub differences: u64,
}

impl Searched {
    fn search(&mut self, x: u8, lowest: u8) {
        let quick = icu::highest(x, lowest);
        let slow = icu::highest_by_steps(x, lowest);
        add(&mut self.pairs, 1);
        if slow.is_none() {
            add(&mut self.empty, 1);
        }
        if quick != slow {
            // The first difference is told.
            if self.differences == 0 {
                let _ = writeln!(
                    Output(STDOUT),
                    "first difference of the searches: byte {x:02x}, lowest level {lowest}: {} by turning, {} by steps",
                    quick.unwrap_or(Icu::LEVELS),
                    slow.unwrap_or(Icu::LEVELS)
                );
            }
            add(&mut self.differences, 1);
        }
    }

    pub(crate) fn compare() -> Searched {
        let mut searched = Searched::default();
        for x in 0..=255 {
            for lowest in 0..8 {
                searched.search(x, lowest);
            }
        }
        searched
    }
}

impl fmt::Display for Searched {
    fn fmt<W: fmt::Write>(&self, f: &mut fmt::Formatter<W>) -> fmt::Result {
        writeln!(
            f,
            "searches for the highest-ranked level, by turning and by steps: {}, none found {}, differences {}",
            self.pairs, self.empty, self.differences
        )
    }
}
