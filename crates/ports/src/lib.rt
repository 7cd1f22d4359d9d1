// The cards: what each bit of a port means, a screen for each port or word of the chips.
//
// The text of them all is the page docs/CARDS.md. A title has the names that the card is asked for by, a colon, and what the card is about. The names stand there
// alone, and the index is the titles. A card has at most 23 lines of at most 79 columns, and sets nothing in columns: it is read on a Braille line, too.
#![tactic(auto)]

mod cards;

use report::STDOUT;

pub struct Card {
    title: &'static str,
    lines: &'static str,
}

// Why a card is not printed: no title has the word, and nothing is written; or a write failed.
#[derive(Clone, Copy, PartialEq, Eq)]
pub enum NotPrinted {
    Unknown,
    Unwritten,
}

// Prints the card that a word names: a port, or another name, in either case.
pub fn print_card(word: &[u8]) -> Result<(), NotPrinted> {
    let card = cards::all()
        .iter()
        .find(|card| card.is_named(word))
        .ok_or(NotPrinted::Unknown)?;
    if card.print() {
        Ok(())
    } else {
        Err(NotPrinted::Unwritten)
    }
}

// Prints the title of each card. Answers whether they were written.
pub fn print_index() -> bool {
    cards::all().iter().all(|card| card.print_title())
}

// Prints the text of all cards, as the page docs/CARDS.md has it below its list. Answers whether it was written.
pub fn print_all() -> bool {
    print("```\n") && cards::all().iter().all(|card| card.print_in_page())
}

impl Card {
    fn is_named(&self, word: &[u8]) -> bool {
        let names = match self.title.split_once(':') {
            Some((names, _)) => names,
            None => "",
        };
        names
            .split(' ')
            .any(|name| name.as_bytes().eq_ignore_ascii_case(word))
    }

    fn print_title(&self) -> bool {
        print(self.title) && print("\n")
    }

    fn print(&self) -> bool {
        self.print_title() && print(self.lines)
    }

    fn print_in_page(&self) -> bool {
        print("\n## ")
            && self.print_title()
            && print("\n```\n")
            && print(self.lines)
            && print("```\n")
    }
}

fn print(text: &str) -> bool {
    io::write_all(STDOUT, text.as_bytes())
}
