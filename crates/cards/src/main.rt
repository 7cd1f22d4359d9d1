// cards: prints every card, as the page docs/CARDS.md has them. Its file `stdout` is that page, so the gate holds the cards that `lesson` prints and the page
// together.
#![tactic(auto)]

use report::{Exit, STDERR, STDOUT};

const HEAD: &[u8] = b"# The cards

What each bit of a port means, a screen for each port or word of the chips. `./run lesson card 2A` prints one of them, `./run lesson card` the list:

```
";

fn tell_usage() -> Exit {
    io::write_all(
        STDERR,
        b"usage: cards    prints all cards, which are the page docs/CARDS.md; one of them: ./run lesson card 2A\n",
    );
    Exit::Usage
}

fn print_page() -> Exit {
    if io::write_all(STDOUT, HEAD) && ports::print_index() && ports::print_all() {
        Exit::Well
    } else {
        report::fail_output(b"cards: standard output")
    }
}

fn main(rt: HostRuntime) {
    if 1 < report::arg_count(&rt) {
        report::end(tell_usage());
    } else {
        report::end(print_page());
    }
}
