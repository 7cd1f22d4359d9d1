// How a sentence is filled in.
ghost use Rattle.std.specs.Prelude.{◌<◌};

use crate::facts::Facts;
use crate::text::Text;

pub fn fill(words: &str, facts: Facts) -> Text {
    let mut pieces = words.as_bytes().split(|&c| c == b'{');
    let start = pieces.next().unwrap_or(&[]);
    pieces.fold(say_marked(Text::new(), start, facts), |text, piece| {
        choose(text, piece, facts)
    })
}

// A choice past its brace, and what follows it: of its words those for the number that the facts have.
fn choose(text: Text, piece: &[u8], facts: Facts) -> Text {
    let [place, from, width, rest @ ..] = piece else {
        return text;
    };
    let n = bits(facts, *place, *from, *width);
    let mut parts = rest.splitn(2, |&c| c == b'}');
    let choice = parts.next().unwrap_or(&[]);
    let after = parts.next().unwrap_or(&[]);
    let chosen = choice
        .split(|&c| c == b'|')
        .nth(usize::from(n))
        .unwrap_or(&[]);
    say_marked(say_marked(text, chosen, facts), after, facts)
}

// Words with marks, after a text.
fn say_marked(text: Text, words: &[u8], facts: Facts) -> Text {
    let mut text = text;
    let mut rest = words;
    while !rest.is_empty() {
        (text, rest) = match rest {
            [b'$', place, after @ ..] => (text.hex(facts.byte(digit(*place))), after),
            [b'@', place, after @ ..] => (text.address(facts.four(digit(*place))), after),
            [b'~', place, after @ ..] => (text.address(facts.four(digit(*place)) & !1), after),
            [b'=', place, after @ ..] => {
                (text.decimal(u64::from(facts.four(digit(*place)))), after)
            }
            [b'&', which, after @ ..] => (text.decimal(facts.number(digit(*which))), after),
            [b'%', place, from, width, after @ ..] => {
                (
                    text.decimal(u64::from(bits(facts, *place, *from, *width))),
                    after,
                )
            }
            [b'*', place, from, width, after @ ..] => {
                (text.bits(bits(facts, *place, *from, *width)), after)
            }
            [b'^', after @ ..] => (text.put(b'|'), after),
            [c, after @ ..] => (text.put(*c), after),
            [] => return text,
        };
    }
    text
}

// The digits of a mark are 0 to 9 and A to F.
fn digit(c: u8) -> usize
    ensures { result < 16 }
{
    match c {
        b'0'..=b'9' => usize::from(c - b'0'),
        b'A'..=b'F' => usize::from(c - b'A' + 10),
        _ => 0,
    }
}

// Some bits of a fact: `width` of them, from a bit on.
fn bits(facts: Facts, place: u8, from: u8, width: u8) -> u8 {
    let v = facts.byte(digit(place)) >> (digit(from) % 8);
    let width = digit(width);
    if width < 8 { v & !(0xff << width) } else { v }
}
