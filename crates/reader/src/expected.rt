// What a line says that an answer, levels or memory should be, held against what came.
use crate::memory::Memory;
use notation::check::Expected;
use notation::line::MemoryLine;
use sentences::text::Text;
use sentences::{Facts, Shown};

// Whether an answer is not what was expected. The byte of a cycle is that of a unit.
pub fn is_wrong(answer: [u8; 16], expected: &Expected) -> bool {
    !expected.is_met(answer)
        || is_unit_missing(answer[1], answer[4], expected.mask[2], expected.mask[4])
}

fn is_unit_missing(op: u8, kind: u8, byte: u8, kind_said: u8) -> bool {
    op == 6 && kind != 2 && byte != 0 && kind_said == 0
}

// Where another answer came: what the line says that it should be, and a comma.
pub fn words(line: &[u8], expected: &Expected) -> Text {
    if expected.said.is_empty() {
        return Text::new().say(b"expected done and no more, ");
    }
    Text::new()
        .say(b"expected ")
        .say(expected.said.of(line))
        .say(b", ")
}

// Where levels were expected, and are others: those that came.
pub fn levels_now(expected: &Expected, levels: u8) -> Text {
    if expected.mask[3] == 0 {
        return Text::new();
    }
    Text::new().say(b"; ").and(levels_words(levels))
}

pub fn levels_words(levels: u8) -> Text {
    sentences::say(Shown::Levels, Facts::new().with(0, levels))
}

// The first byte of memory that is not as the line has it, by what its address has; none where all are so.
pub fn first_apart(line: &[u8], said: &MemoryLine, memory: &Memory) -> Option<Text> {
    for (at, byte) in (said.address..).zip(said.bytes(line)) {
        let found = memory.byte(at);
        if found != byte {
            return Some(Text::new().address(at).say(b" has ").hex(found));
        }
    }
    None
}
