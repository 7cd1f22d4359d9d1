// What is wrong with a line. The facts 0 to 2 are the bytes that stand at the column.
use crate::Sentence;
use notation::fault::Fault;

impl Sentence for Fault {
    fn words(self) -> &'static str {
        match self {
            Fault::Word =>
                "expected reset, write, read, intp, slave, gates, requests, acknowledge, advance, cycle, raw, repeat, memory, lend, expect, guess, show, chart or a # comment; in 'lesson try' card or again too",
            Fault::Port => "expected a port, one or two hexadecimal digits",
            Fault::Data => "expected the byte to write, one or two hexadecimal digits",
            Fault::Levels => "expected the levels, one or two hexadecimal digits",
            Fault::Pulses => "expected the number of pulses, decimal, at most 65535",
            Fault::Device =>
                "expected the device's byte, one or two hexadecimal digits, a text, or the end of the line",
            Fault::DeviceUpper =>
                "expected the device's upper byte, one or two hexadecimal digits, or 'end', or the end of the line",
            Fault::End => "expected 'end', or the end of the line",
            Fault::Raw =>
                "expected one of the eight bytes of a raw record, one or two hexadecimal digits",
            Fault::Nothing =>
                "expected the end of the line, an equals sign and the answer, or a # comment",
            Fault::Shorter =>
                "expected the end of the line by here: a line has at most 1000 characters",
            Fault::LineFeed =>
                "expected a line feed at the end of the last line; the file may be cut short",
            Fault::ByteOrderMark =>
                "a byte order mark ($0 $1 $2), which is not seen; save the file as UTF-8 without one",
            Fault::Utf16 =>
                "$0 $1, the mark of a UTF-16 file; save the file as UTF-8 or as plain text",
            Fault::NoBreakSpace =>
                "a no-break space ($0 $1), which looks like a space; type a space in its place",
            Fault::SoftHyphen => "a soft hyphen ($0 $1), which is not seen; delete it",
            Fault::OddSpace =>
                "an unusual space, or a mark that is not seen ($0 $1 $2); delete it, or type a space in its place",
            Fault::Control => "a control character, number $0, which is not seen; delete it",
            Fault::CarriageReturn =>
                "a carriage return that no line feed follows; end each line with a line feed, or with both",
            Fault::NotAscii =>
                "the byte $0, which is no plain ASCII character; it may look like a letter or a digit and be none: type it anew",
            Fault::Endless => "no line feed up to here; the rest was not read",
            Fault::Item =>
                "expected what the answer is to be: ? alone, or done, refused, a byte, call, out, int, rises, nothing, grant, leave, unit, end, free, outside, upper",
            Fault::Twice => "this was said before, or it cannot be beside what was",
            Fault::Status => "expected the number of a refusal, 1 to 6",
            Fault::Call => "expected the address of a CALL, four hexadecimal digits",
            Fault::Outs => "expected the levels of OUT0, OUT1 and OUT2, three digits, each 0 or 1",
            Fault::Int => "expected the level of INT, 0 or 1",
            Fault::Rises => "expected how often OUT0 rises, decimal",
            Fault::Channel => "expected a channel, 0 to 3",
            Fault::Address => "expected an address, one to six hexadecimal digits",
            Fault::Bytes =>
                "expected bytes, one or two hexadecimal digits each, or texts in double quotes",
            Fault::BadText => "expected a text: characters between two double quotes",
            Fault::Repeats => "expected how often, decimal, 1 to 65535",
            Fault::Records =>
                "expected the record to repeat: reset, write, read, intp, slave, gates, requests, acknowledge, advance, cycle or raw",
            Fault::Length => "expected the length of the memory in bytes, decimal, at most 65536",
            Fault::Expected => "expected int, out or memory",
            Fault::Chip => "expected master, slave, timer, dma, or the end of the line",
            Fault::Name => "expected the chart's name, at most 64 characters",
            Fault::Colon => "expected a colon, and what is said to the guess",
            Fault::Answer => "expected what is said to the guess",
            Fault::Upper => "expected the upper byte, one or two hexadecimal digits",
            Fault::Late => "memory and lend stand before the first record",
            Fault::Past => "past the end of the memory",
            Fault::Unchecked => "a guess stands below a line with a check",
            Fault::Typed => "card and again are lines of 'lesson try'",
            Fault::Chart => "a chart has at most 256 bytes of memory",
            Fault::Asked => "a guess is asked for in a lesson, not in 'lesson try'",
            Fault::TheRest => "expected the end of the line, or a # comment",
            Fault::NotOf => "the answer to this record has no such thing",
        }
    }
}
