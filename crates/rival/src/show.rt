// Printing, by `write!`.
use report::STDOUT;
use std::fmt;
use std::fmt::Write;

// A descriptor to write on.
#[derive(Clone, Copy)]
pub struct Output(pub i32);

impl fmt::Write for Output {
    fn write_str(&mut self, text: &str) -> fmt::Result {
        if io::write_all(self.0, text.as_bytes()) {
            return Ok(());
        }
        Err(fmt::Error)
    }
}

// A line of standard output: words, and the 16 bytes of an answer.
pub fn print_answer(words: &[u8], answer: &[u8; 16]) -> fmt::Result {
    if !io::write_all(STDOUT, words) {
        return Err(fmt::Error);
    }
    let mut out = Output(STDOUT);
    for byte in answer {
        write!(out, " {byte:02x}")?;
    }
    writeln!(out)
}
