// The memory of a lesson, and which of its bytes were written.
use notation::line::MemoryLine;
use sentences::Message;
use sentences::text::Text;

#[derive(Clone, Copy)]
pub struct Memory {
    bytes: [u8; 65536],
    marks: [bool; 65536],
}

impl Memory {
    pub fn new() -> Memory {
        Memory {
            bytes: [0; 65536],
            marks: [false; 65536],
        }
    }

    pub fn clear(&mut self) {
        self.bytes.fill(0);
        self.marks.fill(false);
    }

    // So many of its bytes, from the first on.
    pub fn lent(&mut self, length: u32) -> &mut [u8] {
        &mut self.bytes[..65536.min(length as usize)]
    }

    // What an address has; they come round.
    pub fn byte(&self, address: u32) -> u8 {
        self.bytes[(address % 65536) as usize]
    }

    // The bytes of a memory line, put where it says.
    pub fn put(&mut self, line: &[u8], said: &MemoryLine) {
        for (at, byte) in (said.address..).zip(said.bytes(line)) {
            self.bytes[(at % 65536) as usize] = byte;
        }
    }

    // Marks what a unit of so many bytes was written to: of a word, its address and the other one of that pair. What is past the memory is not marked.
    pub fn mark(&mut self, address: u32, bytes: u8, lent: u32) {
        if bytes == 0 {
            return;
        }
        self.mark_byte(address, lent);
        if bytes != 1 {
            self.mark_byte(address ^ 1, lent);
        }
    }

    fn mark_byte(&mut self, address: u32, lent: u32) {
        if address < lent {
            self.marks[(address % 65536) as usize] = true;
        }
    }

    // The bytes that are marked as written, in rows of 16; sixteen rows are shown, and the others counted.
    pub fn print(&self) -> bool {
        let count = self
            .marks
            .chunks(16)
            .filter(|marks| marks.contains(&true))
            .count();
        if count == 0 {
            return Message::NothingWritten.text().print_line();
        }
        Message::Written.text().print_line()
            && self.print_rows()
            && (count <= 16 || Message::MoreRows(count as u64 - 16).text().print_line())
    }

    fn print_rows(&self) -> bool {
        self.bytes
            .chunks(16)
            .zip(self.marks.chunks(16))
            .enumerate()
            .filter(|(_, (_, marks))| marks.contains(&true))
            .take(16)
            .all(|(k, (bytes, marks))| print_row(k, bytes, marks))
    }
}

// The row of that number.
fn print_row(k: usize, bytes: &[u8], marks: &[bool]) -> bool {
    let mut row = Text::new().pad(2).address((k % 4096 * 16) as u32).put(b' ');
    let mut shown = Text::new();
    for (x, mark) in bytes.iter().zip(marks) {
        row = put_byte(row.put(b' '), *x, *mark);
        shown = shown.put(if *mark && matches!(*x, 32..=126) {
            *x
        } else {
            b'.'
        });
    }
    row.say(b"  ").and(shown).print_line()
}

fn put_byte(row: Text, x: u8, mark: bool) -> Text {
    if mark { row.hex(x) } else { row.say(b"--") }
}
