// What may be wrong with a line.
ghost use Rattle.std.specs.Prelude.{◌+◌, ◌<◌, ◌^◌, ◌≡◌};
ghost use Rattle.notation.specs.Faults as Faults;
ghost use Rattle.notation.specs.Faults.{bad_at};

// A line that is not taken.
#[derive(Clone, Copy, PartialEq, Eq)]
pub struct Bad {
    // columns count from 1
    pub column: usize,
    pub fault: Fault,
    // the bytes that stand there, if the fault is about them
    pub found: [u8; 8],
}

impl Bad {
    // At a place, counted from 0.
    pub fn at(at: usize, fault: Fault) -> Bad
        ensures fault { result.fault ≡ fault }
        ensures column { at + 1 < 2 ^ 64 → result.column ≡ at + 1 }
        ensures value { result ≡ bad_at at fault }
    {
        Bad {
            column: at.saturating_add(1),
            fault,
            found: [0; 8],
        }
    }
}

// What is expected at a column, or stands there.
#[derive(Clone, Copy, PartialEq, Eq)]
pub enum Fault {
    Word,
    Port,
    Data,
    Levels,
    Pulses,
    Device,
    DeviceUpper,
    End,
    Raw,
    Nothing,
    Shorter,
    LineFeed,
    // these say what stands there
    ByteOrderMark,
    Utf16,
    NoBreakSpace,
    SoftHyphen,
    OddSpace,
    Control,
    CarriageReturn,
    NotAscii,
    Endless,
    // of an answer
    Item,
    Twice,
    Status,
    Call,
    Outs,
    Int,
    Rises,
    Channel,
    Address,
    // of the lines that are more than a record
    Bytes,
    BadText,
    Repeats,
    Records,
    Length,
    Expected,
    Chip,
    Name,
    Colon,
    Answer,
    Upper,
    // of where a line stands among the others
    Late,
    Past,
    Unchecked,
    Typed,
    Chart,
    Asked,
    TheRest,
    NotOf,
}

impl Fault {
    // Whether it is about a byte that may not be seen for what it is.
    pub fn is_about_byte(self) -> bool
        ensures { result ≡ Faults.is_about_byte self }
    {
        matches!(
            self,
            Fault::ByteOrderMark
                | Fault::Utf16
                | Fault::NoBreakSpace
                | Fault::SoftHyphen
                | Fault::OddSpace
                | Fault::Control
                | Fault::CarriageReturn
                | Fault::NotAscii
        )
    }
}

// What is wrong where a byte stands that is no plain character: these are the bytes of a word from it on. E2 80 80 to 8F and A8 to AF are spaces and marks that are not seen, and so are
// E2 81 9F to AF. The mark of UTF-16 stands at the start of a text.
pub(crate) fn strange(at: usize, bytes: &[u8]) -> Bad {
    let fault = match bytes {
        [0xe2, 0x80, 0x80..=0x8f | 0xa8..=0xaf, ..] => Fault::OddSpace,
        [0xe2, 0x81, 0x9f..=0xaf, ..] => Fault::OddSpace,
        [0xe3, 0x80, 0x80, ..] => Fault::OddSpace,
        [0xef, 0xbb, 0xbf, ..] => Fault::ByteOrderMark,
        [0xc2, 0xa0, ..] => Fault::NoBreakSpace,
        [0xc2, 0xad, ..] => Fault::SoftHyphen,
        [0xfe, 0xff, ..] | [0xff, 0xfe, ..] if at == 0 => Fault::Utf16,
        [0..=31 | 127, ..] => Fault::Control,
        _ => Fault::NotAscii,
    };
    let mut bad = Bad::at(at, fault);
    for (found, byte) in bad.found.iter_mut().zip(bytes.iter().take(3)) {
        *found = *byte;
    }
    bad
}
