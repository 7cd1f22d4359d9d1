// The board for programs in other languages: a static library of four functions in C's calling convention. Each is the function it
// calls, and keeps its promise. The declarations in hosts/ say the same for C and for Rust.
#![tactic(auto)]

ghost use Rattle.std.specs.Prelude.{◌≡◌, length};
ghost use Rattle.board.specs.Wiring.{fresh_of};
ghost use Rattle.intake.specs.Ranges.{in_range};
ghost use Rattle.intake.specs.Feed.{fed_of, fed_memory, fed_answers};

use board::Board;
use intake::Fed;

// The version of these declarations: it changes when a host has to be built anew.
#[unsafe(no_mangle)]
pub extern "C" fn limbusagin_version() -> u32
    ensures { result ≡ 4 }
{
    4
}

// A board that was just reset, with no bytes kept.
#[unsafe(no_mangle)]
pub extern "C" fn limbusagin_fresh() -> Board
    ensures { result ≡ fresh_of }
{
    Board::reset()
}

// Whether every field of a board has a value that some board reached from reset has there. A call on another board is refused with 7, and so is
// one with too small a buffer: this tells the two apart.
#[unsafe(no_mangle)]
pub extern "C" fn limbusagin_in_range(board: Board) -> bool
    ensures { result ≡ in_range board }
{
    intake::is_in_range(board)
}

// One call: see `intake::feed`.
#[unsafe(no_mangle)]
pub extern "C" fn limbusagin_feed(
    board: Board,
    tape: &[u8],
    memory: &mut [u8],
    answers: &mut [u8],
) -> Fed
    ensures result { result ≡ fed_of board tape.now memory.old (length answers.old) }
    ensures memory { memory.new ≡ fed_memory board tape.now memory.old (length answers.old) }
    ensures answers { answers.new ≡ fed_answers board tape.now memory.old answers.old }
{
    intake::feed(board, tape, memory, answers)
}
