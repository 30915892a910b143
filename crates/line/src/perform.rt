//! The one access of a grant, performed on board and trays.
ghost use Rattle.std.specs.Prelude.{◌≡◌, ℕ};
ghost use Rattle.line.specs.Perform.{word_read, words_after, trays_after, copied};

use crate::access::{Access, Shape};
use boards::Board;

/// Makes the access on a line of this shape, and answers the word that it read.
pub(crate) fn perform<B: Board, P: Copy>(
    board: &mut B,
    trays: &mut [P],
    shape: Shape,
    access: Access,
) -> u64
    ensures read { result ≡ word_read shape access (B.Board.words board.old) }
    ensures board { B.Board.words board.new ≡ words_after shape access (B.Board.words board.old) }
    ensures trays { trays.new ≡ trays_after shape access trays.old }
    ensures stays { B.Board.home board.new ≡ B.Board.home board.old }
{
    match access {
        Access::Nothing => 0,
        Access::Load(at) => board.load(shape.word(at)),
        Access::Store(at, value) => {
            board.store(shape.word(at), value);
            0
        }
        Access::Swap(at, from, to) => u64::from(board.swap(shape.word(at), from, to)),
        Access::Take(at) => board.take(shape.word(at)),
        Access::CopyTray(from, to) => {
            copy_tray(trays, shape.tray(from), shape.tray(to));
            0
        }
    }
}

/// Tray `to` gets what tray `from` holds; nothing happens where either is not there.
fn copy_tray<P: Copy>(trays: &mut [P], from: usize, to: usize)
    ensures { trays.new ≡ copied trays.old from to }
{
    if let Some(&payload) = trays.get(from)
        && to < trays.len()
    {
        // By index: a write through `get_mut` tells a proof nothing of the trays.
        trays[to] = payload;
    }
}
