// Texts of pieces, each a byte string that stands there a number of times.
ghost use Rattle.std.specs.Prelude.{◌≡◌};
ghost use Rattle.output.specs.Promises.{Extends};
ghost use Rattle.casefile.specs.Promises.{PutsPiece, PutsPieces};

use crate::Input;
use output::Text;

// A piece so many times; it says whether there was room for all.
pub fn put_piece(piece: &[u8], times: u64, text: &mut Text) -> bool
    ensures { Extends (PutsPiece piece.now times result) text.old text.new }
{
    // No turns for nothing: a file may ask for any number of them.
    if piece.is_empty() {
        return true;
    }
    for _ in 0..times {
        let from = text.n;
        text.put_all(piece);
        if text.n - from < piece.len() {
            return false;
        }
    }
    true
}

// count, pieces: end to end, as far as there is room; it says whether there was room for all
pub fn put_pieces(input: &mut Input, text: &mut Text) -> bool
    ensures pieces { Extends (PutsPieces input.old.s.now input.old.place input.new.place result) text.old text.new }
    ensures same_file { input.new.s ≡ input.old.s }
{
    let mut whole = true;
    for _ in 0..input.take() {
        let times = input.take();
        let piece = input.take_bytes();
        whole &= put_piece(piece, times, text);
    }
    whole
}
