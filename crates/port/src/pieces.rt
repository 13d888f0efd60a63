//! Input that is given in pieces: one read takes bytes of one piece.

ghost use Rattle.std.specs.Prelude.{◌≡◌, ◌≢◌, ◌≤◌, [], ◌∷◌, length, MatchOption};
ghost use Rattle.std.specs.Vec.Iter.{into_iter_items};
ghost use Rattle.port.specs.Pieces.{pieces_of, first_piece, past};

use std::alloc::Global;
use std::marker::Model;
use std::vec::IntoIter;

/// The pieces that are left, the first one from a place in it on. A contract sees those that have
/// bytes, as lists of bytes.
#[derive(Drop)]
pub(crate) struct Pieces {
    piece: Vec<u8>,
    at: usize,
    rest: IntoIter<Vec<u8>, Global>,
}

impl Model for Pieces {
    ghost use Rattle.std.specs.Prelude.{◌≡◌, ◌≤◌, List, [], ℕ, drop, length};
    ghost use Rattle.std.specs.Vec.Iter.{into_iter_items};
    ghost use Rattle.port.specs.Pieces.{pieces_of, put_piece};

    ghost Value = { List (List ℕ) };

    ghost view = { λ p. put_piece (drop p.at p.piece.items) (pieces_of (into_iter_items p.rest)) };

    ghost invariant = { λ p. (p.at ≤ length p.piece.items)
        × (p.at ≡ length p.piece.items → pieces_of (into_iter_items p.rest) ≡ []) };
}

impl Pieces {
    /// All of these pieces; the allocator is kept and not called.
    pub(crate) fn new(alloc: Global, pieces: Vec<Vec<u8>>) -> Pieces
        ensures { result ≡ pieces_of pieces.items }
    {
        let mut rest = pieces.into_iter();
        let piece = match next_piece(&mut rest) {
            Some(piece) => piece,
            None => Vec::new(alloc),
        };
        Pieces { piece, at: 0, rest }
    }

    /// What is left of the first piece that has bytes; none where all is read.
    pub(crate) fn front(&self) -> &[u8]
        ensures bytes { result.now ≡ first_piece self.now }
        ensures end { result.now ≡ [] → self.now ≡ [] }
    {
        &self.piece[self.at..]
    }

    /// Passes over so many bytes of the first piece.
    pub(crate) fn pass(&mut self, count: usize)
        requires { count ≤ length (first_piece self.old) }
        ensures { self.new ≡ past count self.old }
    {
        self.at += count;
        if self.at == self.piece.len() {
            if let Some(piece) = next_piece(&mut self.rest) {
                self.piece = piece;
                self.at = 0;
            }
        }
    }
}

/// The next piece that has bytes.
fn next_piece(rest: &mut IntoIter<Vec<u8>, Global>) -> Option<Vec<u8>>
    ensures { MatchOption result
        ((pieces_of (into_iter_items rest.old) ≡ []) × (pieces_of (into_iter_items rest.new) ≡ []))
        (λ piece. (piece.items ≢ [])
        × (pieces_of (into_iter_items rest.old) ≡ piece.items ∷ pieces_of (into_iter_items rest.new))) }
{
    'pieces: while let Some(piece) = rest.next() {
        if !piece.is_empty() {
            return Some(piece);
        }
    }
    None
}
