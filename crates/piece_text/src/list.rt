//! A text as the list of its pieces.
ghost use Rattle.std.specs.Prelude.{◌≡◌, ◌≢◌, ◌+◌, ◌^◌, ◌<◌, ◌≤◌, ◌↔◌, [], ◌++◌, length, chars, take, drop, insert, remove, Err, IsTrue, IsErrOf, IsOkUnless, OnOk, OnErr};
ghost use Rattle.str_indices.specs.Schemes.{count, from_byte_idx, to_byte_idx};
ghost use Rattle.str_indices.specs.Text.{size};
ghost use Rattle.str_indices.specs.Relations.{IsBoundary};
ghost use Rattle.piece_text.specs.Pieces.{joined, joined_size, piece_at, as_pieces};
ghost use Rattle.piece_text.specs.Splits.{IsEdge, IsCut, IsSplit};
ghost use Rattle.piece_text.specs.declared.refusals.Refusal.TheVariants.{NoPiece, NotBoundary, TooLong, NoMemory};

use crate::piece::Piece;
use crate::view::runs::{Runs, Swap, span_round};
use crate::{Pieces, Refusal, Scheme, Summary, count_in, from_in, to_in};
use std::alloc::{AllocError, Global};
use std::marker::Model;

/// The greatest length of a text in bytes.
const MAX_LEN: usize = isize::MAX as usize;

/// A text that is kept in pieces, none of them empty. A contract sees the list of the pieces' texts.
///
/// Its questions are those over a [`Pieces`]: each takes at most as many looks as there are pieces, and reads one at most.
#[derive(Drop)]
pub struct PieceText {
    pieces: Vec<Piece>,
    runs: Runs,
    len: usize,
    alloc: Global,
}

impl Model for PieceText {
    ghost use Rattle.std.specs.Prelude.{◌≡◌, ◌^◌, ◌<◌, List};
    ghost use Rattle.str_indices.specs.Text.{Text};
    ghost use Rattle.piece_text.specs.Pieces.{joined_size};
    ghost use Rattle.piece_text.specs.Runs.{AreRuns};

    ghost Value = { List Text };

    ghost view = { λ t. t.pieces.items };

    ghost invariant = { λ t. (t.len ≡ joined_size t.pieces.items) × (t.len < 2 ^ 63) × AreRuns t.runs t.pieces.items };
}

impl PieceText {
    /// Makes a text without pieces, which takes no memory. It keeps the allocator for pieces that are put in.
    pub fn new(alloc: Global) -> PieceText
        ensures { result ≡ [] }
    {
        PieceText {
            pieces: Vec::new(alloc),
            runs: Runs::new(alloc),
            len: 0,
            alloc,
        }
    }

    /// Puts a text after the last piece, as a piece of its own. An empty text changes nothing.
    ///
    /// After a refusal all is as it was. It is `TooLong` where the text would have more than `isize::MAX` bytes, and
    /// else `NoMemory` where memory was refused. An empty text takes none.
    pub fn push(&mut self, text: &str) -> Result<(), Refusal>
        ensures ok { OnOk result (self.new ≡ self.old ++ as_pieces (chars text.now)) }
        ensures err { OnErr result (self.new ≡ self.old) }
        ensures no_piece { result ≢ Err NoPiece }
        ensures not_boundary { result ≢ Err NotBoundary }
        ensures too_long { IsErrOf result TooLong ↔ (2 ^ 63 ≤ joined_size self.old + length text.now) }
        ensures no_memory { IsErrOf result NoMemory → chars text.now ≢ [] }
    {
        self.insert(self.pieces(), text)
    }

    /// Makes a text piece `at`, before the piece that has that number. An empty text changes nothing.
    ///
    /// After a refusal all is as it was. It is `NoPiece` where `at` is above the number of pieces, or else `TooLong`
    /// where the text would have more than `isize::MAX` bytes, and else `NoMemory` where memory was refused. An empty text
    /// takes none.
    pub fn insert(&mut self, at: usize, text: &str) -> Result<(), Refusal>
        ensures ok { OnOk result
            (self.new ≡ take at self.old ++ (as_pieces (chars text.now) ++ drop at self.old)) }
        ensures err { OnErr result (self.new ≡ self.old) }
        ensures no_piece { IsErrOf result NoPiece ↔ (length self.old < at) }
        ensures not_boundary { result ≢ Err NotBoundary }
        ensures too_long { IsErrOf result TooLong
            ↔ ((at ≤ length self.old) × (2 ^ 63 ≤ joined_size self.old + length text.now)) }
        ensures no_memory { IsErrOf result NoMemory → chars text.now ≢ [] }
    {
        if self.pieces.len() < at {
            return Err(Refusal::NoPiece);
        }
        if MAX_LEN - self.len < text.len() {
            return Err(Refusal::TooLong);
        }
        if text.is_empty() {
            return Ok(());
        }
        Ok(self.put(at, text)?)
    }

    /// Puts in a text that is not empty. It takes memory for the piece and for all lists before anything changes.
    fn put(&mut self, at: usize, text: &str) -> Result<(), AllocError>
        requires within { at ≤ length self.old }
        requires some { chars text.now ≢ [] }
        requires short { joined_size self.old + length text.now < 2 ^ 63 }
        ensures ok { OnOk result (self.new ≡ insert self.old at (chars text.now)) }
        ensures err { OnErr result (self.new ≡ self.old) }
    {
        let piece = Piece::of(self.alloc, text)?;
        let own = piece.summary();
        self.pieces.reserve(1)?;
        self.runs.make_room(self.pieces.as_slice(), at)?;
        self.pieces.insert(at, piece)?;
        let swap = Swap {
            gone: 0,
            come: 1,
            out: Summary::none(),
            own,
        };
        self.runs.swap(self.pieces.as_slice(), at, swap);
        self.len += text.len();
        Ok(())
    }

    /// Takes piece `at` out. Takes no memory.
    ///
    /// It is `NoPiece`, and all is as it was, where there is no such piece.
    pub fn remove(&mut self, at: usize) -> Result<(), Refusal>
        ensures ok { OnOk result (self.new ≡ remove self.old at) }
        ensures err { OnErr result (self.new ≡ self.old) }
        ensures no_piece { IsErrOf result NoPiece ↔ (length self.old ≤ at) }
        ensures no_other { IsOkUnless result NoPiece }
    {
        if self.pieces.len() <= at {
            return Err(Refusal::NoPiece);
        }
        let last = self.pieces.len() - 1;
        self.runs.open_end(at, last);
        let piece = self.pieces.remove(at);
        self.len -= piece.len();
        let swap = Swap {
            gone: 1,
            come: 0,
            out: piece.summary(),
            own: Summary::none(),
        };
        self.runs.swap(self.pieces.as_slice(), at, swap);
        Ok(())
    }

    /// Cuts the piece round a byte in two, so that the second half starts at the byte. Where a piece starts or ends
    /// there already, and at the beginning and the end of the text, it changes nothing. The joined text stays as it is,
    /// also where the cut parts a CR from its LF.
    ///
    /// After a refusal all is as it was. It is `NotBoundary` where the byte is inside a char or past the end, and
    /// else `NoMemory` where memory was refused.
    pub fn split(&mut self, byte_idx: usize) -> Result<(), Refusal>
        ensures ok { OnOk result (IsSplit self.old self.new byte_idx) }
        ensures text { joined self.new ≡ joined self.old }
        ensures err { OnErr result (self.new ≡ self.old) }
        ensures not_boundary { IsErrOf result NotBoundary ↔ (¬ (IsBoundary (joined self.old) byte_idx)) }
        ensures no_memory { IsErrOf result NoMemory → ¬ (IsEdge self.old byte_idx) }
        ensures no_piece { result ≢ Err NoPiece }
        ensures too_long { result ≢ Err TooLong }
    {
        let (at, start) = self.piece_round(byte_idx);
        if start == byte_idx {
            return Ok(());
        }
        if at == self.pieces.len() || !self.is_boundary_in(at, byte_idx - start) {
            return Err(Refusal::NotBoundary);
        }
        Ok(self.cut(at, byte_idx - start)?)
    }

    /// Finds the piece that a byte is in, and where it starts; past the end the number of pieces, and the text's length.
    fn piece_round(&self, byte_idx: usize) -> (usize, usize)
        ensures piece { result.0 ≤ length self.now }
        ensures start { result.1 ≡ joined_size (take result.0 self.now) }
        ensures past { result.1 ≤ byte_idx }
        ensures within { result.0 < length self.now → byte_idx < result.1 + size (piece_at self.now result.0) }
    {
        let part = span_round(self.runs.as_slice(), self.pieces.as_slice(), byte_idx);
        let mut start = part.start;
        for i in part.first..part.end {
            let piece = &self.pieces[i];
            let len = piece.len();
            if byte_idx - start < len {
                return (i, start);
            }
            start += len;
        }
        (part.end, start)
    }

    /// Whether a byte index in piece `i` is between its chars.
    fn is_boundary_in(&self, i: usize, at: usize) -> bool
        requires { i < length self.now }
        ensures { IsTrue result ↔ IsBoundary (piece_at self.now i) at }
    {
        self.pieces[i].is_boundary(at)
    }

    /// Cuts piece `i` in two. It takes memory for both halves and for all lists before anything changes.
    fn cut(&mut self, i: usize, at: usize) -> Result<(), AllocError>
        requires inside { i < length self.old }
        requires above { 0 < at }
        requires below { at < size (piece_at self.old i) }
        requires boundary { IsBoundary (piece_at self.old i) at }
        ensures ok { OnOk result (IsCut self.old self.new (joined_size (take i self.old) + at)) }
        ensures err { OnErr result (self.new ≡ self.old) }
    {
        let piece = &self.pieces[i];
        let whole = piece.summary();
        let (left, right) = piece.halves(self.alloc, at)?;
        self.pieces.reserve(1)?;
        self.runs.make_room(self.pieces.as_slice(), i)?;
        self.pieces.insert(i + 1, right)?;
        self.pieces[i] = left;
        let swap = Swap {
            gone: 1,
            come: 2,
            out: whole,
            own: whole,
        };
        self.runs.swap(self.pieces.as_slice(), i, swap);
        Ok(())
    }

    /// How many bytes the text has.
    pub fn len(&self) -> usize
        ensures { result ≡ joined_size self.now }
    {
        self.len
    }

    /// How many pieces the text has.
    pub fn pieces(&self) -> usize
        ensures { result ≡ length self.now }
    {
        self.pieces.len()
    }

    /// The pieces as a query sees them, with no look and no read counted.
    pub fn view(&self) -> Pieces<'_>
        ensures { result ≡ record { texts = self.now; looks = 0; reads = 0 } }
    {
        Pieces::of(self.pieces.as_slice(), self.runs.as_slice())
    }

    /// How many chars, UTF-16 code units or line breaks the joined text has.
    pub fn count(&self, s: Scheme) -> usize
        ensures { result ≡ count s (joined self.now) }
    {
        count_in(&mut self.view(), s)
    }

    /// How many chars, UTF-16 code units or line breaks of the joined text end at or before a byte index; past the end, all.
    pub fn from_byte_idx(&self, s: Scheme, b: usize) -> usize
        ensures { result ≡ from_byte_idx s (joined self.now) b }
    {
        from_in(&mut self.view(), s, b)
    }

    /// The byte index where char `k`, the char of code unit `k` or line `k` of the joined text begins, counted from 0; its
    /// length where it has fewer.
    pub fn to_byte_idx(&self, s: Scheme, k: usize) -> usize
        ensures { result ≡ to_byte_idx s (joined self.now) k }
    {
        to_in(&mut self.view(), s, k)
    }
}
