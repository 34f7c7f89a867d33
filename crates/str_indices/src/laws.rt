//! Laws of the counts and the conversions. Each function does nothing: its contract is the law.
ghost use Rattle.std.specs.Prelude.{ℕ, ◌≡◌, ◌≢◌, ◌+◌, ◌-◌, ◌<◌, ◌≤◌, ◌↔◌, ◌⊎◌, ◌++◌, min, chars, length, Contains, IsCharBoundary, if◌then◌else◌};
ghost use Rattle.std.specs.List.Sorted.{IsStrictlyIncreasing};
ghost use Rattle.str_indices.specs.Prelude.{cut, Scheme, Chars, Utf16, Lf, Crlf, Lines, ends, count, from_byte_idx, to_byte_idx, surrogates, IsLineScheme, IsCharacterScheme, IsBoundary, IsEnd, IsGreatestWithin, IsLongestCut, IsGreatestBoundary, IsGreatestEnd, IsSecondUnit, joins_crlf, seam_loss};

/// Converting an index, in chars or in line breaks, to a byte index and back gives the index, or the count if the index
/// is past it.
///
/// An editor's go to line could use it: the line that it goes to is the line that it then shows.
#[tactic(auto, using(crate::proofs::lemmas::Laws::index_laws))]
pub fn round_trip(text: &str, k: usize)
    ensures { (s : Scheme) → s ≢ Utf16 → let cs = chars text.now in
        from_byte_idx s cs (to_byte_idx s cs k) ≡ min k (count s cs) }
{}

/// For an index `k`, in chars or in line breaks and at most the count, the byte index of `k` is at most `b` exactly if
/// `k` is at most the index at byte `b`.
///
/// A span reporter could use it: the line and the column of a byte are the greatest that begin at or before it.
#[tactic(auto, using(crate::proofs::lemmas::Laws::to_le_iff))]
pub fn end_adjunction(text: &str, b: usize, k: usize)
    ensures { (s : Scheme) → s ≢ Utf16 → let cs = chars text.now in
        k ≤ count s cs → (to_byte_idx s cs k ≤ b) ↔ (k ≤ from_byte_idx s cs b) }
{}

/// A boundary `b`, a byte index between chars, is at most the byte index of `k`, an index in chars or in UTF-16 code
/// units, exactly if the index at `b` is at most `k`.
///
/// A position mapper of a language server could use it: a position inside a surrogate pair goes to the pair's
/// beginning.
#[tactic(auto, using(crate::proofs::lemmas::Laws::boundary_adjunction))]
pub fn boundary_adjunction(text: &str, b: usize, k: usize)
    ensures { (s : Scheme) → IsCharacterScheme s → let cs = chars text.now in
        IsBoundary cs b → (b ≤ to_byte_idx s cs k) ↔ (from_byte_idx s cs b ≤ k) }
{}

/// Converting a byte index to an index, in chars or in UTF-16 code units, and back gives the greatest boundary at or
/// before it: where the char around it begins, or the length in bytes if it is past the end.
///
/// A span reporter could use it: a span that begins inside a char is moved to the beginning of the char.
pub fn start_of_char(text: &str, b: usize)
    ensures { (s : Scheme) → IsCharacterScheme s → let cs = chars text.now in
        IsGreatestBoundary cs b (to_byte_idx s cs (from_byte_idx s cs b)) }
{}

/// Converting a byte index to its line and back gives the byte index after the last line break that ends at or before
/// it, or 0 if none does.
///
/// An editor's go to line could use it: the line around the caret begins there.
pub fn start_of_line(text: &str, b: usize)
    ensures { (s : Scheme) → IsLineScheme s → let cs = chars text.now in
        IsGreatestEnd s cs b (to_byte_idx s cs (from_byte_idx s cs b)) }
{}

/// Converting an index in UTF-16 code units to a byte index and back gives the index, or the count if the index is past
/// it; but the second unit of a surrogate pair gives the first.
///
/// A position mapper of a language server could use it: only a position inside a pair moves, by one unit, and one past
/// the end, to the end.
#[tactic(auto, using(crate::proofs::lemmas::Laws::units_or_second_unit))]
pub fn utf16_round_trip(text: &str, k: usize)
    ensures second_unit { let cs = chars text.now in
        IsSecondUnit cs k → from_byte_idx Utf16 cs (to_byte_idx Utf16 cs k) + 1 ≡ k }
    ensures otherwise { let cs = chars text.now in
        (from_byte_idx Utf16 cs (to_byte_idx Utf16 cs k) ≡ min k (count Utf16 cs)) ⊎ IsSecondUnit cs k }
{}

/// The text has one UTF-16 code unit for each char, and one more for each surrogate pair.
///
/// It checks the modules `chars` and `utf16` against each other.
#[tactic(auto, using(crate::proofs::lemmas::Laws::count_laws))]
pub fn units(text: &str)
    ensures { let cs = chars text.now in count Utf16 cs ≡ count Chars cs + surrogates cs }
{}

/// Two texts, joined, have the chars, the UTF-16 code units, the surrogate pairs and the line feeds of both.
///
/// A rope with summed counts could use it: it adds up the counts of its pieces.
#[tactic(auto, using(crate::proofs::lemmas::Laws::joined_sums))]
pub fn joined_sums(a: &str, b: &str)
    ensures chars { count Chars (chars (a.now ++ b.now)) ≡ count Chars (chars a.now) + count Chars (chars b.now) }
    ensures utf16 { count Utf16 (chars (a.now ++ b.now)) ≡ count Utf16 (chars a.now) + count Utf16 (chars b.now) }
    ensures surrogates { surrogates (chars (a.now ++ b.now)) ≡ surrogates (chars a.now) + surrogates (chars b.now) }
    ensures lines_lf { count Lf (chars (a.now ++ b.now)) ≡ count Lf (chars a.now) + count Lf (chars b.now) }
{}

/// Two texts, joined, have the line breaks of both, in the schemes in which CRLF is one break; or one less, exactly if
/// `a` ends in CR and `b` starts with LF.
///
/// A rope with summed counts could use it: beside its counts it keeps whether a piece ends in CR and whether it starts
/// with LF.
#[tactic(auto, using(crate::proofs::lemmas::Laws::joined_breaks))]
pub fn joined_breaks(a: &str, b: &str)
    ensures lines_crlf { let joined = chars (a.now ++ b.now) in
        count Crlf joined + (if joins_crlf (chars a.now) (chars b.now) then 1 else 0)
        ≡ count Crlf (chars a.now) + count Crlf (chars b.now) }
    ensures lines { let joined = chars (a.now ++ b.now) in
        count Lines joined + (if joins_crlf (chars a.now) (chars b.now) then 1 else 0)
        ≡ count Lines (chars a.now) + count Lines (chars b.now) }
{}

/// Two texts, joined, answer before their seam as `a` does, and after it as `b` does, shifted by the length and the
/// count of `a`; but the index is one less if the seam makes one CRLF of a CR and an LF.
///
/// A rope with summed counts could use it: it finds the piece by its counts and asks that piece alone.
pub fn joined_places(a: &str, b: &str, i: usize, k: usize)
    ensures from_before { (s : Scheme) → i < length a.now →
        from_byte_idx s (chars (a.now ++ b.now)) i ≡ from_byte_idx s (chars a.now) i }
    ensures from_behind { (s : Scheme) → length a.now ≤ i →
        from_byte_idx s (chars (a.now ++ b.now)) i + seam_loss s (chars a.now) (chars b.now)
        ≡ count s (chars a.now) + from_byte_idx s (chars b.now) (i - length a.now) }
    ensures to_before { (s : Scheme) → k + seam_loss s (chars a.now) (chars b.now) ≤ count s (chars a.now) →
        to_byte_idx s (chars (a.now ++ b.now)) k ≡ to_byte_idx s (chars a.now) k }
    ensures to_behind { (s : Scheme) → let index = k + seam_loss s (chars a.now) (chars b.now) in
        count s (chars a.now) < index →
        to_byte_idx s (chars (a.now ++ b.now)) k
        ≡ length a.now + to_byte_idx s (chars b.now) (index - count s (chars a.now)) }
{}

/// Each larger set of break chars gives at least as many line breaks.
///
/// It checks the modules `lines_lf`, `lines_crlf` and `lines` against each other.
#[tactic(auto, using(crate::proofs::lemmas::Laws::count_laws))]
pub fn order_of_counts(text: &str)
    ensures lf_to_crlf { count Lf (chars text.now) ≤ count Crlf (chars text.now) }
    ensures crlf_to_lines { count Crlf (chars text.now) ≤ count Lines (chars text.now) }
{}

/// A greater byte index never gives a lesser index, in chars, UTF-16 code units or line breaks, and a greater index
/// never a lesser byte index.
///
/// An editor's go to line could use it: a later line never begins before an earlier one.
#[tactic(auto, using(crate::proofs::lemmas::Laws::index_laws))]
pub fn monotone(text: &str, i: usize, j: usize)
    ensures from { (s : Scheme) → i ≤ j → from_byte_idx s (chars text.now) i ≤ from_byte_idx s (chars text.now) j }
    ensures to { (s : Scheme) → i ≤ j → to_byte_idx s (chars text.now) i ≤ to_byte_idx s (chars text.now) j }
{}

/// An index that is at least the text's length in bytes goes to its end: no text has more chars, UTF-16 code units or
/// line breaks than bytes.
///
/// A caller that adds to an index could use it: if the sum does not fit `usize`, `usize::MAX` goes to the same byte.
#[tactic(auto, using(crate::proofs::lemmas::Laws::past_ends))]
pub fn past_end(text: &str)
    ensures { (s : Scheme) (k : ℕ) → length text.now ≤ k → to_byte_idx s (chars text.now) k ≡ length text.now }
{}

/// Each conversion to a byte index answers a place between chars, and these places are where `std` lets you slice the
/// text. Three definitions compute what a relation says: `ends`, in increasing order, the places with `IsEnd`; `cut`
/// the text with `IsLongestCut`; and `to_byte_idx` in UTF-16 the place with `IsGreatestWithin`.
///
/// A position mapper of a language server could use it: the text may be split at each byte index that a conversion
/// answers.
#[tactic(auto, using(crate::proofs::lemmas::Laws::end_laws))]
pub fn boundaries(text: &str, k: usize)
    ensures boundary { (s : Scheme) → IsBoundary (chars text.now) (to_byte_idx s (chars text.now) k) }
    ensures sliceable { (p : ℕ) → IsBoundary (chars text.now) p ↔ IsCharBoundary text.now p }
    ensures ends { (s : Scheme) (p : ℕ) → Contains (ends s (chars text.now)) p ↔ IsEnd s (chars text.now) p }
    ensures order { (s : Scheme) → IsStrictlyIncreasing (ends s (chars text.now)) }
    ensures greatest { IsGreatestWithin (chars text.now) k (to_byte_idx Utf16 (chars text.now) k) }
    ensures longest { IsLongestCut (chars text.now) k (cut (chars text.now) k) }
{}
