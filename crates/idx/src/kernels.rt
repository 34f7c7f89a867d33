// The kernels of the library, over each chunk type.
ghost use Rattle.std.specs.Prelude.{◌≡◌, ◌≤◌, chars, length};
ghost use Rattle.str_indices.specs.Prelude.{cut, IsBoundary};
ghost use Rattle.idx.specs.Calls.{answer_of};
ghost use Rattle.idx.specs.Requests.{chunk_type_named};

use crate::calls::Call;
use crate::wide::Wide;
use byte_chunk::{ByteChunk, Plain, Probe};
use std::simd::u8x16;
use str_indices::utf16;

/// A chunk type that a kernel can be asked to run over.
#[derive(Clone, Copy)]
pub enum ChunkType {
    /// An array of eight bytes.
    Plain,
    /// The machine word, of eight bytes.
    Word,
    /// A vector of sixteen bytes.
    Lanes,
    /// This program's own, a vector of thirty-two bytes.
    Wide,
}

/// How a kernel is to run: over which chunk type, and with how many leading bytes.
#[derive(Clone, Copy)]
pub struct Kernel {
    pub chunk: ChunkType,
    pub lead: usize,
}

impl ChunkType {
    /// Finds the chunk type with this name, or `None`.
    #[tactic(auto, unfolding(crate::specs::Requests::chunk_type_named))]
    pub fn find(name: &str) -> Option<ChunkType>
        ensures { result ≡ chunk_type_named name.now }
    {
        match name {
            "plain" => Some(ChunkType::Plain),
            "word" => Some(ChunkType::Word),
            "lanes" => Some(ChunkType::Lanes),
            "wide" => Some(ChunkType::Wide),
            _ => None,
        }
    }
}

impl Kernel {
    /// Answers the call by its kernel, for all of the text.
    // Every chunk type gives the same number. So the contract names none, and a body that runs the kernel over another
    // one than the words say meets it too: only the code here shows which one runs.
    pub fn answer(&self, call: Call, text: &str) -> usize
        ensures { result ≡ answer_of call (chars text.now) }
    {
        match self.chunk {
            ChunkType::Plain => answer_by_chunks::<Plain>(call, text, self.lead),
            ChunkType::Word => answer_by_chunks::<usize>(call, text, self.lead),
            ChunkType::Lanes => answer_by_chunks::<u8x16>(call, text, self.lead),
            ChunkType::Wide => answer_by_chunks::<Wide>(call, text, self.lead),
        }
    }
}

/// Answers the call by its kernel for all of the text, over chunks of any type, after `lead` bytes that are walked one
/// by one.
fn answer_by_chunks<T: ByteChunk>(call: Call, text: &str, lead: usize) -> usize
    ensures { result ≡ answer_of call (chars text.now) }
{
    let probe = &mut Probe::<T>::of(text);
    let end = text_end(probe);
    match call {
        Call::Count(scheme) => scheme.count_impl(probe, end, lead),
        Call::Surrogates => utf16::count_surrogates_impl(probe, end, lead),
        Call::From(scheme, byte) => scheme.from_byte_idx_impl(probe, byte, lead),
        Call::To(scheme, index) => scheme.to_byte_idx_impl(probe, index, lead),
    }
}

/// Returns where the text of the probe ends: the `end` for a count of all of it.
#[tactic(auto, using(str_indices::proofs::lemmas::Callers::whole_text))]
fn text_end<T: ByteChunk>(probe: &Probe<'_, T>) -> usize
    ensures within { result ≤ length probe.now.text }
    ensures boundary { IsBoundary (chars probe.now.text) result }
    ensures whole { cut (chars probe.now.text) result ≡ chars probe.now.text }
{
    probe.len()
}
