// Requests, read from the program's words.
ghost use Rattle.std.specs.Prelude.{◌≡◌, chars};
ghost use Rattle.idx.specs.Calls.{answer_of};
ghost use Rattle.idx.specs.Requests.{index_of, call_of, kernel_of, kernel_request, request_of, texts};

use crate::calls::Call;
use crate::kernels::{ChunkType, Kernel};

/// A call of the library, and how its kernel is to run if the words say that.
#[derive(Clone, Copy)]
pub struct Request {
    pub call: Call,
    pub kernel: Option<Kernel>,
}

impl Request {
    /// Reads a request from the words, or answers `None` if they are none.
    #[tactic(auto, unfolding(crate::specs::Requests::request_of), using(crate::proofs::Words::three_words, crate::proofs::Words::five_words))]
    pub fn from_words(words: &[&str]) -> Option<Request>
        ensures { result ≡ request_of (texts words.now) }
    {
        let call = match words {
            [name] => Call::find_count(name)?,
            [name, index] => Call::find_conversion(name, parse_index(index)?)?,
            [name, index, chunk, lead] => return Request::by_kernel(name, index, chunk, lead),
            _ => return None,
        };
        Some(Request { call, kernel: None })
    }

    /// Reads four words: a call by its kernel.
    #[tactic(auto, unfolding(crate::specs::Requests::kernel_request))]
    fn by_kernel(name: &str, index: &str, chunk: &str, lead: &str) -> Option<Request>
        ensures { result ≡ kernel_request name.now index.now chunk.now lead.now }
    {
        Some(Request {
            call: parse_call(name, index)?,
            kernel: Some(parse_kernel(chunk, lead)?),
        })
    }

    /// Answers the call for the text. Its kernel gives the same number over each chunk type and with any number of
    /// leading bytes.
    pub fn answer(&self, text: &str) -> usize
        ensures { result ≡ answer_of self.now.call (chars text.now) }
    {
        match self.kernel {
            None => self.call.answer(text),
            Some(kernel) => kernel.answer(self.call, text),
        }
    }
}

/// Finds the call `name`: a conversion for the index, or for `-` a counting call, which takes none.
fn parse_call(name: &str, index: &str) -> Option<Call>
    ensures { result ≡ call_of name.now index.now }
{
    if index == "-" {
        return Call::find_count(name);
    }
    Call::find_conversion(name, parse_index(index)?)
}

/// Reads how to run a kernel, or answers `None` if `chunk` names no chunk type or `lead` is no index.
fn parse_kernel(chunk: &str, lead: &str) -> Option<Kernel>
    ensures { result ≡ kernel_of chunk.now lead.now }
{
    Some(Kernel {
        chunk: ChunkType::find(chunk)?,
        lead: parse_index(lead)?,
    })
}

/// Reads a number in decimal digits, or answers `None` if the word is empty, has another char, or writes a number that
/// `usize` does not hold.
#[tactic(auto, unfolding(crate::specs::Requests::index_of))]
fn parse_index(word: &str) -> Option<usize>
    ensures { result ≡ index_of word.now }
{
    // `parse` takes a plus sign, which no index has.
    if word.starts_with('+') {
        return None;
    }
    word.parse().ok()
}
