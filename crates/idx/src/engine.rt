// The program, over any reader and writer.
ghost use Rattle.std.specs.Prelude.{◌≡◌, ◌≢◌, ◌↔◌, IsNone, IfErr, OnOk, IsErrOf};
ghost use Rattle.std.specs.Io.KnownBytes.{Appends};
ghost use Rattle.idx.specs.Requests.{request_of, texts};
ghost use Rattle.idx.specs.Program.{AppendsBeginning, Answers, IsRefusedInput};

use crate::faults::Fault;
use crate::input::read_all;
use crate::output::{LINE_LEN, decimal_line, write_text};
use crate::requests::Request;
use std::alloc::Global;
use std::io::{Read, Write};

/// Answers the call that the words name, for all the text that the reader gives: it writes the number in decimal and a
/// line feed, and flushes the writer. If the words name no call, the input is not UTF-8, a read, a write or the flush
/// fails, or memory is refused, it returns that fault. Nothing that failed is tried again.
pub fn run<R: Read, W: Write>(
    alloc: Global,
    words: &[&str],
    input: &mut R,
    output: &mut W,
) -> Result<(), Fault>
    ensures ok { OnOk result (
        Answers (texts words.now) (R.remaining input.old) (R.remaining input.new)
        (Appends (W.contents output.old) (W.contents output.new))) }

    // Words that are no request are refused before anything is read.
    ensures usage { IsErrOf result Fault.Usage ↔ IsNone (request_of (texts words.now)) }
    ensures usage_reads_nothing { IsErrOf result Fault.Usage → input.new ≡ input.old }

    ensures not_utf8 { IsErrOf result Fault.NotUtf8 →
        IsRefusedInput (texts words.now) (R.remaining input.old) (R.remaining input.new) }

    // Only a failed write leaves something written: a beginning of the answer.
    ensures write { IsErrOf result Fault.Write →
        Answers (texts words.now) (R.remaining input.old) (R.remaining input.new)
        (AppendsBeginning (W.contents output.old) (W.contents output.new)) }
    ensures nothing_written { IfErr result (λ fault.
        fault ≢ Fault.Write → output.new ≡ output.old) }
{
    let request = Request::from_words(words).ok_or(Fault::Usage)?;
    let bytes = read_all(alloc, input)?;
    let text = str_indices::from_utf8(&bytes).ok_or(Fault::NotUtf8)?;
    let mut buffer = [0; LINE_LEN];
    write_text(output, decimal_line(request.answer(text), &mut buffer))
}
