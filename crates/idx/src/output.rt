// Writing the answer.
ghost use Rattle.std.specs.Prelude.{◌≡◌, ◌≤◌, drop, IfErr, OnOk, OnErr};
ghost use Rattle.std.specs.Io.KnownBytes.{Appends};
ghost use Rattle.idx.specs.Program.{AppendsBeginning, decimal_line};

use crate::faults::Fault;
use std::io::Write;

/// How many bytes the longest line takes: twenty digits and a line feed.
pub const LINE_LEN: usize = 21;

/// Writes the decimal digits of `n` and a line feed at the end of `buffer`, and returns them.
pub fn decimal_line(n: usize, buffer: &mut [u8; LINE_LEN]) -> &[u8]
    ensures { result.now ≡ decimal_line n }
{
    let start = put_decimal_line(n, buffer);
    let all = &buffer[..];
    &all[start..]
}

/// Writes that line at the end of `buffer`, and returns where it starts.
fn put_decimal_line(n: usize, buffer: &mut [u8; LINE_LEN]) -> usize
    ensures within { result ≤ LINE_LEN }
    ensures line { drop result buffer.new ≡ decimal_line n }
{
    let mut start = LINE_LEN - 1;
    buffer[start] = b'\n';
    let mut rest = n;
    while rest >= 10 {
        start -= 1;
        buffer[start] = b'0' + (rest % 10) as u8;
        rest /= 10;
    }
    start -= 1;
    buffer[start] = b'0' + rest as u8;
    start
}

/// Writes all the bytes and flushes the writer. A write that fails or takes no byte, or a failed flush, is `Write` at
/// once.
pub fn write_text<W: Write>(output: &mut W, bytes: &[u8]) -> Result<(), Fault>
    ensures ok { OnOk result (Appends (W.contents output.old) (W.contents output.new) bytes.now) }
    ensures fault { IfErr result (λ fault. fault ≡ Fault.Write) }
    ensures err { OnErr result
        (AppendsBeginning (W.contents output.old) (W.contents output.new) bytes.now) }
{
    let mut written = 0;
    while written < bytes.len() {
        match output.write(&bytes[written..]) {
            Ok(count) if count > 0 => written += count,
            _ => return Err(Fault::Write),
        }
    }
    output.flush().map_err(|_| Fault::Write)
}
