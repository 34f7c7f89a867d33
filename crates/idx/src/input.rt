// Reading the input.
ghost use Rattle.std.specs.Prelude.{IfOk, IfErr};
ghost use Rattle.idx.specs.Program.{IsWholeInput};
ghost use Rattle.idx.specs.Faults.{IsInputFault};

use crate::faults::Fault;
use std::alloc::Global;
use std::io::Read;

/// How many bytes one read asks for.
const READ_LEN: usize = 32 * 1024;

/// Reads all bytes that the reader gives, until a read gives none. A failed read is `Read` at once, and a refused
/// growth of the list is `NoMemory`, also over a reader that never ends.
pub fn read_all<R: Read>(alloc: Global, input: &mut R) -> Result<Vec<u8>, Fault>
    ensures ok { IfOk result (λ bytes.
        IsWholeInput (R.remaining input.old) (R.remaining input.new) bytes.items) }
    ensures fault { IfErr result IsInputFault }
{
    let mut bytes = Vec::new(alloc);
    let mut buffer = [0; READ_LEN];
    loop {
        let count = input.read(&mut buffer).map_err(|_| Fault::Read)?;
        if count == 0 {
            return Ok(bytes);
        }
        bytes
            .extend_from_slice(&buffer[..count])
            .map_err(|_| Fault::NoMemory)?;
    }
}
