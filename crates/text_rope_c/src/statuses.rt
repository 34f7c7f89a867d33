// The statuses of changes.
ghost use Rattle.std.specs.Prelude.{◌≡◌};
ghost use Rattle.text_rope_c.specs.Statuses.{status_of};

use text_rope::Refusal;

/// The status of bytes that are not UTF-8.
pub(crate) const NOT_UTF8: u32 = 5;

/// The status of an answer.
pub(crate) fn status_at(answer: Result<(), Refusal>) -> u32
    ensures { result ≡ status_of answer }
{
    match answer {
        Ok(()) => 0,
        Err(Refusal::NotOrdered) => 1,
        Err(Refusal::NotBoundary) => 2,
        Err(Refusal::TooLong) => 3,
        Err(Refusal::NoMemory) => 4,
    }
}
