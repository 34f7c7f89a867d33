//! A digest of all answers.

/// The distance of the bytes that are taken of a text that is read in parts.
const STEP: usize = 997;

/// A number that depends on each number that it took, and on their order.
#[derive(Clone, Copy)]
pub(crate) struct Digest {
    sum: u64,
}

impl Digest {
    /// The digest of no number.
    pub(crate) fn new() -> Digest {
        Digest {
            sum: 0xcbf2_9ce4_8422_2325,
        }
    }

    /// Takes one number more, as a hash of Fowler, Noll and Vo does.
    pub(crate) fn take(&mut self, number: usize) {
        self.sum = (self.sum ^ number as u64).wrapping_mul(0x0000_0100_0000_01b3);
        self.sum ^= self.sum >> 29;
    }

    /// Takes whether something holds.
    pub(crate) fn mark(&mut self, holds: bool) {
        self.take(usize::from(holds));
    }

    /// Takes a text: its length, its first byte and its last.
    pub(crate) fn text(&mut self, text: &str) {
        let bytes = text.as_bytes();
        self.take(bytes.len());
        if let (Some(first), Some(last)) = (bytes.first(), bytes.last()) {
            self.take(usize::from(*first));
            self.take(usize::from(*last));
        }
    }

    /// Takes a part of a text that is read from its beginning on: its bytes at the text's multiples of 997.
    pub(crate) fn part(&mut self, start: usize, part: &str) {
        let bytes = part.as_bytes();
        let first = STEP - 1 - start.saturating_add(STEP - 1) % STEP;
        for i in 0..(bytes.len() / STEP).saturating_add(1) {
            let at = first.saturating_add(i.saturating_mul(STEP));
            if let Some(byte) = bytes.get(at) {
                self.take(usize::from(*byte));
            }
        }
    }

    /// The digest.
    pub(crate) fn sum(self) -> u64 {
        self.sum
    }
}
