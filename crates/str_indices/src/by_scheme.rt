//! A number for each scheme, such as the counts of a text.
ghost use Rattle.std.specs.Prelude.{◌≡◌, ◌+◌, ◌^◌, ◌<◌, ◌≤◌};
ghost use Rattle.str_indices.specs.ByScheme.{number_of};
ghost use Rattle.str_indices.specs.Prelude.{Scheme};

use crate::schemes::Scheme;

/// A count for each scheme.
#[derive(Clone, Copy, PartialEq, Eq, Debug)]
#[repr(C)]
pub struct Counts {
    /// In the order of `Scheme::ALL`.
    pub(crate) numbers: [usize; 5],
}

impl Counts {
    /// The counts of the empty text.
    pub const NONE: Counts = Counts { numbers: [0; 5] };

    /// Makes counts, each by a function of its scheme.
    #[inline(always)]
    pub fn of_each<F: Fn(Scheme) -> usize>(count_of: F) -> Counts
        requires { (s : Scheme) → F.pre count_of s }
        ensures { (s : Scheme) → F.post count_of s (number_of result s) }
    {
        Counts {
            numbers: [
                count_of(Scheme::Chars),
                count_of(Scheme::Utf16),
                count_of(Scheme::Lf),
                count_of(Scheme::Crlf),
                count_of(Scheme::Lines),
            ],
        }
    }

    /// Returns the count of scheme `s`.
    #[inline(always)]
    pub fn get(&self, s: Scheme) -> usize
        ensures { result ≡ number_of self.now s }
    {
        self.numbers[s as usize]
    }

    /// Adds the counts, scheme by scheme.
    #[inline(always)]
    pub fn plus(self, other: Counts) -> Counts
        requires { (s : Scheme) → number_of self s + number_of other s < 2 ^ 64 }
        ensures { (s : Scheme) → number_of result s ≡ number_of self s + number_of other s }
    {
        Counts::of_each(|s| self.get(s) + other.get(s))
    }

    /// Subtracts the counts of `other`, scheme by scheme.
    #[inline(always)]
    pub fn minus(self, other: Counts) -> Counts
        requires { (s : Scheme) → number_of other s ≤ number_of self s }
        ensures { (s : Scheme) → number_of result s + number_of other s ≡ number_of self s }
    {
        Counts::of_each(|s| self.get(s) - other.get(s))
    }
}
