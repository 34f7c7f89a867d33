//! Splits a text in two.
ghost use Rattle.std.specs.Prelude.{◌≡◌, ◌++◌, chars};
ghost use Rattle.str_indices.specs.Text.{size};
ghost use Rattle.str_indices.specs.Relations.{IsBoundary};

/// Splits a text at the boundary `at`.
pub fn halves(text: &str, at: usize) -> (&str, &str)
    requires { IsBoundary (chars text.now) at }
    ensures parts { chars text.now ≡ chars result.0.now ++ chars result.1.now }
    ensures place { size (chars result.0.now) ≡ at }
{
    text.split_at(at)
}
