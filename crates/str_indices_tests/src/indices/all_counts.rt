//! A table of the counts in all schemes at once.
use str_indices::{Scheme, counts};

/// The text of the examples of `utf16`.
const FROGS: &str = "Hel🐸lo world! こん🐸にち🐸🐸は!";

/// A break of each kind.
const BREAKS: &str =
    "\u{A}Hello\u{D}\u{A}\u{D}せ\u{B}か\u{C}い\u{85}. There\u{2028}is something.\u{2029}";

const REPEATED: &str =
    "Hello world! Hello せかい! Hello world! Hello せかい! Hello world! Hello せかい! Hello world! Hello せかい! Hello world! Hello せかい! Hello world! Hello せかい! Hello world! Hello せかい! Hello world! Hello せかい!";

/// A text, and its count in each scheme, in the order of `Scheme::ALL`.
type CountsRow = (&'static str, [usize; 5]);

const TEXTS: &[CountsRow] = &[
    ("", [0, 0, 0, 0, 0]),
    ("h", [1, 1, 0, 0, 0]),
    ("a\r\nb", [4, 4, 1, 1, 1]),
    ("\r\r\n\n", [4, 4, 2, 3, 3]),
    ("Here\r\nare\r\nsome\r\nwords", [22, 22, 3, 3, 3]),
    ("one line of it\rand more than a chunk", [36, 36, 0, 1, 1]),
    ("a\u{B}b\u{C}", [4, 4, 0, 0, 2]),
    ("é\u{85}x", [3, 3, 0, 0, 1]),
    ("a\u{2028}b", [3, 3, 0, 0, 1]),
    ("“©”…", [4, 4, 0, 0, 0]),
    ("🐸", [1, 2, 0, 0, 0]),
    (FROGS, [23, 27, 0, 0, 0]),
    (BREAKS, [37, 37, 2, 3, 8]),
    (REPEATED, [191, 191, 0, 0, 0]),
];

#[test]
fn all_counts_at_once(rt: HostRuntime) {
    for (text, want) in TEXTS {
        let told = counts(text);
        for s in Scheme::ALL {
            assert_eq!(rt; told.get(s), want[s as usize], "{s:?} {text:?}");
        }
    }
}
