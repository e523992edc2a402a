ghost use Rattle.std.specs.Prelude.{◌≡◌, ◌++◌, ◌∷◌, [], IfOk, IfErr, OnOk, take, drop, filter, true, false};
ghost use Rattle.std.specs.List.{list_all};
ghost use Rattle.script.specs.Grammar.{first_line, is_printable, lines_in, lines_of};
ghost use Rattle.script.specs.Shapes.{is_word, texts, words_of};

use crate::fault::FaultKind;
use arrayvec::ArrayVec;

/// One more than the most words that a line may have.
pub const MAX_WORDS: usize = 10;

/// The first line of a text.
#[derive(Clone, Copy)]
pub struct FirstLine<'a> {
    pub line: &'a [u8],
    /// The text after the line's LF, if it has one.
    pub behind: Option<&'a [u8]>,
}

/// Takes the first line off a text, and puts its first words, which stand between spaces, into an empty list. A line
/// that says something has fewer words than fit.
pub fn first_line<'a>(
    text: &'a [u8],
    words: &mut ArrayVec<&'a [u8], MAX_WORDS>,
) -> Result<FirstLine<'a>, FaultKind>
    requires { words.old.items ≡ [] }
    ensures line { IfOk result (λ first. first.line.now ≡ first_line text.now) }
    ensures printable { OnOk result (list_all is_printable (first_line text.now) ≡ true) }
    ensures words { OnOk result (texts words.new.items ≡ take 10 (words_of (first_line text.now))) }
    ensures behind { IfOk result (λ first. lines_in first.behind ≡ drop 1 (lines_of text.now)) }
    ensures byte { IfErr result (λ kind. (kind ≡ FaultKind.Byte)
        × (list_all is_printable (first_line text.now) ≡ false)) }
{
    let mut from = 0;
    for (i, b) in text.iter().enumerate() {
        if !b.is_ascii_graphic() {
            push_word(&text[from..i], words);
            match b {
                b' ' => from = i + 1,
                b'\n' => {
                    return Ok(FirstLine {
                        line: &text[..i],
                        behind: Some(&text[i + 1..]),
                    });
                }
                _ => return Err(FaultKind::Byte),
            }
        }
    }
    push_word(&text[from..], words);
    Ok(FirstLine {
        line: text,
        behind: None,
    })
}

/// Adds a word, unless it is empty or the list is full.
fn push_word<'a>(word: &'a [u8], words: &mut ArrayVec<&'a [u8], MAX_WORDS>)
    ensures { texts words.new.items ≡ take 10 (texts words.old.items ++ filter is_word (word.now ∷ [])) }
{
    if !words.is_full() && !word.is_empty() {
        words.push(word);
    }
}
