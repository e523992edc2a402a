ghost use Rattle.std.specs.Prelude.{◌≡◌, ◌↔◌, IsTrue, map, string_bytes};
ghost use Rattle.command_words.specs.Words.{is_path};

/// Returns whether a word names a file: it isn't empty and doesn't begin with a dash.
pub fn is_path(word: &str) -> bool
    ensures { result ≡ is_path word.now }
{
    match word.as_bytes() {
        [] => false,
        [first, ..] => *first != b'-',
    }
}

/// Returns whether words are these texts, one by one.
pub fn equal(words: &[String], texts: &[&str]) -> bool
    ensures { IsTrue result ↔ (map string_bytes words.now ≡ map (λ text. text.now) texts.now) }
{
    if words.len() != texts.len() {
        return false;
    }
    for (word, text) in words.iter().zip(texts) {
        if word.as_str() != *text {
            return false;
        }
    }
    true
}
