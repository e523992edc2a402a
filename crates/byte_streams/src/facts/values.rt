ghost use Rattle.std.specs.Prelude.{◌≡◌, ◌≤◌, ◌++◌, length};
ghost use Rattle.std.specs.List.{list_all};
ghost use Rattle.definitions.specs.InfoPage.{text_of_name};
ghost use Rattle.byte_streams.specs.Texts.{is_printable, name_text, numbers_text, value_text, word_text};

use crate::Line;
use crate::facts::name::Name;

/// Writes a key into an empty buffer, and numbers after it.
pub fn put_numbers(line: &mut Line, key: &[u8], numbers: &[u64])
    requires empty { length line.old ≡ 0 }
    requires short { length key.now ≤ 20 }
    requires few { length numbers.now ≤ 3 }
    ensures text { line.new ≡ numbers_text key.now numbers.now }
    ensures len { length line.new ≤ 160 }
{
    line.put(key);
    for &n in numbers {
        line.put(b" ");
        line.put_number(n);
    }
}

/// Writes a key into an empty buffer, and a word's 16 hexadecimal digits after it.
pub fn put_hex_word(line: &mut Line, key: &[u8], word: u64)
    requires empty { length line.old ≡ 0 }
    requires short { length key.now ≤ 30 }
    ensures text { line.new ≡ word_text key.now word }
    ensures len { length line.new ≤ 160 }
{
    line.put(key);
    line.put(b" 0x");
    line.put_hex(&word.to_be_bytes());
}

/// Writes a name of an identity into an empty buffer, up to its first zero byte.
pub fn put_name(line: &mut Line, name: Name, bytes: &[u8; 65])
    requires { length line.old ≡ 0 }
    ensures text { line.new ≡ name_text name bytes.now }
    ensures len { length line.new ≤ 160 }
{
    put_text(line, name.key(), bytes);
}

/// Writes a key into an empty buffer, and then a text up to its first zero byte: as it is, or as the hexadecimal digits
/// of its bytes if one of them isn't printable.
pub fn put_text(line: &mut Line, key: &[u8], bytes: &[u8])
    requires empty { length line.old ≡ 0 }
    requires short { length key.now ≤ 20 }
    requires few { length bytes.now ≤ 65 }
    ensures text { line.new ≡ key.now ++ value_text (text_of_name bytes.now) }
    ensures len { length line.new ≤ 160 }
{
    let text = text_of(bytes);
    line.put(key);
    if is_printable(text) {
        line.put(b" ");
        line.put(text);
    } else {
        line.put(b"_hex ");
        line.put_hex(text);
    }
}

/// Returns whether each byte is a space or a visible character of ASCII.
pub fn is_printable(text: &[u8]) -> bool
    ensures { result ≡ list_all is_printable text.now }
{
    text.iter().all(|&b| b' ' <= b && b <= b'~')
}

/// Returns how many bytes a text has before its first zero byte.
fn text_len(bytes: &[u8]) -> usize
    ensures { result ≡ length (text_of_name bytes.now) }
{
    bytes.iter().take_while(|b| **b != 0).count()
}

/// Returns a text up to its first zero byte.
fn text_of(bytes: &[u8]) -> &[u8]
    ensures text { result.now ≡ text_of_name bytes.now }
    ensures len { length result.now ≤ length bytes.now }
{
    let end = text_len(bytes);
    &bytes[..end]
}
