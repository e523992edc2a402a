ghost use Rattle.std.specs.Prelude.{◌≡◌, ◌+◌, ◌*◌, ◌≤◌, ◌++◌, length};
ghost use Rattle.run_picture.specs.Texts.{escape, escaped, named, use_text};

use byte_buffer::ByteBuffer;
use itoa::Buffer;

/// A piece of the picture's text.
pub(crate) type Piece = ByteBuffer<8192>;

/// Adds a name and a number.
pub(crate) fn put_named(piece: &mut Piece, name: &[u8], number: u64)
    requires { length piece.old + length name.now ≤ 8172 }
    ensures added { piece.new ≡ piece.old ++ named name.now number }
    ensures len { length piece.new ≤ length piece.old + length name.now + 20 }
{
    let mut buffer = Buffer::new();
    piece.put(name);
    piece.put(buffer.format(number).as_bytes());
}

/// Adds a text in which the bytes that have a meaning in XML are written as entities.
pub(crate) fn put_escaped(piece: &mut Piece, text: &[u8])
    requires { length piece.old + 5 * length text.now ≤ 8192 }
    ensures added { piece.new ≡ piece.old ++ escaped text.now }
    ensures len { length piece.new ≤ length piece.old + 5 * length text.now }
{
    for b in text {
        put_escape(piece, *b);
    }
}

fn put_escape(piece: &mut Piece, b: u8)
    requires { length piece.old ≤ 8187 }
    ensures added { piece.new ≡ piece.old ++ escape b }
    ensures len { length piece.new ≤ length piece.old + 5 }
{
    match b {
        b'&' => piece.put(b"&amp;"),
        b'<' => piece.put(b"&lt;"),
        b'>' => piece.put(b"&gt;"),
        _ => piece.put(&[b]),
    }
}

/// Adds a use of a shape that the head defines.
pub(crate) fn put_use(piece: &mut Piece, kind: &[u8], name: &[u8])
    requires { length piece.old + length kind.now + length name.now ≤ 8000 }
    ensures added { piece.new ≡ piece.old ++ use_text kind.now name.now }
    ensures len { length piece.new ≤ length piece.old + length kind.now + length name.now + 20 }
{
    piece.put(b"<use href='#");
    piece.put(kind);
    piece.put(name);
    piece.put(b"'/>\n");
}
