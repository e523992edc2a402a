ghost use Rattle.std.specs.Prelude.{◌≡◌, ◌+◌, ◌≤◌, ◌++◌, length};
ghost use Rattle.elf_core.specs.Numbers.{half, word, xword};

use byte_buffer::ByteBuffer;

/// Some bytes of a file.
pub type Piece = ByteBuffer<512>;

/// Adds a number of 2 bytes.
#[tactic(auto, unfolding(crate::specs::Numbers::half))]
pub(crate) fn put_half(piece: &mut Piece, n: u16)
    requires { length piece.old ≤ 510 }
    ensures added { piece.new ≡ piece.old ++ half n }
    ensures len { length piece.new ≡ length piece.old + 2 }
{
    piece.put(&n.to_le_bytes());
}

/// Adds a number of 4 bytes.
#[tactic(auto, unfolding(crate::specs::Numbers::word))]
pub(crate) fn put_word(piece: &mut Piece, n: u32)
    requires { length piece.old ≤ 508 }
    ensures added { piece.new ≡ piece.old ++ word n }
    ensures len { length piece.new ≡ length piece.old + 4 }
{
    piece.put(&n.to_le_bytes());
}

/// Adds a number of 8 bytes.
#[tactic(auto, unfolding(crate::specs::Numbers::xword))]
pub(crate) fn put_xword(piece: &mut Piece, n: u64)
    requires { length piece.old ≤ 504 }
    ensures added { piece.new ≡ piece.old ++ xword n }
    ensures len { length piece.new ≡ length piece.old + 8 }
{
    piece.put(&n.to_le_bytes());
}
