//! The head of a picture, before its columns, and its foot, after them.
ghost use Rattle.std.specs.Prelude.{◌≡◌, ◌≤◌, ◌<◌, ◌^◌, length, OnOk, OnErr};
ghost use Rattle.definitions.specs.Disk.{HasRisen};
ghost use Rattle.definitions.specs.Streams.{TakesAll, TakesFront};
ghost use Rattle.run_picture.specs.Picture.{foot, head, size_text, width};

use crate::piece::{Piece, put_named};
use crate::shapes::{LANES, LEGEND};
use byte_streams::{Sink, put_all};
use page_core::Failed;

/// Begins a picture of `columns` columns.
pub fn put_head<O: Sink>(out: &mut O, columns: u32) -> Result<(), Failed>
    requires { columns < 2 ^ 27 }
    ensures whole { OnOk result (TakesAll (head columns) (O.taken out.old) (O.taken out.new)) }
    ensures front { TakesFront (head columns) (O.taken out.old) (O.taken out.new) }
    ensures counted { O.faults out.old ≤ O.faults out.new }
    ensures cause { OnErr result (HasRisen (O.faults out.old) (O.faults out.new)) }
{
    put_all(out, sized(width(columns)).as_bytes())?;
    put_all(out, LANES)
}

/// Makes the start of a picture of this width.
fn sized(width: u64) -> Piece
    ensures { result ≡ size_text width }
{
    let mut piece = Piece::new();
    put_named(
        &mut piece,
        b"<svg xmlns='http://www.w3.org/2000/svg' viewBox='0 0 ",
        width,
    );
    put_named(&mut piece, b" 404' width='", width);
    piece.put(b"' height='404' font-family='sans-serif' font-size='11'>\n");
    piece
}

/// Returns the width of a picture, which is at least that of its legend.
fn width(columns: u32) -> u64
    requires { columns < 2 ^ 27 }
    ensures { result ≡ width columns }
{
    let width = 88 + 16 * u64::from(columns);
    if width < 720 { 720 } else { width }
}

/// Ends a picture, with its legend.
#[tactic(auto, unfolding(crate::specs::Picture::foot))]
pub fn put_foot<O: Sink>(out: &mut O) -> Result<(), Failed>
    ensures whole { OnOk result (TakesAll foot (O.taken out.old) (O.taken out.new)) }
    ensures front { TakesFront foot (O.taken out.old) (O.taken out.new) }
    ensures counted { O.faults out.old ≤ O.faults out.new }
    ensures cause { OnErr result (HasRisen (O.faults out.old) (O.faults out.new)) }
{
    put_all(out, LEGEND)
}
