//! The column of an event.
ghost use Rattle.std.specs.Prelude.{◌≡◌, ◌+◌, ◌*◌, ◌≤◌, ◌<◌, ◌^◌, ◌++◌, codes, length, OnOk, OnErr, if◌then◌else◌, []};
ghost use Rattle.definitions.specs.Disk.{HasRisen};
ghost use Rattle.definitions.specs.Streams.{TakesAll, TakesFront};
ghost use Rattle.plain_machine.specs.Fitting.{IsFitting};
ghost use Rattle.plain_machine.specs.Replies.{line_of};
ghost use Rattle.run_picture.specs.Lanes.{after, begins};
ghost use Rattle.run_picture.specs.Picture.{above_of, activity_label, activity_name, bands_text, begun_label, below_of};
ghost use Rattle.run_picture.specs.Picture.{call_name, call_text, column, column_by, cut_text, image_label, image_name};
ghost use Rattle.run_picture.specs.Picture.{label_text, open_text, power_name, reply_class, reply_label, shown_by};
ghost use Rattle.run_picture.specs.Picture.{shown_text, title_of, words_label};
ghost use Rattle.run_picture.specs.Telling.{told_by};
ghost use Rattle.run_picture.specs.Words.{event_words};

use crate::calls::{Call, Drawn, call_of};
use crate::lanes::{Activity, ImageShown, Lanes, begins, is_core};
use crate::piece::{Piece, put_escaped, put_named, put_use};
use crate::telling::{Told, told_by};
use crate::words::put_words;
use byte_streams::{Sink, put_all};
use page_core::Failed;
use plain_machine::{Event, Reply};

/// Draws an event with its reply and the reply's line, and what the lanes show after it.
pub fn put_column<O: Sink>(
    out: &mut O,
    lanes: &mut Lanes,
    event: &Event,
    reply: &Reply,
    line: &[u8],
) -> Result<(), Failed>
    requires few { lanes.old.column < 2 ^ 27 }
    requires fits { IsFitting event.now }
    requires line { line.now ≡ line_of reply.now }
    requires short { length line.now ≤ 192 }
    ensures lanes { lanes.new ≡ after lanes.old event.now (told_by reply.now) }
    ensures whole { OnOk result (TakesAll (column lanes.old event.now reply.now) (O.taken out.old) (O.taken out.new)) }
    ensures front { TakesFront (column lanes.old event.now reply.now) (O.taken out.old) (O.taken out.new) }
    ensures counted { O.faults out.old ≤ O.faults out.new }
    ensures cause { OnErr result (HasRisen (O.faults out.old) (O.faults out.new)) }
{
    let before = *lanes;
    *lanes = before.after(event, told_by(reply));
    put_all(
        out,
        column_of(before, event, told_by(reply), line).as_bytes(),
    )
}

#[inline(never)]
fn column_of(lanes: Lanes, event: &Event, told: Told, line: &[u8]) -> Piece
    requires few { lanes.column < 2 ^ 27 }
    requires fits { IsFitting event.now }
    requires short { length line.now ≤ 192 }
    ensures { result ≡ column_by (72 + 16 * lanes.column) lanes event.now told (event_words event.now) line.now }
{
    let words = words_of(event);
    column_by(
        place_of(lanes.column),
        lanes,
        event,
        told,
        words.as_bytes(),
        line,
    )
}

/// Makes the column of an event from its words, from what its reply says, and from the reply's line.
fn column_by(
    place: u64,
    lanes: Lanes,
    event: &Event,
    told: Told,
    words: &[u8],
    line: &[u8],
) -> Piece
    requires few { lanes.column < 2 ^ 27 }
    requires words { length words.now ≤ 400 }
    requires line { length line.now ≤ 192 }
    ensures { result ≡ column_by place lanes event.now told words.now line.now }
{
    let mut piece = Piece::new();
    put_open(&mut piece, place);
    put_title(&mut piece, words, line);
    put_shown(&mut piece, lanes, event, told);
    put_above(&mut piece, event, words);
    put_below(&mut piece, told, line);
    piece.put(b"</g>\n");
    piece
}

/// Returns how far from the left a column stands.
fn place_of(column: u32) -> u64
    requires { column < 2 ^ 27 }
    ensures { result ≡ 72 + 16 * column }
{
    72 + 16 * u64::from(column)
}

fn put_open(piece: &mut Piece, place: u64)
    requires { length piece.old ≤ 100 }
    ensures added { piece.new ≡ piece.old ++ open_text place }
    ensures len { length piece.new ≤ length piece.old + 100 }
{
    put_named(piece, b"<g transform='translate(", place);
    piece.put(b")'>\n");
}

fn words_of(event: &Event) -> Piece
    requires fits { IsFitting event.now }
    ensures text { result ≡ event_words event.now }
    ensures len { length result ≤ 400 }
{
    let mut words = Piece::new();
    put_words(&mut words, event);
    words
}

/// Adds the tooltip of a column.
fn put_title(piece: &mut Piece, words: &[u8], line: &[u8])
    requires room { length piece.old ≤ 1000 }
    requires words { length words.now ≤ 400 }
    requires line { length line.now ≤ 192 }
    ensures added { piece.new ≡ piece.old ++ title_of words.now line.now }
    ensures len { length piece.new ≤ length piece.old + 3000 }
{
    piece.put(b"<title>");
    put_escaped(piece, words);
    piece.put(b": ");
    put_escaped(piece, line);
    piece.put(b"</title>\n");
}

/// Adds what the lanes show.
fn put_shown(piece: &mut Piece, lanes: Lanes, event: &Event, told: Told)
    requires few { lanes.column < 2 ^ 27 }
    requires room { length piece.old ≤ 4000 }
    ensures added { piece.new ≡ piece.old ++ shown_text lanes event.now told }
    ensures len { length piece.new ≤ length piece.old + 500 }
{
    let after = lanes.after(event, told);
    let call = call_of(lanes.activity, event, told);
    put_shown_by(piece, lanes.image, after, begins(event, told), call, event);
}

fn put_shown_by(
    piece: &mut Piece,
    old: ImageShown,
    new: Lanes,
    begins: bool,
    call: Drawn,
    event: &Event,
)
    requires { length piece.old ≤ 4000 }
    ensures added { piece.new ≡ piece.old ++ shown_by old new begins call event.now }
    ensures len { length piece.new ≤ length piece.old + 500 }
{
    put_bands(piece, new);
    put_labels(piece, old, new, begins);
    put_call(piece, call);
    put_cut(piece, event);
}

/// Adds the names of what begins in a column.
fn put_labels(piece: &mut Piece, old: ImageShown, new: Lanes, begins: bool)
    requires { length piece.old ≤ 5000 }
    ensures added { piece.new ≡ piece.old ++ (begun_label begins new.activity ++ image_label old new.image) }
    ensures len { length piece.new ≤ length piece.old + 120 }
{
    put_begun(piece, begins, new.activity);
    put_image(piece, old, new.image);
}

fn put_begun(piece: &mut Piece, begins: bool, activity: Activity)
    requires { length piece.old ≤ 5100 }
    ensures added { piece.new ≡ piece.old ++ begun_label begins activity }
    ensures len { length piece.new ≤ length piece.old + 60 }
{
    if begins {
        put_activity(piece, activity);
    }
}

fn put_cut(piece: &mut Piece, event: &Event)
    requires { length piece.old ≤ 5500 }
    ensures added { piece.new ≡ piece.old ++ cut_text event.now }
    ensures len { length piece.new ≤ length piece.old + 40 }
{
    match event {
        Event::Cut(_) => put_use(piece, b"", b"cut"),
        _ => {}
    }
}

fn put_bands(piece: &mut Piece, lanes: Lanes)
    requires { length piece.old ≤ 5000 }
    ensures added { piece.new ≡ piece.old ++ bands_text lanes }
    ensures len { length piece.new ≤ length piece.old + 120 }
{
    put_use(piece, b"power-", power_name(lanes.activity));
    put_use(piece, b"memory-", activity_name(lanes.activity));
    put_use(piece, b"disk-", image_name(lanes.image));
}

fn power_name(activity: Activity) -> &'static [u8]
    ensures name { result.now ≡ power_name activity }
    ensures len { length result.now ≤ 8 }
{
    match activity {
        Activity::Nothing => b"off",
        Activity::Sleeps => b"asleep",
        _ => b"on",
    }
}

fn activity_name(activity: Activity) -> &'static [u8]
    ensures name { result.now ≡ activity_name activity }
    ensures len { length result.now ≤ 8 }
{
    match activity {
        Activity::Nothing => b"nothing",
        Activity::Boots => b"boots",
        Activity::Runs => b"runs",
        Activity::Saves => b"saves",
        Activity::Undoes => b"undoes",
        Activity::Undone => b"undoes",
        Activity::Settles => b"settles",
        Activity::Wakes => b"wakes",
        Activity::Loads => b"loads",
        Activity::Sleeps => b"sleeps",
    }
}

fn image_name(image: ImageShown) -> &'static [u8]
    ensures name { result.now ≡ image_name image }
    ensures len { length result.now ≤ 8 }
{
    match image {
        ImageShown::NoImage => b"none",
        ImageShown::Image => b"image",
        ImageShown::Perhaps => b"perhaps",
    }
}

fn put_activity(piece: &mut Piece, activity: Activity)
    requires { length piece.old ≤ 5200 }
    ensures added { piece.new ≡ piece.old ++ activity_label activity }
    ensures len { length piece.new ≤ length piece.old + 60 }
{
    match activity {
        Activity::Nothing => {}
        _ => put_label(piece, b"200", activity_name(activity)),
    }
}

fn put_label(piece: &mut Piece, place: &[u8], name: &[u8])
    requires room { length piece.old ≤ 5400 }
    requires place { length place.now ≤ 3 }
    requires name { length name.now ≤ 8 }
    ensures added { piece.new ≡ piece.old ++ label_text place.now name.now }
    ensures len { length piece.new ≤ length piece.old + 60 }
{
    piece.put(b"<text class='state' y='");
    piece.put(place);
    piece.put(b"'>");
    piece.put(name);
    piece.put(b"</text>\n");
}

fn put_image(piece: &mut Piece, old: ImageShown, new: ImageShown)
    requires { length piece.old ≤ 5300 }
    ensures added { piece.new ≡ piece.old ++ image_label old new }
    ensures len { length piece.new ≤ length piece.old + 60 }
{
    match (old, new) {
        (ImageShown::Image, ImageShown::Image) => {}
        (_, ImageShown::Image) => put_label(piece, b"242", b"image"),
        _ => {}
    }
}

fn call_name(call: Call) -> &'static [u8]
    ensures name { result.now ≡ call_name call }
    ensures len { length result.now ≤ 8 }
{
    match call {
        Call::Write => b"write",
        Call::Read => b"read",
        Call::Header => b"header",
        Call::Sync => b"sync",
        Call::Mark => b"mark",
        Call::Back => b"back",
    }
}

fn put_call(piece: &mut Piece, drawn: Drawn)
    requires { length piece.old ≤ 5400 }
    ensures added { piece.new ≡ piece.old ++ call_text drawn }
    ensures len { length piece.new ≤ length piece.old + 80 }
{
    match drawn {
        Drawn::NoCall => {}
        Drawn::Made(call) => put_use(piece, b"", call_name(call)),
        Drawn::Fails(call) => {
            put_use(piece, b"", call_name(call));
            put_use(piece, b"", b"fails");
        }
    }
}

/// Adds the words of an event above the lanes.
fn put_above(piece: &mut Piece, event: &Event, words: &[u8])
    requires room { length piece.old ≤ 4500 }
    requires words { length words.now ≤ 400 }
    ensures added { piece.new ≡ piece.old ++ above_of event.now words.now }
    ensures len { length piece.new ≤ length piece.old + 2100 }
{
    if is_core(event) {
        return;
    }
    put_label_of(piece, words);
}

fn put_label_of(piece: &mut Piece, words: &[u8])
    requires room { length piece.old ≤ 4500 }
    requires words { length words.now ≤ 400 }
    ensures added { piece.new ≡ piece.old ++ words_label words.now }
    ensures len { length piece.new ≤ length piece.old + 2100 }
{
    put_use(piece, b"", b"event");
    piece.put(b"<text transform='translate(12 146)rotate(-90)'>");
    put_escaped(piece, words);
    piece.put(b"</text>\n");
}

/// Adds the line of a reply below the lanes.
fn put_below(piece: &mut Piece, told: Told, line: &[u8])
    requires room { length piece.old ≤ 6700 }
    requires line { length line.now ≤ 192 }
    ensures added { piece.new ≡ piece.old ++ below_of told line.now }
    ensures len { length piece.new ≤ length piece.old + 1100 }
{
    put_reply(piece, reply_class(told), line);
}

fn put_reply(piece: &mut Piece, name: &[u8], line: &[u8])
    requires room { length piece.old ≤ 6700 }
    requires name { length name.now ≤ 8 }
    requires line { length line.now ≤ 192 }
    ensures added { piece.new ≡ piece.old ++ reply_label name.now line.now }
    ensures len { length piece.new ≤ length piece.old + 1100 }
{
    piece.put(b"<text class='");
    piece.put(name);
    piece.put(b"' transform='translate(5 290)rotate(90)'>");
    put_escaped(piece, line);
    piece.put(b"</text>\n");
}

fn reply_class(told: Told) -> &'static [u8]
    ensures name { result.now ≡ reply_class told }
    ensures len { length result.now ≤ 8 }
{
    match told {
        Told::More { .. } => b"more",
        Told::Loading { .. } => b"more",
        Told::Undo { .. } => b"fault",
        Told::Fault { .. } => b"fault",
        _ => b"reply",
    }
}
