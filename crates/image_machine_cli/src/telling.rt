ghost use Rattle.command_kit.specs.Causes.{HasCause, SinksFail};
ghost use Rattle.command_kit.specs.Told.{IsTold};
ghost use Rattle.command_kit.specs.View.{sink_view};
ghost use Rattle.image_machine_cli.specs.Loads.{HasFrames, made_told};

use crate::limits::limit_line;
use byte_streams::Sink;
use command_kit::{Status, tell};
use image_machine::Made;
use swsusp_cli::tell_dump;

/// Prints what was made of an image.
pub(crate) fn tell_made<O: Sink, N: Sink>(made: &Made, out: &mut O, note: &mut N) -> Status
    requires frames { HasFrames made.now }
    ensures told { IsTold (made_told made.now) result
        (sink_view O.Sink out.old)
        (sink_view O.Sink out.new)
        (sink_view N.Sink note.old)
        (sink_view N.Sink note.new) }
    ensures cause { HasCause (SinksFail (sink_view O.Sink out.old) (sink_view O.Sink out.new)
        (sink_view N.Sink note.old) (sink_view N.Sink note.new)) ⊥ result }
{
    match made {
        Made::Dump(dump) => tell_dump(&dump.hw, &dump.frames, out, note),
        Made::NoImage => tell(Status::Refused, b"", b"no image\n", out, note),
        Made::Refused => tell(Status::Refused, b"", b"", out, note),
        Made::NoArea => tell(Status::Refused, b"", b"no version 1 area\n", out, note),
        Made::Limit(limit) => tell(
            Status::Refused,
            b"",
            limit_line(limit).as_bytes(),
            out,
            note,
        ),
    }
}
