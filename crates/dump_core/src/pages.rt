ghost use Rattle.std.specs.Prelude.{◌+◌, ◌≤◌, All, length, OnErr, OnOk};
ghost use Rattle.std.specs.List.{concat, range_with_len};
ghost use Rattle.definitions.specs.Disk.{HasRisen};
ghost use Rattle.definitions.specs.Streams.{TakesAll, TakesFront};
ghost use Rattle.definitions.specs.Zones.{numbers, zone_end};
ghost use Rattle.dump_core.specs.Cores.{pages_of};

use byte_streams::{Sink, put_all};
use frame_arena::Frames;
use page_core::Failed;

/// Writes the pages of runs of page frames.
pub(crate) fn put_pages<K: Sink>(
    frames: &Frames,
    runs: &[(u32, u32)],
    out: &mut K,
) -> Result<(), Failed>
    requires within { All (λ run. zone_end run ≤ length frames.now) runs.now }
    requires few { All (λ run. zone_end run ≤ 65536) runs.now }
    ensures whole { OnOk result
        (TakesAll (concat (pages_of frames.now (numbers runs.now))) (K.taken out.old) (K.taken out.new)) }
    ensures front { TakesFront (concat (pages_of frames.now (numbers runs.now))) (K.taken out.old) (K.taken out.new) }
    ensures counted { K.faults out.old ≤ K.faults out.new }
    ensures cause { OnErr result (HasRisen (K.faults out.old) (K.faults out.new)) }
{
    for &run in runs {
        put_run(frames, run, out)?;
    }
    Ok(())
}

/// Writes the pages of a run.
fn put_run<K: Sink>(frames: &Frames, run: (u32, u32), out: &mut K) -> Result<(), Failed>
    requires within { zone_end run ≤ length frames.now }
    requires few { zone_end run ≤ 65536 }
    ensures whole { OnOk result
        (TakesAll (concat (pages_of frames.now (range_with_len run.0 run.1))) (K.taken out.old) (K.taken out.new)) }
    ensures front { TakesFront (concat (pages_of frames.now (range_with_len run.0 run.1)))
        (K.taken out.old) (K.taken out.new) }
    ensures counted { K.faults out.old ≤ K.faults out.new }
    ensures cause { OnErr result (HasRisen (K.faults out.old) (K.faults out.new)) }
{
    let (start, count) = run;
    for i in 0..count {
        put_all(out, frames.page(start + i).as_bytes())?;
    }
    Ok(())
}
