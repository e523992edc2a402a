//! A dump as a core file of its machine's memory (elf_core), with a segment for each run of page frames that are in use
//! or hold a byte other than zero.
#![tactic(auto)]

mod heads;
mod identity;
mod pages;
mod runs;
mod telling;

ghost use Rattle.std.specs.Prelude.{◌≡◌, ◌≤◌, length, OnErr, OnOk};
ghost use Rattle.definitions.specs.Disk.{HasRisen};
ghost use Rattle.definitions.specs.Streams.{TakesAll, TakesFront};
ghost use Rattle.definitions.specs.Zones.{top};
ghost use Rattle.dump_core.specs.Cores.{core_of, told_runs};

use byte_streams::Sink;
use heads::put_head;
use machine::Dump;
use page_core::Failed;
use pages::put_pages;
pub use telling::told_runs;

/// Writes the core file of a dump with these runs of page frames. Nothing is flushed.
pub fn write_core<K: Sink>(dump: &Dump, runs: &[(u32, u32)], out: &mut K) -> Result<(), Failed>
    requires frames { length dump.now.frames ≡ top dump.now.hw.zones }
    requires runs { runs.now ≡ told_runs dump.now.hw dump.now.frames }
    ensures whole { OnOk result (TakesAll (core_of dump.now.hw dump.now.frames) (K.taken out.old) (K.taken out.new)) }
    ensures front { TakesFront (core_of dump.now.hw dump.now.frames) (K.taken out.old) (K.taken out.new) }
    ensures counted { K.faults out.old ≤ K.faults out.new }
    ensures cause { OnErr result (HasRisen (K.faults out.old) (K.faults out.new)) }
{
    dump.hw.is_hardware();
    put_head(dump.hw.ident(), runs, out)?;
    put_pages(&dump.frames, runs, out)
}
