//! The help of each command after its options.

pub(crate) const PROGRAM: &str =
    "A machine has at most 65,536 page frames. A command's own help, as `swsusp_machine make --help`,
says what it reads and writes. With `--quiet` before the command nothing is said on a terminal of how far
a long command is.

Example: swsusp_machine make < story.txt > saved.dump";

pub(crate) const MAKE: &str =
    "It reads the script from standard input, and writes the dump to standard output. Where no machine runs
at the end it notes `no machine runs`, status 1.

Example: swsusp_machine make < story.txt > saved.dump";

pub(crate) const DRAW: &str =
    "It reads the script from standard input, and writes the picture, an SVG, to standard output. It shows
what power, memory and disk do at each event: each page that is written, each sync, the mark, and a cut.

Example: swsusp_machine draw < cut.txt > cut.svg";

pub(crate) const LOADER: &str =
    "It reads a dump from standard input, and writes one to standard output: a loader, into which an image
can be resumed.

Example: swsusp_machine loader < saved.dump > loader.dump";

pub(crate) const CORE: &str =
    "It reads a dump from standard input, and writes a core file for `crash`, `gdb` or `readelf` to standard
output, with a segment for each run of page frames that are in use or hold a byte other than zero.

Example: swsusp_machine core < saved.dump > memory.core";

pub(crate) const FROM_CORE: &str =
    "It reads an ELF64 core file of a machine's memory from standard input, such as qemu's `dump-guest-memory`,
/proc/vmcore and `swsusp_machine core` write, and writes the dump of a machine of at most 65,536 page frames
to standard output. Page frames of zeros are free in it, and the others are in use.

Example: swsusp_machine from-core < memory.core > machine.dump";

pub(crate) const SHOW: &str =
    "It reads the dump from standard input, and prints to standard output, as `frames_saveable 5`.

Example: swsusp_machine show < saved.dump";

pub(crate) const DIFFER: &str =
    "It reads both files, and prints `same` where an image would save the same of both machines; else, with
status 1, the first difference: `hardware`, `saveable P` or `page P`, where P is a page frame.

Example: swsusp_machine differ saved.dump restored.dump";

pub(crate) const CHECK: &str =
    "It reads a loader's dump from standard input, and prints what `swsusp resume SWAP` would: `resumed N`,
or the note and the status of why not.
With `--any-kernel` it says what `swsusp resume --any-kernel SWAP` would print.

Example: swsusp_machine check area.img < loader.dump";
