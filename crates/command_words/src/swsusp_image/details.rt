//! The help of each command after its options.

pub(crate) const PROGRAM: &str =
    "A command's own help, as `swsusp_image check --help`, says what it reads and writes. With `--quiet` before the command
nothing is said on a terminal of how far a long command is.

Example: swsusp_image check /dev/sda2";

pub(crate) const CHECK: &str =
    "It only reads SWAP, each block of the image once, and prints a line for each finding with its place, as
`map 2 block 513 entry 17: block 0`, and at the end `whole` or, with status 1, `N findings`. Where SWAP has no
image it prints `no image`, with status 1. The header of a swap file that lies in a device is in the block where
the file begins; its image names blocks of the device. With --json it prints one object in a line, with the members
`image`, `findings` and `whole`.

Example: swsusp_image check --offset 2048 /dev/sda2";

pub(crate) const SHOW: &str =
    "It only reads SWAP, and prints what the header block of the area says, whether it has an image, and what the
image says of itself and of its machine, a fact a line: its name and its value. With --json these are the members
of one object in a line; numbers above 2^53 are text there.

Example: swsusp_image show /dev/sda2";

pub(crate) const STREAM: &str =
    "It only reads SWAP, and writes the image to standard output as `swsusp export` does. `swsusp import` reads such
a stream, so that both together move an image. Where SWAP has no image it writes nothing, and the status is 1.

Example: swsusp_image stream /dev/sda2 | swsusp import area.img";

pub(crate) const PAGE: &str =
    "It only reads SWAP, and writes the 4096 bytes that the image has of page frame P to standard output. Where it
has none of P the status is 1.

Example: swsusp_image page /dev/sda2 256 > page.bin";

pub(crate) const CORE: &str =
    "It only reads SWAP, and writes an ELF64 core file of the saved page frames to standard output: a PT_LOAD segment for
each run of them, at its physical address, and a note that tells whose image it is. `readelf -lW` lists the segments,
and gdb reads memory by it. Where SWAP has no image it writes nothing, and the status is 1.

Example: swsusp_image core /dev/sda2 > memory.core";

pub(crate) const DIFFER: &str =
    "It only reads both areas, whose headers are in the block of the same number, and prints `same`, or with status 1
a line for each difference: `header flags 2 10`, `identity release`, `memory size 4096 8192`, `frame 7 first alone`
for a page frame that only the first image saves, `page 7` for one whose page is another. UUID, label and the
blocks that an image lies in belong to the area and aren't compared.

Example: swsusp_image differ before.img after.img";

pub(crate) const DISCARD: &str =
    "It writes the signature from before the image back into the header block, whatever kernel the image is of, and
prints `discarded`. The image can't be resumed then. Where SWAP has no image it prints `no image`, with status 1.

Example: swsusp_image discard /dev/sda2";

pub(crate) const LOADER: &str =
    "It only reads SWAP, and writes the dump of a machine into which `swsusp resume` can resume the image: one that has just
booted, with the identity that the image has. Without --zone it has the page frames from 0 on, as many as the image's
machine; `--zone START COUNT` stands once for each zone. Without --extent the slots of the area lie on the blocks from 0 on;
`--extent START LENGTH BLOCK` stands once for each extent. A machine has at most 65536 page frames and 131072 slots: where
there is none for the image, the note says why, and the status is 1.

Example: swsusp_image loader --zone 1 158 --zone 256 32510 /dev/sda2 > loader.dump";

pub(crate) const MACHINE: &str =
    "It only reads SWAP, and writes the dump of the machine that the image saved: the saved page frames are in use and have their
pages, all others are free, and `swsusp hibernate` hibernates it again. Its zones and extents are those of `loader`. A machine
of `swsusp hibernate` has its tables in its image: `--tables F S` names their first page frames, and the dump is then the
machine with the slots of its tasks. Without it the dump has new tables, in which no task has a page frame or a slot. Where
there is no such machine the note says why, and the status is 1.

Example: swsusp_image machine --tables 1 3 before.img | swsusp hibernate after.img";
