//! The help of each command after its options.

pub(crate) const PROGRAM: &str =
    "A command's own help, as `swsusp resume --help`, says what it reads and writes.

Limits: a machine has at most 65,536 page frames, and a swap area that is written at most 131,072 slots.
A compressed image is refused.

Example: swsusp hibernate area.img < saved.dump";

pub(crate) const INSPECT: &str =
    "It only reads SWAP, and prints `area last L bad B image none`, or with an image `area last L bad B image F
flags G hw H`: the last page of the area, how many slots are bad, the block of the image's first map page,
its flags and its hardware signature. The header of a swap file that lies in a device is in the block where
the file begins.

Example: swsusp inspect --offset 2048 /dev/sda2";

pub(crate) const HIBERNATE: &str =
    "It writes the image into SWAP, and prints `hibernated N`, where N is how many pages were saved. Linux can't
read an image without its pages of zeros.

Limits: at most 65,536 page frames and 131,072 slots. No image is compressed.

Example: swsusp hibernate --image-size 500 area.img < saved.dump";

pub(crate) const RESUME: &str =
    "It writes the dump of the restored memory to standard output. The image is given up before its pages are
read: it is resumed at most once.

Limits: at most 65,536 page frames. A compressed image is refused.

Example: swsusp resume area.img < loader.dump > restored.dump";

pub(crate) const REPLAY: &str = "The swap area of the script's machine is on a disk in memory.

Limits: at most 65,536 page frames and 16,383 slots.

Example: swsusp replay < examples/tasks.txt";

pub(crate) const DRILL: &str =
    "It reads no input. The line has the number of events, of hibernations and resumes that ended well, of words
that were shown, and their sum.

Limits: NUMBER is 1 to 2000.

Example: swsusp drill 10";

pub(crate) const EXPORT: &str =
    "It writes the image to standard output as a stream of bytes, which `import` reads. No swap area is used.

Limits: at most 65,536 page frames, and no task of the machine may have a slot.

Example: swsusp export < saved.dump > image.stream";

pub(crate) const IMPORT: &str =
    "It prints `imported N`, where N is how many pages the image saves. The area is marked when the whole stream
is written and synced. An area that has an image is refused.

Limits: at most 131,072 slots.

Example: swsusp import area.img < image.stream";
