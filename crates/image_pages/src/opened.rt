use image_check::Report;
use page_core::NoMemory;
use sector_disk::Disk;
use std::alloc::Global;

/// The result of opening an image.
#[derive(Drop)]
pub enum Opened<T> {
    /// The header block, if the disk has it, isn't marked.
    NoImage,
    /// Something that had to be read first has findings; those of the first block that has some were reported.
    Refused,
    Open(T),
}

/// A reader of an image.
pub trait Reader: Drop {
    ghost use Rattle.std.specs.Prelude.{◌≡◌, ◌≤◌, ℕ, Option, IfOk, OnErr};
    ghost use Rattle.definitions.specs.Disk.{Content};
    ghost use Rattle.image_check.specs.Told.{Told};
    ghost use Rattle.image_pages.specs.Opens.{IsBad, OpensAs};

    /// That nothing of the image was given yet.
    ghost begins: { Option Content → (blocks header : ℕ) → Self → Type 0 };

    /// Which findings were reported of an image that is refused.
    ghost refuses: { Option Content → (blocks header before now : ℕ) → (told then : Told) → Type 0 };

    /// Opens the image of the area whose header lies in block `header`, and reads what the reader has to know.
    fn open<D: Disk, R: Report>(
        alloc: Global,
        disk: &mut D,
        header: u32,
        report: &mut R,
    ) -> Result<Opened<Self>, NoMemory>
        ensures opened { IfOk result (OpensAs begins refuses (D.content disk.old) (D.block_count disk.old) header
            (D.faults disk.old) (D.faults disk.new) (R.told report.old) (R.told report.new)) }
        ensures untold { OnErr result (R.told report.new ≡ R.told report.old) }
        ensures content { D.content disk.new ≡ D.content disk.old }
        ensures faults { D.faults disk.old ≤ D.faults disk.new }
        ensures orders { D.orders disk.new ≡ D.orders disk.old }
        ensures blocks { D.block_count disk.new ≡ D.block_count disk.old };

    /// These are the findings of the header block, or of the first named block that has some.
    ghost is_bad: { (content : Option Content) (blocks header before now : ℕ) (told then : Told) →
        refuses content blocks header before now told then → IsBad content blocks header before now told then };
}
