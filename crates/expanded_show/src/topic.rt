ghost use Rattle.std.specs.Prelude.{◌≡◌};
ghost use Rattle.expanded_show.specs.Standing.{topic_of};

use image_show::Fact;

/// The topic of a fact of a disk that expands an image.
#[derive(Clone, Copy)]
pub enum Topic {
    /// How many blocks the disk has: its first fact.
    Disk,
    /// The disk's header block, or where the image lies on it.
    Place,
    /// How many maps the image has, after all its blocks.
    Maps,
    /// The image itself.
    Image,
}

pub(crate) fn topic_of(fact: &Fact) -> Topic
    ensures { result ≡ topic_of fact.now }
{
    match *fact {
        Fact::Blocks(_) => Topic::Disk,
        Fact::Maps(_) => Topic::Maps,
        Fact::Header(_)
        | Fact::Name(..)
        | Fact::VersionCode(_)
        | Fact::Kernel(..)
        | Fact::JumpAddress(_)
        | Fact::JumpAddressPhysical(_)
        | Fact::Cr3(_)
        | Fact::MemoryMapChecksum(_)
        | Fact::KernelVersion(_)
        | Fact::MemoryPages(_)
        | Fact::ImagePages(_)
        | Fact::StreamPages(_)
        | Fact::FrameRun(..) => Topic::Image,
        _ => Topic::Place,
    }
}
