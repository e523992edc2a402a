ghost use Rattle.std.specs.Prelude.{◌≡◌};
ghost use Rattle.plain_machine.specs.Replies.{reply_text};
ghost use Rattle.script.specs.Phrases.{IsShort, phrase_text};

use definitions::Field;
use plain_machine::{Left, NoSwap, Reply, UndoCall};

/// The words and numbers that make up the text of a reply. A name ends in a space.
#[derive(Clone, Copy)]
pub enum Phrase<'a> {
    /// Only words.
    Words(&'a [u8]),
    /// A name and a number.
    One(&'a [u8], u32),
    Wide(&'a [u8], u64),
    /// A name and a number, twice.
    Two(&'a [u8], u32, &'a [u8], u32),
    WideTwo(&'a [u8], u64, &'a [u8], u64),
    Booted(bool),
    Undo(UndoCall, u32),
    NoSwap(&'a NoSwap),
    Mismatch(Field),
    /// A name, and what a failed operation left.
    Fault(&'a [u8], Left),
}

/// Returns the phrase whose text is that of the reply.
#[tactic(auto, unfolding(plain_machine::specs::Replies::reply_text))]
pub fn phrase_of(reply: &Reply) -> Phrase<'_>
    ensures text { phrase_text result ≡ reply_text reply.now }
    ensures short { IsShort result }
{
    match reply {
        Reply::Done => Phrase::Words(b"ok"),
        Reply::More { k, of } => Phrase::Two(b"more ", *k, b" of ", *of),
        Reply::Booted { image } => Phrase::Booted(*image),
        Reply::Word { value } => Phrase::Wide(b"word ", *value),
        Reply::Slot { slot } => Phrase::One(b"slot ", *slot),
        Reply::Written { slot } => Phrase::One(b"written ", *slot),
        Reply::Reading { slot } => Phrase::One(b"reading ", *slot),
        Reply::Fetched { slot } => Phrase::One(b"read ", *slot),
        Reply::Hibernated { n } => Phrase::One(b"hibernated ", *n),
        Reply::Undo { call, k } => Phrase::Undo(*call, *k),
        Reply::Settled => Phrase::Words(b"settled"),
        Reply::Loading { k } => Phrase::One(b"loading ", *k),
        Reply::Resumed { n } => Phrase::One(b"resumed ", *n),
        Reply::WasCut => Phrase::Words(b"cut"),
        Reply::Idle => Phrase::Words(b"idle"),
        Reply::NotOff => Phrase::Words(b"not off"),
        Reply::NotOn => Phrase::Words(b"not on"),
        Reply::NoDump => Phrase::Words(b"no dump"),
        Reply::Frozen => Phrase::Words(b"frozen"),
        Reply::InFlight => Phrase::Words(b"in flight"),
        Reply::NoFrame => Phrase::Words(b"no frame"),
        Reply::NotFree => Phrase::Words(b"not free"),
        Reply::NotOwner => Phrase::Words(b"not owner"),
        Reply::Closed => Phrase::Words(b"closed"),
        Reply::NoSlot => Phrase::Words(b"no slot"),
        Reply::NoSlotHere => Phrase::Words(b"no slot here"),
        Reply::NothingHeld => Phrase::Words(b"nothing held"),
        Reply::Busy { task } => Phrase::One(b"busy ", *task),
        Reply::NoSwap { why } => Phrase::NoSwap(why),
        Reply::NoFrames { free, need } => Phrase::Two(b"no frames ", *free, b" need ", *need),
        Reply::NoSlots { free, need } => Phrase::Two(b"no slots ", *free, b" need ", *need),
        Reply::NoImage => Phrase::Words(b"no image"),
        Reply::Compressed { flags } => Phrase::One(b"compressed ", *flags),
        Reply::HwMismatch { image, own } => Phrase::Two(b"hardware ", *image, b" own ", *own),
        Reply::NoChain => Phrase::Words(b"no chain"),
        Reply::BadBlock { block } => Phrase::Wide(b"bad block ", *block),
        Reply::ChainEnds { map } => Phrase::One(b"chain ends ", *map),
        Reply::Mismatch { field } => Phrase::Mismatch(*field),
        Reply::MemorySize { image, own } => Phrase::WideTwo(
            b"memory size ",
            *image,
            b" own ",
            *own,
        ),
        Reply::BadCounts { image_pages, pages } => Phrase::WideTwo(
            b"bad counts ",
            *image_pages,
            b" ",
            *pages,
        ),
        Reply::BadPfn { pfn } => Phrase::Wide(b"bad pfn ", *pfn),
        Reply::PfnOrder { a, b } => Phrase::WideTwo(b"pfn order ", *a, b" ", *b),
        Reply::PfnEnd { found } => Phrase::Wide(b"pfn end ", *found),
        Reply::TooFewLoaderFrames { have, need } => Phrase::Two(
            b"too few loader frames ",
            *have,
            b" need ",
            *need,
        ),
        Reply::BadTables { frame } => Phrase::One(b"bad tables ", *frame),
        Reply::ReadFault { left } => Phrase::Fault(b"read fault ", *left),
        Reply::WriteFault { left } => Phrase::Fault(b"write fault ", *left),
        Reply::SyncFault { left } => Phrase::Fault(b"sync fault ", *left),
        Reply::Sleeping => Phrase::Words(b"sleeping"),
        Reply::Asleep { n } => Phrase::One(b"asleep ", *n),
        Reply::NotAsleep => Phrase::Words(b"not asleep"),
        Reply::Woken => Phrase::Words(b"woken"),
        Reply::Shrunk { dropped, left } => Phrase::Two(b"shrunk ", *dropped, b" left ", *left),
    }
}
