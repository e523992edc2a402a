ghost use Rattle.std.specs.Prelude.{◌≡◌};
ghost use Rattle.swap_slots.specs.Entries.{word_of, entry_of_word};

const FREE: u32 = 0;

const IMAGE: u32 = 65536;

const BAD: u32 = 131072;

/// What a slot table says of a slot.
#[derive(Clone, Copy, Debug, PartialEq, Eq)]
pub enum SlotEntry {
    /// Nobody has the slot.
    Free,
    /// The task with this number has the slot.
    Task(u32),
    /// The image has the slot.
    Image,
    /// The slot is never given: it is the header's, or one that the area's header names as bad.
    Bad,
}

impl SlotEntry {
    /// Returns the entry's word in the table.
    pub(crate) fn word(self) -> u32
        ensures { result ≡ word_of self }
    {
        match self {
            SlotEntry::Free => FREE,
            SlotEntry::Task(task) => task,
            SlotEntry::Image => IMAGE,
            SlotEntry::Bad => BAD,
        }
    }

    /// Returns the entry with this word. A word that is none of the others counts as a task's number: a table with a
    /// word that no slot may have is refused before a machine runs.
    #[tactic(auto, unfolding(crate::specs::Entries::entry_of_word))]
    pub(crate) fn of(word: u32) -> SlotEntry
        ensures { result ≡ entry_of_word word }
    {
        match word {
            FREE => SlotEntry::Free,
            IMAGE => SlotEntry::Image,
            BAD => SlotEntry::Bad,
            task => SlotEntry::Task(task),
        }
    }
}
