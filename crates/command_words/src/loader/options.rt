ghost use Rattle.std.specs.Prelude.{◌≡◌, ℕ, [], IfSome, IfNone, None, Some, map, string_bytes};
ghost use Rattle.command_words.specs.LoaderWords.{extent_first, no_options, option_first, zone_first, offset_first};
ghost use Rattle.command_words.specs.LoaderWords.{tables_first};
ghost use Rattle.command_words.specs.LoaderGiven.{given_by};

use crate::loader::numbers::number;
use arrayvec::ArrayVec;

/// The most zones that may be given.
pub(crate) const MOST_ZONES: usize = 16;

/// The most extents that may be given.
pub(crate) const MOST_EXTENTS: usize = 64;

/// The options that were read.
#[derive(Drop)]
pub(crate) struct Options {
    pub offset: Option<u32>,
    /// The first page frames of the frame table and of the slot table.
    pub tables: Option<(u32, u32)>,
    pub zones: ArrayVec<(u32, u32), MOST_ZONES>,
    pub extents: ArrayVec<(u32, u32, u32), MOST_EXTENTS>,
}

impl Options {
    ghost use Rattle.std.specs.Prelude.{◌≡◌, ◌∷◌, IfSome, IfNone, None, Some, map, string_bytes};
    ghost use Rattle.command_words.specs.LoaderWords.{extent_first, no_options, option_first, zone_first, offset_first};
    ghost use Rattle.command_words.specs.LoaderWords.{tables_first};
    ghost use Rattle.command_words.specs.LoaderGiven.{given_by};

    pub fn new() -> Options
        ensures { given_by result ≡ no_options }
    {
        Options {
            offset: None,
            tables: None,
            zones: ArrayVec::new(),
            extents: ArrayVec::new(),
        }
    }

    /// Reads the option at the front of words, and returns those after it.
    pub fn read<'a>(&mut self, words: &'a [String]) -> Option<&'a [String]>
        ensures read { IfSome result (λ rest.
            option_first (given_by self.old) (map string_bytes words.now)
            ≡ Some (given_by self.new, map string_bytes rest.now)) }
        ensures none { IfNone result (option_first (given_by self.old) (map string_bytes words.now) ≡ None) }
    {
        match words {
            [] => None,
            [flag, words @ ..] => match flag.as_str() {
                "--offset" => self.read_offset(words),
                "--tables" => self.read_tables(words),
                "--zone" => self.read_zone(words),
                "--extent" => self.read_extent(words),
                _ => None,
            },
        }
    }

    fn read_offset<'a>(&mut self, words: &'a [String]) -> Option<&'a [String]>
        ensures read { IfSome result (λ rest.
            offset_first (given_by self.old) (map string_bytes words.now)
            ≡ Some (given_by self.new, map string_bytes rest.now)) }
        ensures none { IfNone result (offset_first (given_by self.old) (map string_bytes words.now) ≡ None) }
    {
        let [offset, words @ ..] = words else {
            return None;
        };
        if self.offset.is_some() {
            return None;
        }
        self.offset = Some(number(offset.as_str())?);
        Some(words)
    }

    fn read_tables<'a>(&mut self, words: &'a [String]) -> Option<&'a [String]>
        ensures read { IfSome result (λ rest.
            tables_first (given_by self.old) (map string_bytes words.now)
            ≡ Some (given_by self.new, map string_bytes rest.now)) }
        ensures none { IfNone result (tables_first (given_by self.old) (map string_bytes words.now) ≡ None) }
    {
        let [frame_table, slot_table, words @ ..] = words else {
            return None;
        };
        if self.tables.is_some() {
            return None;
        }
        self.tables = Some((number(frame_table.as_str())?, number(slot_table.as_str())?));
        Some(words)
    }

    fn read_zone<'a>(&mut self, words: &'a [String]) -> Option<&'a [String]>
        ensures read { IfSome result (λ rest.
            zone_first (given_by self.old) (map string_bytes words.now)
            ≡ Some (given_by self.new, map string_bytes rest.now)) }
        ensures none { IfNone result (zone_first (given_by self.old) (map string_bytes words.now) ≡ None) }
    {
        let [start, count, words @ ..] = words else {
            return None;
        };
        let zone = (number(start.as_str())?, number(count.as_str())?);
        self.zones.try_push(zone).ok()?;
        Some(words)
    }

    fn read_extent<'a>(&mut self, words: &'a [String]) -> Option<&'a [String]>
        ensures read { IfSome result (λ rest.
            extent_first (given_by self.old) (map string_bytes words.now)
            ≡ Some (given_by self.new, map string_bytes rest.now)) }
        ensures none { IfNone result (extent_first (given_by self.old) (map string_bytes words.now) ≡ None) }
    {
        let [start, length, block, words @ ..] = words else {
            return None;
        };
        let extent = (
            number(start.as_str())?,
            number(length.as_str())?,
            number(block.as_str())?,
        );
        self.extents.try_push(extent).ok()?;
        Some(words)
    }
}
