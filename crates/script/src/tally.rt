ghost use Rattle.std.specs.Prelude.{◌≡◌, ◌+◌, ◌≤◌, ◌++◌, length, decimal};
ghost use Rattle.script.specs.Drill.{is_hibernated, is_resumed, summary, word_in};

use byte_streams::Line;
use plain_machine::Reply;

/// A tally of replies: how many there are, how many of them report hibernations, resumes and words, and the words' sum
/// modulo 2^64.
#[derive(Clone, Copy, Debug)]
pub struct Tally {
    pub events: u64,
    pub hibernated: u64,
    pub resumed: u64,
    pub words: u64,
    pub sum: u64,
}

impl Tally {
    ghost use Rattle.std.specs.Prelude.{◌≡◌, ◌<◌, ◌∷◌, ◌++◌, ◌^◌, List, [], length};
    ghost use Rattle.plain_machine.specs.declared.reply.Reply.{Reply as PlainReply};
    ghost use Rattle.script.specs.Drill.{tally_of};

    /// Makes the tally of no replies.
    #[tactic(auto, unfolding(crate::specs::Drill::tally_of))]
    pub fn new() -> Tally
        ensures { result ≡ tally_of [] }
    {
        Tally {
            events: 0,
            hibernated: 0,
            resumed: 0,
            words: 0,
            sum: 0,
        }
    }

    /// Adds one more reply, of at most 2^32.
    pub fn add(&mut self, reply: &Reply)
        requires { (replies : List PlainReply) × (self.old ≡ tally_of replies) × (length replies < 2 ^ 32) }
        ensures { (replies : List PlainReply) → self.old ≡ tally_of replies →
            self.new ≡ tally_of (replies ++ reply.now ∷ []) }
    {
        self.events += 1;
        self.hibernated += u64::from(is_hibernated(reply));
        self.resumed += u64::from(is_resumed(reply));
        if let Some(value) = word_in(reply) {
            self.words += 1;
            self.sum = self.sum.wrapping_add(value);
        }
    }
}

fn is_hibernated(reply: &Reply) -> bool
    ensures { result ≡ is_hibernated reply.now }
{
    matches!(reply, Reply::Hibernated { .. })
}

fn is_resumed(reply: &Reply) -> bool
    ensures { result ≡ is_resumed reply.now }
{
    matches!(reply, Reply::Resumed { .. })
}

/// Returns the word that a reply shows.
fn word_in(reply: &Reply) -> Option<u64>
    ensures { result ≡ word_in reply.now }
{
    match reply {
        Reply::Word { value } => Some(*value),
        _ => None,
    }
}

/// Writes the line of drill `number` into an empty buffer.
pub fn put_summary(number: u32, tally: &Tally, line: &mut Line)
    requires { length line.old ≡ 0 }
    ensures { line.new ≡ summary number tally.now }
{
    line.put(b"drill ");
    line.put_number(u64::from(number));
    put_count(line, b" events ", tally.events);
    put_count(line, b" hibernated ", tally.hibernated);
    put_count(line, b" resumed ", tally.resumed);
    put_count(line, b" words ", tally.words);
    put_count(line, b" sum ", tally.sum);
    line.put(b"\n");
}

/// Adds a name and a number.
fn put_count(line: &mut Line, name: &[u8], count: u64)
    requires name { length name.now ≤ 12 }
    requires room { length line.old + length name.now ≤ 172 }
    ensures added { line.new ≡ line.old ++ name.now ++ decimal count }
    ensures len { length line.new ≤ length line.old + length name.now + 20 }
{
    line.put(name);
    line.put_number(count);
}
