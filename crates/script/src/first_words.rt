ghost use Rattle.std.specs.Prelude.{◌≡◌};
ghost use Rattle.std.specs.Option.{option_map};
ghost use Rattle.script.specs.Items.{beside, machine_found, outside_found, setting_found, task_found};
ghost use Rattle.script.specs.Shapes.{asking_row, machine_row, outside_row, setting_row};

const SETTING_WORDS: [(&[u8], SettingWord); 7] = [
    (b"zone", SettingWord::Zone),
    (b"area", SettingWord::Area),
    (b"bad", SettingWord::Bad),
    (b"region", SettingWord::Region),
    (b"tables", SettingWord::Tables),
    (b"hwsig", SettingWord::Hwsig),
    (b"extent", SettingWord::Extent),
];

const MACHINE_WORDS: [(&[u8], MachineWord); 7] = [
    (b"boot", MachineWord::Boot),
    (b"hibernate", MachineWord::Hibernate),
    (b"suspend", MachineWord::Suspend),
    (b"wake", MachineWord::Wake),
    (b"settle", MachineWord::Settle),
    (b"shrink", MachineWord::Shrink),
    (b"resume", MachineWord::Resume),
];

const OUTSIDE_WORDS: [(&[u8], OutsideWord); 4] = [
    (b"cut", OutsideWord::Cut),
    (b"arm", OutsideWord::Arm),
    (b"step", OutsideWord::Step),
    (b"steps", OutsideWord::Steps),
];

const TASK_WORDS: [(&[u8], TaskWord); 7] = [
    (b"claim", TaskWord::Claim),
    (b"release", TaskWord::Release),
    (b"store", TaskWord::Store),
    (b"show", TaskWord::Show),
    (b"cache", TaskWord::Cache),
    (b"out", TaskWord::Out),
    (b"in", TaskWord::In),
];

/// The first word of a setting.
#[derive(Clone, Copy)]
pub enum SettingWord {
    Zone,
    Area,
    Bad,
    Region,
    Tables,
    Hwsig,
    Extent,
}

/// The first word of an event of the whole machine.
#[derive(Clone, Copy)]
pub enum MachineWord {
    Boot,
    Hibernate,
    Suspend,
    Wake,
    Settle,
    Shrink,
    Resume,
}

/// The first word of an event that happens to the machine from outside, or of steps.
#[derive(Clone, Copy)]
pub enum OutsideWord {
    Cut,
    Arm,
    Step,
    Steps,
}

/// The first word of a task's request.
#[derive(Clone, Copy)]
pub enum TaskWord {
    Claim,
    Release,
    Store,
    Show,
    Cache,
    Out,
    In,
}

/// Returns what a table has beside a word.
#[tactic(auto, unfolding(crate::specs::Items::beside))]
fn beside<T: Copy>(table: &[(&[u8], T)], word: &[u8]) -> Option<T>
    ensures { result ≡ beside table.now word.now }
{
    for (name, value) in table {
        if *name == word {
            return Some(*value);
        }
    }
    None
}

/// Returns the setting whose first word this is.
pub fn setting_word(first: &[u8]) -> Option<SettingWord>
    ensures { setting_found first.now ≡ option_map setting_row result }
{
    beside(&SETTING_WORDS, first)
}

/// Returns the event of the whole machine whose first word this is.
pub fn machine_word(first: &[u8]) -> Option<MachineWord>
    ensures { machine_found first.now ≡ option_map machine_row result }
{
    beside(&MACHINE_WORDS, first)
}

/// Returns the outside event, or the steps, whose first word this is.
pub fn outside_word(first: &[u8]) -> Option<OutsideWord>
    ensures { outside_found first.now ≡ option_map outside_row result }
{
    beside(&OUTSIDE_WORDS, first)
}

/// Returns the task's request whose first word this is.
pub fn task_word(first: &[u8]) -> Option<TaskWord>
    ensures { task_found first.now ≡ option_map asking_row result }
{
    beside(&TASK_WORDS, first)
}
