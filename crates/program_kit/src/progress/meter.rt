use std::io::IsTerminal;
use std::time::Instant;

/// The number of blocks after which the clock is read: 16 MiB.
const BLOCKS: u64 = 4096;

/// The milliseconds before the first line, and between two lines.
const PAUSE: u128 = 2000;

/// A counter of blocks. If standard error is a terminal, it writes a line there every two seconds.
#[derive(Drop)]
pub struct Meter<'a> {
    rt: &'a HostRuntime,
    program: &'a str,
    begun: Option<Instant>,
    blocks: u64,
    next: u128,
}

impl<'a> Meter<'a> {
    /// Makes a meter of a program with this name. A quiet one writes nothing.
    pub fn new(rt: &'a HostRuntime, program: &'a str, quiet: bool) -> Meter<'a> {
        let begun = if quiet || !rt.stderr().is_terminal() {
            None
        } else {
            Instant::now(rt).ok()
        };
        Meter {
            rt,
            program,
            begun,
            blocks: 0,
            next: PAUSE,
        }
    }

    /// Counts a block that was read or written.
    pub fn count(&mut self) {
        self.blocks = self.blocks.saturating_add(1);
        if self.blocks % BLOCKS == 0 {
            self.look();
        }
    }

    /// Writes a line if it is time for one.
    fn look(&mut self) {
        let Some(begun) = &self.begun else {
            return;
        };
        let Ok(passed) = begun.elapsed(self.rt) else {
            return;
        };
        let millis = passed.as_millis();
        if millis >= self.next {
            self.next = millis.saturating_add(PAUSE);
            let program = self.program;
            let size = self.blocks / 256;
            let _ = eprintln!(self.rt; "{program}: {size} MiB read and written");
        }
    }
}
