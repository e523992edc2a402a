ghost use Rattle.std.specs.Prelude.{◌≡◌, ◌<◌, ◌^◌, ℕ, List, ◌∷◌, ◌++◌, OnOk, [], slice_get, length};
ghost use Rattle.definitions.specs.FreeRuns.{runs_of};

use page_core::NoMemory;

/// Adds a number to runs: to the last one if the number follows it, or else as a run of its own.
pub(crate) fn add_number(runs: &mut Vec<(u32, u32)>, number: u32) -> Result<(), NoMemory>
    requires { number < 65536 }
    ensures { (numbers : List ℕ) → runs.old.items ≡ runs_of numbers →
        OnOk result (runs.new.items ≡ runs_of (numbers ++ number ∷ [])) }
{
    match runs.pop() {
        Some((start, count)) if number >= start && number - start == count => {
            push_run(runs, (start, count + 1))
        }
        Some(run) => {
            push_run(runs, run)?;
            push_run(runs, (number, 1))
        }
        None => push_run(runs, (number, 1)),
    }
}

fn push_run(runs: &mut Vec<(u32, u32)>, run: (u32, u32)) -> Result<(), NoMemory>
    ensures { OnOk result (runs.new.items ≡ runs.old.items ++ run ∷ []) }
{
    runs.push(run).map_err(|_| NoMemory)
}
