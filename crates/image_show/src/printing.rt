ghost use Rattle.std.specs.Prelude.{◌≡◌, ◌≤◌, Err, OnOk, OnErr};
ghost use Rattle.image_show.specs.HeaderFacts.{header_facts};
ghost use Rattle.image_show.specs.Runs.{list_of};
ghost use Rattle.image_show.specs.Forms.{HasFailed, Puts, PutsFront};
ghost use Rattle.image_show.specs.declared.fault.Fault.TheVariants.{NoMemory};

use crate::{Fact, Fault, Form, header_facts};
use page_core::{Failed, Page};

/// Prints the lines of facts.
pub(crate) fn print<F: Form>(form: &mut F, facts: &[Fact]) -> Result<(), Failed>
    ensures whole { OnOk result (Puts F.style facts.now (F.written form.old) (F.written form.new)) }
    ensures front { PutsFront F.style facts.now (F.written form.old) (F.written form.new) }
    ensures counted { F.faults form.old ≤ F.faults form.new }
    ensures cause { OnErr result (HasFailed (F.faults form.old) (F.faults form.new) (F.refused form.new)) }
{
    for fact in facts {
        form.put(fact)?;
    }
    Ok(())
}

/// Prints the facts of a header block. Their list has room for each bad page, so it has a stack frame of its own.
#[inline(never)]
pub(crate) fn print_header<F: Form>(form: &mut F, blocks: u32, page: &Page) -> Result<(), Failed>
    ensures whole { OnOk result (Puts F.style (header_facts blocks page.now)
        (F.written form.old) (F.written form.new)) }
    ensures front { PutsFront F.style (header_facts blocks page.now) (F.written form.old) (F.written form.new) }
    ensures counted { F.faults form.old ≤ F.faults form.new }
    ensures cause { OnErr result (HasFailed (F.faults form.old) (F.faults form.new) (F.refused form.new)) }
{
    print(form, header_facts(blocks, page).as_slice())
}

/// Prints the facts of a header block. The only fault is a failed write.
pub(crate) fn print_header_only<F: Form>(
    form: &mut F,
    blocks: u32,
    page: &Page,
) -> Result<(), Fault>
    ensures whole { OnOk result (Puts F.style (header_facts blocks page.now)
        (F.written form.old) (F.written form.new)) }
    ensures front { PutsFront F.style (header_facts blocks page.now) (F.written form.old) (F.written form.new) }
    ensures counted { F.faults form.old ≤ F.faults form.new }
    ensures cause { OnErr result (HasFailed (F.faults form.old) (F.faults form.new) (F.refused form.new)) }
    ensures fault { result ≡ Err NoMemory → ⊥ }
{
    match print_header(form, blocks, page) {
        Ok(()) => Ok(()),
        Err(Failed) => Err(Fault::Write),
    }
}

/// Prints the line of a fact, if there is one.
pub(crate) fn print_any<F: Form>(form: &mut F, fact: Option<Fact>) -> Result<(), Failed>
    ensures whole { OnOk result (Puts F.style (list_of fact) (F.written form.old) (F.written form.new)) }
    ensures front { PutsFront F.style (list_of fact) (F.written form.old) (F.written form.new) }
    ensures counted { F.faults form.old ≤ F.faults form.new }
    ensures cause { OnErr result (HasFailed (F.faults form.old) (F.faults form.new) (F.refused form.new)) }
{
    match fact {
        Some(fact) => print(form, &[fact]),
        None => print(form, &[]),
    }
}

/// Prints the lines of facts. The only fault is a failed write.
pub(crate) fn print_only<F: Form>(form: &mut F, facts: &[Fact]) -> Result<(), Fault>
    ensures whole { OnOk result (Puts F.style facts.now (F.written form.old) (F.written form.new)) }
    ensures front { PutsFront F.style facts.now (F.written form.old) (F.written form.new) }
    ensures counted { F.faults form.old ≤ F.faults form.new }
    ensures cause { OnErr result (HasFailed (F.faults form.old) (F.faults form.new) (F.refused form.new)) }
    ensures fault { result ≡ Err NoMemory → ⊥ }
{
    match print(form, facts) {
        Ok(()) => Ok(()),
        Err(Failed) => Err(Fault::Write),
    }
}
