//! A form that receives the facts of a disk that expands an image.
ghost use Rattle.std.specs.Prelude.{◌≡◌, ◌≤◌, OnOk, OnErr};
ghost use Rattle.image_show.specs.Forms.{HasFailed, Puts, PutsFront};
ghost use Rattle.expanded_show.specs.Standing.{over_style, standing};

use crate::area_facts::AreaFacts;
use crate::topic::{Topic, topic_of};
use image_show::{Fact, Form};
use page_core::Failed;
use std::marker::PhantomData;

/// A form that is lent.
#[derive(Drop)]
pub(crate) struct LentForm<'a, F> {
    pub form: &'a mut F,
}

/// Prints facts of an area in place of those of the disk that expands its image.
#[derive(Drop)]
pub(crate) struct ImageForm<'a, 'b, F: Form, A: AreaFacts> {
    pub form: &'a mut F,
    /// The facts of the area's header block.
    pub header: &'b [Fact],
    /// Where the area's image lies.
    pub blocks: &'b [Fact],
    pub area: PhantomData<A>,
    ghost form_is: { form.ghost_name ≡ A.which },
    ghost header_is: { header.now ≡ A.header },
    ghost blocks_are: { blocks.now ≡ A.blocks },
}

impl<'a, 'b, F: Form, A: AreaFacts> Form for ImageForm<'a, 'b, F, A> {
    ghost style = { over_style (standing A.header A.blocks) F.style };

    ghost written = { λ f. F.written f.form.now };

    ghost faults = { λ f. F.faults f.form.now };

    ghost refused = { λ f. F.refused f.form.now };

    fn put(&mut self, fact: &Fact) -> Result<(), Failed> {
        match topic_of(fact) {
            Topic::Disk => print(self.form, self.header),
            Topic::Maps => print(self.form, self.blocks),
            Topic::Image => self.form.put(fact),
            Topic::Place => Ok(()),
        }
    }
}

/// Prints facts, one after another.
fn print<F: Form>(form: &mut F, facts: &[Fact]) -> Result<(), Failed>
    ensures whole { OnOk result (Puts F.style facts.now (F.written form.old) (F.written form.new)) }
    ensures front { PutsFront F.style facts.now (F.written form.old) (F.written form.new) }
    ensures counted { F.faults form.old ≤ F.faults form.new }
    ensures cause { OnErr result (HasFailed (F.faults form.old) (F.faults form.new) (F.refused form.new)) }
{
    for fact in facts {
        form.put(fact)?;
    }
    Ok(())
}
