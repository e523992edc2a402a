ghost use Rattle.std.specs.Prelude.{◌≡◌, ◌<◌, length, IfOk};
ghost use Rattle.core_machine.specs.Segments.{is_covered_by, is_passed_over, kept};

use crate::segments::segment::Segment;
use crate::segments::table::push_segment;
use page_core::NoMemory;
use std::alloc::Global;

/// Returns the segments whose addresses aren't all in another one.
#[tactic(auto, unfolding(crate::specs::Segments::kept))]
pub(crate) fn kept_of(alloc: Global, loads: &[Segment]) -> Result<Vec<Segment>, NoMemory>
    ensures { IfOk result (λ segments. segments.items ≡ kept loads.now) }
{
    let mut segments = Vec::new(alloc);
    for i in 0..loads.len() {
        if !is_passed_over(loads, i) {
            push_segment(&mut segments, loads[i])?;
        }
    }
    Ok(segments)
}

/// Returns whether another segment has all addresses of this one.
fn is_passed_over(loads: &[Segment], i: usize) -> bool
    requires { i < length loads.now }
    ensures { result ≡ is_passed_over loads.now i }
{
    (0..loads.len()).any(|j| is_covered_by(loads, i, j))
}

/// Returns whether segment `j` has all addresses of segment `i`, and has more or comes before it.
fn is_covered_by(loads: &[Segment], i: usize, j: usize) -> bool
    requires i { i < length loads.now }
    requires j { j < length loads.now }
    ensures { result ≡ is_covered_by loads.now i j }
{
    loads[i].lies_within(&loads[j]) && (!loads[j].lies_within(&loads[i]) || j < i)
}
