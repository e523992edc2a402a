//! What the lanes show, and how an event changes it.
ghost use Rattle.std.specs.Prelude.{◌≡◌, ◌==◌, if◌then◌else◌};
ghost use Rattle.run_picture.specs.Lanes.{activity_after, begins, begun, ends, given_up, image_after, is_core, left_by};
ghost use Rattle.run_picture.specs.Lanes.{loaded, marked, refused, stepped, written};

use crate::telling::Told;
use plain_machine::{Actor, Event, Left};

/// What the machine does.
#[derive(Clone, Copy, Debug, PartialEq, Eq)]
pub enum Activity {
    /// The machine is off.
    Nothing,
    Boots,
    Runs,
    /// The machine hibernates, or falls asleep.
    Saves,
    /// A hibernation is being undone, and the mark isn't taken back yet.
    Undoes,
    /// A hibernation is being undone, and the mark is taken back.
    Undone,
    Settles,
    Wakes,
    Loads,
    Sleeps,
}

/// Whether an image is on the disk, as far as the replies have shown.
#[derive(Clone, Copy, Debug, PartialEq, Eq)]
pub enum ImageShown {
    NoImage,
    Image,
    /// A cut or a failed call may have left an image.
    Perhaps,
}

/// What the lanes show before a column, and the number of that column, from 0 on.
#[derive(Clone, Copy, Debug, PartialEq, Eq)]
pub struct Lanes {
    pub column: u32,
    pub activity: Activity,
    pub image: ImageShown,
}

impl Lanes {
    ghost use Rattle.std.specs.Prelude.{◌≡◌, ◌<◌, ◌^◌};
    ghost use Rattle.run_picture.specs.Lanes.{after, first};

    /// Makes the lanes of a machine that is off, with no image.
    pub fn new() -> Lanes
        ensures { result ≡ first }
    {
        Lanes {
            column: 0,
            activity: Activity::Nothing,
            image: ImageShown::NoImage,
        }
    }

    /// Returns what the lanes show after an event, by what its reply says.
    pub(crate) fn after(&self, event: &Event, told: Told) -> Lanes
        requires { self.now.column < 2 ^ 31 }
        ensures { result ≡ after self.now event.now told }
    {
        Lanes {
            column: self.column + 1,
            activity: activity_after(self.activity, event, told),
            image: image_after(self.activity, self.image, event, told),
        }
    }
}

fn activity_after(activity: Activity, event: &Event, told: Told) -> Activity
    ensures { result ≡ activity_after activity event.now told }
{
    match event {
        Event::Cut(_) => Activity::Nothing,
        Event::Step(Actor::Core) => stepped(activity, told),
        Event::Boot(_) => begun(activity, Activity::Boots, told),
        Event::Hibernate(_) => begun(activity, Activity::Saves, told),
        Event::Suspend(_) => begun(activity, Activity::Saves, told),
        Event::Settle => begun(activity, Activity::Settles, told),
        Event::Wake => begun(activity, Activity::Wakes, told),
        Event::Resume(..) => begun(activity, Activity::Loads, told),
        _ => activity,
    }
}

/// Returns whether the event is a step of the core.
pub(crate) fn is_core(event: &Event) -> bool
    ensures { result ≡ is_core event.now }
{
    matches!(event, Event::Step(Actor::Core))
}

/// Returns what the machine does after an event that asks for an operation.
fn begun(activity: Activity, asked: Activity, told: Told) -> Activity
    ensures { result ≡ begun activity asked told }
{
    match told {
        Told::More { .. } => asked,
        Told::Loading { .. } => asked,
        _ => activity,
    }
}

/// Returns what the machine does after a step of an operation.
fn stepped(activity: Activity, told: Told) -> Activity
    ensures { result ≡ stepped activity told }
{
    match told {
        Told::More { .. } => activity,
        Told::Loading { .. } => activity,
        Told::Idle => activity,
        Told::Undo { k, .. } => {
            if k == 0 {
                Activity::Undoes
            } else {
                Activity::Undone
            }
        }
        Told::Booted { .. } => Activity::Runs,
        Told::Runs => Activity::Runs,
        Told::Saved => Activity::Nothing,
        Told::Slept => Activity::Sleeps,
        _ => given_up(activity),
    }
}

/// Returns what the machine does after an operation that has failed.
fn given_up(activity: Activity) -> Activity
    ensures { result ≡ given_up activity }
{
    match activity {
        Activity::Nothing => Activity::Nothing,
        Activity::Boots => Activity::Nothing,
        Activity::Loads => Activity::Nothing,
        Activity::Wakes => Activity::Sleeps,
        Activity::Sleeps => Activity::Sleeps,
        _ => Activity::Runs,
    }
}

fn image_after(activity: Activity, image: ImageShown, event: &Event, told: Told) -> ImageShown
    ensures { result ≡ image_after activity image event.now told }
{
    if is_core(event) {
        written(activity, image, told)
    } else {
        image
    }
}

/// Returns what is on the disk after a step of the core.
fn written(activity: Activity, image: ImageShown, told: Told) -> ImageShown
    ensures { result ≡ written activity image told }
{
    match told {
        Told::Booted { image: true } => ImageShown::Image,
        Told::Booted { image: false } => ImageShown::NoImage,
        Told::Saved => ImageShown::Image,
        Told::Slept => ImageShown::Image,
        Told::Compressed => ImageShown::Image,
        Told::Runs => ImageShown::NoImage,
        Told::NoImage => ImageShown::NoImage,
        Told::Undo { .. } => ImageShown::Perhaps,
        Told::Fault { left, .. } => left_by(image, left),
        Told::More { k, of } => marked(activity, image, of.saturating_sub(k)),
        Told::Loading { k } => loaded(image, k),
        Told::Other => refused(activity, image),
        _ => image,
    }
}

/// Returns what a failed call has left.
fn left_by(image: ImageShown, left: Left) -> ImageShown
    ensures { result ≡ left_by image left }
{
    match left {
        Left::Same => image,
        Left::Gone => ImageShown::NoImage,
        Left::Unsure => ImageShown::Perhaps,
    }
}

/// Returns what is on the disk `steps` steps before the end of an operation, whose last step but one writes the header
/// block.
fn marked(activity: Activity, image: ImageShown, steps: u32) -> ImageShown
    ensures { result ≡ marked activity image steps }
{
    match activity {
        Activity::Saves => unsynced(image, steps),
        Activity::Settles => unsynced(image, steps),
        Activity::Wakes => unsynced(image, steps),
        _ => image,
    }
}

fn unsynced(image: ImageShown, steps: u32) -> ImageShown
    ensures { result ≡ (if steps == 1 then ImageShown.Perhaps else image) }
{
    if steps == 1 {
        ImageShown::Perhaps
    } else {
        image
    }
}

/// Returns what is on the disk after k steps of a resume.
fn loaded(image: ImageShown, k: u32) -> ImageShown
    ensures { result ≡ loaded image k }
{
    if k < 2 {
        image
    } else if k == 2 {
        ImageShown::Image
    } else if k == 3 {
        ImageShown::Perhaps
    } else {
        ImageShown::NoImage
    }
}

/// Returns what is on the disk after a step that is refused.
fn refused(activity: Activity, image: ImageShown) -> ImageShown
    ensures { result ≡ refused activity image }
{
    match activity {
        Activity::Loads => ImageShown::NoImage,
        _ => image,
    }
}

/// Returns whether the machine does something else from an event on.
pub(crate) fn begins(event: &Event, told: Told) -> bool
    ensures { result ≡ begins event.now told }
{
    match event {
        Event::Step(Actor::Core) => ends(told),
        Event::Step(Actor::Task(_)) => false,
        _ => matches!(told, Told::More { .. } | Told::Loading { .. }),
    }
}

fn ends(told: Told) -> bool
    ensures { result ≡ ends told }
{
    match told {
        Told::More { .. } => false,
        Told::Loading { .. } => false,
        Told::Idle => false,
        Told::Undo { k, .. } => k == 0,
        _ => true,
    }
}
