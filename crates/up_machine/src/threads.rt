//! Threads may send one another values of this crate, and share them: this file isn't taken where
//! they may not. An event is made of numbers, jobs, worlds, cubes and what stands here.
use crate::{Brief, Cover, End, Event, Job, Limits, NotNow, Origin, Short, Task, Why};
use fo_core::World;
use up_diagram::Cube;

fn crosses_threads<T: Send + Sync>(_value: &T) {}

#[expect(dead_code, reason = "nothing calls it: that it is taken shows the bounds")]
fn values_cross_threads(
    limits: &Limits,
    job: &Job,
    short: &Short,
    task: &Task,
    not_now: &NotNow,
    cover: &Cover,
) {
    crosses_threads(limits);
    crosses_threads(job);
    crosses_threads(short);
    crosses_threads(task);
    crosses_threads(not_now);
    crosses_threads(cover);
}

#[expect(dead_code, reason = "nothing calls it: that it is taken shows the bounds")]
fn lists_cross_threads(brief: &Brief, cube: &Cube, origin: &Origin, why: &Why, world: &World) {
    crosses_threads(brief);
    crosses_threads(cube);
    crosses_threads(origin);
    crosses_threads(why);
    crosses_threads(world);
}

#[expect(dead_code, reason = "nothing calls it: that it is taken shows the bounds")]
fn events_cross_threads(end: &End, event: &Event) {
    crosses_threads(end);
    crosses_threads(event);
}
