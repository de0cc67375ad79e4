//! Visits by two threads, and a visit that adds nothing.
ghost use Rattle.std.specs.Prelude.{◌≡◌, ◌+◌, ◌<◌};
ghost use Rattle.std.specs.Thread.{IsSync};
ghost use Rattle.turnstile.specs.Views.{IsOf, IsOutside, HasNumbers};

use crate::{KeptValue, Pass, Turnstile};
use std::sync::Wait;
use std::test::Fail;
use std::thread::{Threads, join};

/// Pairs of a caller's number and how many entries it had left before.
#[derive(Drop)]
struct Log {
    entries: Vec<(u32, u32)>,
}

impl KeptValue for Log {
    type Base = ();

    type Entry = (u32, u32);

    ghost base = { λ _. tt };

    ghost history = { λ v. v.entries.items };

    ghost number = { λ e. e.0 };

    fn entries(&self) -> u64 {
        self.entries.len() as u64
    }
}

/// Something that a caller does with its pass.
trait Visit<S: KeptValue>: Sync {
    fn visit<R: Wait>(&self, rt: &R, shared: &Turnstile<S>, pass: &mut Pass<S>)
        requires own { IsOf shared.now pass.old }
        requires outside { IsOutside pass.old }
        ensures own { IsOf shared.now pass.new }
        ensures outside { IsOutside pass.new }
        ensures numbers { HasNumbers pass.new pass.old.from pass.old.to };
}

struct LeaveEach {
    times: u32,
}

impl Visit<Log> for LeaveEach {
    fn visit<R: Wait>(&self, rt: &R, shared: &Turnstile<Log>, pass: &mut Pass<Log>) {
        let number = pass.first();
        for count in 0..self.times {
            let mut log = shared.enter(rt, pass);
            let _ = log.entries.push((number, count));
            shared.leave(pass, log);
        }
    }
}

/// Splits the pass at `at`, and visits with each part in a thread of its own.
fn visit_both<S: KeptValue, V: Visit<S>, R: Threads + Wait + Sync>(
    rt: &R,
    shared: &Turnstile<S>,
    mut pass: Pass<S>,
    at: u32,
    visit: &V,
) -> Pass<S>
    requires own { IsOf shared.now pass }
    requires outside { IsOutside pass }
    requires inside { (pass.from < at) × (at < pass.to) }
    ensures own { IsOf shared.now result }
    ensures outside { IsOutside result }
    ensures numbers { HasNumbers result pass.from pass.to }
{
    let upper = shared.split(&mut pass, at);
    let (mut lower, upper) = join(
        rt,
        move || -> Pass<S>
            requires { IsSync R.row × IsOf shared.now pass × IsOutside pass }
            ensures { IsOf shared.entry.now result × IsOutside result × HasNumbers result pass.from pass.to }
        {
            let mut pass = pass;
            visit.visit(rt, shared, &mut pass);
            pass
        },
        move || -> Pass<S>
            requires { IsSync R.row × IsOf shared.now upper × IsOutside upper }
            ensures { IsOf shared.entry.now result × IsOutside result × HasNumbers result upper.from upper.to }
        {
            let mut upper = upper;
            visit.visit(rt, shared, &mut upper);
            upper
        },
    );
    shared.join(&mut lower, upper);
    lower
}

/// How many entries the number has, and whether they are its counts from 0 on, in order.
fn counts(log: &Log, number: u32) -> (u32, bool) {
    let mut next = 0;
    let mut ordered = true;
    for entry in log.entries.iter() {
        if entry.0 == number {
            ordered &= entry.1 == next;
            next = entry.1.wrapping_add(1);
        }
    }
    (next, ordered)
}

#[test]
fn two_threads_leave_a_thousand_each(rt: HostRuntime) -> Result<(), Fail> {
    let log = Log {
        entries: Vec::new(rt.alloc()),
    };
    let Ok((shared, pass)) = Turnstile::new(rt.alloc(), log, 2) else {
        panic!(rt; "memory")
    };
    let pass = visit_both(&rt, &shared, pass, 1, &LeaveEach { times: 1000 });
    assert!(rt; pass.first() == 0);
    let log = shared.close(pass);
    assert!(rt; log.entries.len() == 2000);
    assert!(rt; counts(&log, 0) == (1000, true));
    assert!(rt; counts(&log, 1) == (1000, true));
    Ok(())
}

#[test]
fn a_visit_that_adds_nothing_changes_nothing(rt: HostRuntime) -> Result<(), Fail> {
    let log = Log {
        entries: Vec::new(rt.alloc()),
    };
    let Ok((shared, mut pass)) = Turnstile::new(rt.alloc(), log, 1) else {
        panic!(rt; "memory")
    };
    LeaveEach { times: 2 }.visit(&rt, &shared, &mut pass);
    let log = shared.enter(&rt, &mut pass);
    assert!(rt; log.entries.as_slice() == [(0, 0), (0, 1)].as_slice());
    shared.leave(&mut pass, log);
    LeaveEach { times: 1 }.visit(&rt, &shared, &mut pass);
    let log = shared.close(pass);
    assert!(rt; log.entries.as_slice() == [(0, 0), (0, 1), (0, 0)].as_slice());
    Ok(())
}
