//! Two and four threads over the same words: what no schedule changes.
ghost use Rattle.std.specs.Prelude.{◌≡◌, ◌<◌, length};
ghost use Rattle.co_shared.specs.Sights.{IsLater};

use crate::{Held, Pass, Shared};
use co_base::NoMemory;
use co_words::Words;
use std::alloc::Global;
use std::test::Fail;
use std::thread;
use std::thread::Threads;
use std::time::{Clock, Duration};

// The words: a sum, the number of the thread that has the token, a count that compare_exchange raises, the number
// that was exchanged last, and the sum of those that were found.
const SUM: u64 = 1;

const TOKEN: u64 = 2;

const RAISED: u64 = 3;

const LAST: u64 = 4;

const FOUND: u64 = 5;

fn raise(held: &mut Held<'_>)
    requires { length held.old.ground.opening ≡ 6 }
    ensures { (held.new.ground ≡ held.old.ground) × IsLater held.old.pass held.new.pass }
{
    'tries: for _ in 0..1_000_000 {
        let old = held.load(RAISED);
        if held.cas(RAISED, old, old.wrapping_add(1)) == old {
            break;
        }
    }
}

fn hand_on<R: Clock>(rt: &R, held: &mut Held<'_>, me: u64)
    requires { (length held.old.ground.opening ≡ 6) × (me < 4) }
    ensures { (held.new.ground ≡ held.old.ground) × IsLater held.old.pass held.new.pass }
{
    'tries: for _ in 0..1_000_000 {
        if held.load(TOKEN) == me {
            held.store(TOKEN, me + 1);
            break;
        }
        thread::sleep(rt, Duration::from_micros(10));
    }
}

fn work<R: Clock>(rt: &R, shared: &Shared, pass: Pass, me: u64) -> Pass
    requires { (pass.id ≡ shared.now.id) × (length shared.now.opening ≡ 6) × (me < 4) }
    ensures { IsLater pass result }
{
    let mut held = shared.hold(pass);
    'adds: for _ in 0..8 {
        held.add(SUM, 1);
    }
    raise(&mut held);
    let found = held.swap(LAST, me + 1);
    held.add(FOUND, found);
    hand_on(rt, &mut held, me);
    held.back()
}

fn pair<R: Threads + Clock + Sync>(
    rt: &R,
    shared: &Shared,
    first: Pass,
    second: Pass,
    me: u64,
) -> (Pass, Pass)
    requires { (first.id ≡ shared.now.id) × (second.id ≡ shared.now.id) × (length shared.now.opening ≡ 6) × (me < 3) }
    ensures { IsLater first result.0 × IsLater second result.1 }
{
    thread::join(
        rt,
        move || -> Pass
            requires { (first.id ≡ shared.now.id) × (length shared.now.opening ≡ 6) × (me < 3) }
            ensures { IsLater first result }
        { work(rt, shared, first, me) },
        move || -> Pass
            requires { (second.id ≡ shared.now.id) × (length shared.now.opening ≡ 6) × (me < 3) }
            ensures { IsLater second result }
        { work(rt, shared, second, me + 1) },
    )
}

// The sum and the token as `close` gives them, the count, and the sum of all numbers that were exchanged.
fn end(shared: Shared, pass: Pass) -> [u64; 4]
    requires { (pass.id ≡ shared.id) × (length shared.opening ≡ 6) × (pass.told.number ≡ 0) × (length pass.told.ended ≡ pass.told.splits) }
{
    let mut held = shared.hold(pass);
    let raised = held.load(RAISED);
    let last = held.load(LAST);
    let found = held.load(FOUND);
    let pass = held.back();
    let ends = shared.close(pass);
    [ends.stamp, ends.stop, raised, last.wrapping_add(found)]
}

fn two<R: Threads + Clock + Sync>(rt: &R, alloc: Global) -> Result<[u64; 4], NoMemory> {
    let (shared, mut main) = Shared::new(alloc, &[0; 6])?;
    let second = shared.split(&mut main);
    let (mut main, second) = pair(rt, &shared, main, second, 0);
    shared.join(&mut main, second);
    Ok(end(shared, main))
}

fn four<R: Threads + Clock + Sync>(rt: &R, alloc: Global) -> Result<[u64; 4], NoMemory> {
    let (shared, mut main) = Shared::new(alloc, &[0; 6])?;
    let second = shared.split(&mut main);
    let third = shared.split(&mut main);
    let fourth = shared.split(&mut main);
    let words = &shared;
    let ((mut main, second), (third, fourth)) = thread::join(
        rt,
        move || -> (Pass, Pass)
            requires { (main.id ≡ words.now.id) × (second.id ≡ words.now.id) × (length words.now.opening ≡ 6) }
            ensures { IsLater main result.0 × IsLater second result.1 }
        { pair(rt, words, main, second, 0) },
        move || -> (Pass, Pass)
            requires { (third.id ≡ words.now.id) × (fourth.id ≡ words.now.id) × (length words.now.opening ≡ 6) }
            ensures { IsLater third result.0 × IsLater fourth result.1 }
        { pair(rt, words, third, fourth, 2) },
    );
    shared.join(&mut main, second);
    shared.join(&mut main, third);
    shared.join(&mut main, fourth);
    Ok(end(shared, main))
}

#[test]
fn threads_share_the_words(rt: HostRuntime) -> Result<(), Fail> {
    for _ in 0..1_000 {
        assert!(rt; two(&rt, rt.alloc())? == [16, 2, 2, 3]);
        assert!(rt; four(&rt, rt.alloc())? == [32, 4, 4, 10]);
    }
    Ok(())
}
