//! The board: a post that goes round, and looks.
ghost use Rattle.std.specs.Prelude.{◌≡◌, ◌<◌, ◌≤◌, IfOk, length};

use super::{drive, image_of, opening};
use crate::exec::{look, post};
use crate::local::Local;
use co_base::NoMemory;
use co_machine::{Limits, Looked, Posted};
use co_words::{VecWords, Words};
use std::alloc::Global;
use std::test::Fail;

const LIMITS: Limits = Limits {
    words: 2097152,
    workers: 2,
    budget: 1,
};

// Words in which each cell is full, but for cell 65,534.
fn full(alloc: Global) -> Result<VecWords, NoMemory>
    ensures { IfOk result (λ words. length words ≡ 2097152) }
{
    let words = vec![in alloc; 7u64; 2097152]?;
    let mut words = VecWords::new(alloc, words.as_slice())?;
    words.store(16 + 65534, 0);
    Ok(words)
}

// How many full cells a post has passed, and what its last cell answered.
fn post_all(local: &mut Local, words: &mut VecWords, handle: u64) -> (u32, Posted)
    requires handle { 1 ≤ handle }
    requires size { 65552 ≤ length words.old }
    ensures { length words.new ≡ length words.old }
{
    for passed in 0..65_535u32 {
        match post(local, words, handle) {
            Posted::Next => {}
            Posted::Done => return (passed, Posted::Done),
            Posted::Full => return (passed, Posted::Full),
        }
    }
    (65_535, post(local, words, handle))
}

#[test]
fn posts(rt: HostRuntime) -> Result<(), Fail> {
    let image = image_of(rt.alloc(), &[])?;
    let mut local = Local::new(rt.alloc(), &image, &LIMITS, 1)?;
    let mut words = full(rt.alloc())?;
    assert!(rt;
        matches!(
            post_all(&mut local, &mut words, 70000),
            (65534, Posted::Done)
        )
    );
    assert_eq!(rt; words.load(16 + 65534), 70000);
    words.store(16 + 2, 0);
    assert!(rt; matches!(post_all(&mut local, &mut words, 70001), (3, Posted::Done)));
    assert_eq!(rt; words.load(16 + 2), 70001);
    assert!(rt;
        matches!(
            post_all(&mut local, &mut words, 70002),
            (65535, Posted::Full)
        )
    );
    Ok(())
}

#[test]
fn cells(rt: HostRuntime) -> Result<(), Fail> {
    let image = image_of(rt.alloc(), &[])?;
    let mut local = Local::new(rt.alloc(), &image, &LIMITS, 1)?;
    let mut words = opening(rt.alloc(), 2097152)?;
    assert!(rt; matches!(post(&mut local, &mut words, 70000), Posted::Done));
    assert!(rt; matches!(look(&mut local, &mut words), Looked::Found(70000)));
    assert!(rt; matches!(look(&mut local, &mut words), Looked::Next));
    assert!(rt; local.next().is_none());
    assert!(rt; local.main_value().is_none());
    assert!(rt; !local.leaves());
    assert_eq!(rt; local.worker(), 1);
    assert_eq!(rt; local.counts().instructions, 0);
    Ok(())
}

// Whether a worker leaves after a whole look that found each cell empty, word 5 being this one; and the turns.
fn look_round(alloc: Global, worker: u32, main_word: u64) -> Result<(u32, bool), NoMemory>
    requires { worker < 2 }
{
    let image = image_of(alloc, &[])?;
    let mut local = Local::new(alloc, &image, &LIMITS, worker)?;
    let mut words = opening(alloc, 2097152)?;
    words.store(5, main_word);
    let turns = drive(&image, &mut local, &mut words);
    Ok((turns, local.leaves()))
}

// A load of word 2, one of word 5 and 65,536 swaps.
#[test]
fn looks(rt: HostRuntime) -> Result<(), Fail> {
    assert_eq!(rt; look_round(rt.alloc(), 1, 0)?, (65_538, false));
    assert_eq!(rt; look_round(rt.alloc(), 1, 1)?, (65_538, true));
    Ok(())
}
