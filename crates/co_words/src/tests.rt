//! Spare blocks over words of their own: what is handed out again, by the rule in `docs/MACHINE.md`.
use crate::{Blocks, StoreFull, VecWords, Words, give_block, take_block};
use co_base::Undef;
use std::test::Fail;

#[test]
fn blocks(rt: HostRuntime) -> Result<(), Fail> {
    let mut blocks = Blocks::new(rt.alloc())?;
    for (size, place) in [(7, 100), (2000, 200), (3, 300), (7, 400), (1025, 500)] {
        blocks.add(size, place);
    }
    assert_eq!(rt; blocks.newest(7), Some(400));
    for (size, place) in [
        (7, Some(400)),
        (2000, Some(200)),
        (7, Some(100)),
        (7, None),
        (1025, Some(500)),
        (2000, None),
        (3, Some(300)),
        (1024, None),
    ] {
        assert_eq!(rt; blocks.remove(size), place);
    }
    for place in 0..4097 {
        blocks.add(place % 1500, place);
    }
    assert_eq!(rt; blocks.newest(95), Some(3095));
    assert_eq!(rt; blocks.newest(1095), Some(4095));
    assert_eq!(rt; blocks.remove(1096), Some(2596));
    Ok(())
}

#[test]
fn storage(rt: HostRuntime) -> Result<(), Fail> {
    let mut blocks = Blocks::new(rt.alloc())?;
    let mut words = VecWords::new(
        rt.alloc(),
        &[0, 0, 0, 8, 1, 0, 0, 0, 0, 0, 0, 0, 0, 0, 0, 0],
    )?;
    assert_eq!(rt; take_block(&mut blocks, &mut words, 17), Err(StoreFull));
    assert_eq!(rt; words.load(3), 8);
    assert_eq!(rt; take_block(&mut blocks, &mut words, 3), Ok(9));
    assert_eq!(rt; words.load(3), 12);
    words.store(8, 3);
    assert_eq!(rt; take_block(&mut blocks, &mut words, 3), Ok(13));
    assert_eq!(rt; words.load(3), 16);
    words.store(12, 3);
    assert_eq!(rt; take_block(&mut blocks, &mut words, 1), Err(StoreFull));
    assert_eq!(rt; give_block(&mut blocks, &mut words, 9), Ok(()));
    assert_eq!(rt; give_block(&mut blocks, &mut words, 9), Err(Undef::U11));
    assert_eq!(rt; give_block(&mut blocks, &mut words, 13), Ok(()));
    assert_eq!(rt; take_block(&mut blocks, &mut words, 3), Ok(13));
    assert_eq!(rt; take_block(&mut blocks, &mut words, 3), Ok(9));
    words.store(12, 17);
    assert_eq!(rt; give_block(&mut blocks, &mut words, 13), Err(Undef::U11));
    assert_eq!(rt; words.cas(5, 0, 4), 0);
    assert_eq!(rt; words.swap(5, 6), 4);
    assert_eq!(rt; words.add(5, 1), 6);
    Ok(())
}
