use crate::{
    Gate, OpenGate, Text, bits, bits_of_value, converts_by_value, converts_once,
    converts_to_itself, converts_to_values, gives_truth, gives_values, holds_its_value,
    is_congruent, is_held, value, value_of_bits,
};
use std::test::Fail;

#[test]
fn words(rt: HostRuntime) -> Result<(), Fail> {
    assert_eq!(rt; bits(-1), u64::MAX);
    assert_eq!(rt; bits(i64::MIN), 1 << 63);
    assert_eq!(rt; value(u64::MAX), -1);
    assert_eq!(rt; value(1 << 63), i64::MIN);
    Ok(())
}

#[test]
fn texts(rt: HostRuntime) -> Result<(), Fail> {
    let mut text = Text::new(rt.alloc());
    text.push(b'a')?;
    let copy = text.copy()?;
    text.push(b'b')?;
    assert_eq!(rt; text.as_slice(), b"ab".as_slice());
    assert_eq!(rt; copy.as_slice(), b"a".as_slice());
    assert_eq!(rt; Text::from_slice(rt.alloc(), b"xyz")?.len(), 3);
    OpenGate.turn(0);
    Ok(())
}

#[test]
fn laws() {
    holds_its_value();
    is_held();
    is_congruent();
    gives_values();
    gives_truth();
    converts_to_values();
    converts_to_itself();
    converts_once();
    converts_by_value();
    value_of_bits();
    bits_of_value();
}
