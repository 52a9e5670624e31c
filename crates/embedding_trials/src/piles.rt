// A stack at work, for two types of element.
use stacks::{Full, Stack};
use std::process::Abort;

fn behaves<T: Copy + PartialEq + Drop>(rt: &impl Abort, stack: &mut Stack<T>, low: T, high: T) {
    assert!(rt; stack.top().is_none());
    assert!(rt; stack.pop().is_none());
    assert!(rt; stack.push(low).is_ok());
    assert!(rt; stack.push(high).is_ok());
    assert!(rt; stack.push(low).is_err());
    assert_eq!(rt; stack.len(), 2);
    assert!(rt; stack.top().is_some_and(|x| x == high));
    assert!(rt; stack.pop().is_some_and(|x| x == high));
    assert!(rt; stack.top().is_some_and(|x| x == low));
    assert!(rt; stack.push(high).is_ok());
    stack.truncate(3);
    assert_eq!(rt; stack.len(), 2);
    stack.truncate(1);
    assert!(rt; stack.top().is_some_and(|x| x == low));
    stack.clear();
    assert_eq!(rt; stack.len(), 0);
}

#[test]
fn bytes_pile_up(rt: HostRuntime) {
    let mut slots = [7u8; 2];
    let mut stack = Stack::new(&mut slots);
    behaves(&rt, &mut stack, 1, 2);
    assert_eq!(rt; stack.push(3), Ok(()));
    assert_eq!(rt; stack.as_slice(), [3u8].as_slice());
}

#[test]
fn pairs_pile_up(rt: HostRuntime) {
    let mut slots = [(0u32, false); 2];
    let mut stack = Stack::new(&mut slots);
    behaves(&rt, &mut stack, (1, true), (1, false));
}

#[test]
fn no_slots_no_room(rt: HostRuntime) {
    let mut slots = [0u8; 0];
    let mut stack = Stack::new(&mut slots);
    assert_eq!(rt; stack.push(1), Err(Full));
    assert_eq!(rt; stack.len(), 0);
}
