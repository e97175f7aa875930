// Access structures and their records.
use crate::records::CHAIN;
use access::read_structure;
use std::test::Fail;

// The number of the refusal, or 0: the number that the tests name.
fn refusal(bytes: &[u8]) -> u32 {
    read_structure(bytes).map_or_else(|fault| fault.reason.number(), |_| 0)
}

#[test]
fn the_chain_is_read(rt: HostRuntime) -> Result<(), Fail> {
    let Ok(chain) = read_structure(&CHAIN) else {
        return Err(Fail::new("the chain is refused"));
    };
    assert_eq!(rt; chain.participants(), 4);
    assert_eq!(rt; chain.is_qualified(0x0A), false);
    assert_eq!(rt; chain.is_qualified(0x0E), true);
    assert_eq!(rt; chain.is_minimal(0x06), true);
    assert_eq!(rt; chain.is_minimal(0x0E), false);
    assert_eq!(rt; chain.is_minimal(0x0A), false);
    Ok(())
}

#[test]
fn numbers_have_limits(rt: HostRuntime) {
    assert_eq!(rt; refusal(&[0x53, 0x54, 7, 1, 0x80]), 0);
    assert_eq!(rt; refusal(&[0x53, 0x54, 8, 1, 0x80]), 3);
    assert_eq!(rt; refusal(&[0x53, 0x54, 0, 1, 0x02]), 3);
    assert_eq!(rt; refusal(&[0x53, 0x54, 1, 0, 0x02]), 3);
    assert_eq!(rt; refusal(&[0x53, 0x54, 1, 36]), 3);
}

#[test]
fn stretches_are_whole(rt: HostRuntime) {
    assert_eq!(rt; refusal(&[]), 1);
    assert_eq!(rt; refusal(&[0x53]), 1);
    assert_eq!(rt; refusal(&[0x53, 0x55]), 2);
    assert_eq!(rt; refusal(&[0x53, 0x54, 9]), 1);
    assert_eq!(rt; refusal(&[0x53, 0x54, 4, 2, 0x01]), 1);
    assert_eq!(rt; refusal(&[0x53, 0x54, 4, 1, 0x06, 0x06]), 11);
}

#[test]
fn sets_are_coalitions_of_an_antichain(rt: HostRuntime) {
    assert_eq!(rt; refusal(&[0x53, 0x54, 4, 1, 0x00]), 4);
    assert_eq!(rt; refusal(&[0x53, 0x54, 4, 1, 0x07]), 4);
    assert_eq!(rt; refusal(&[0x53, 0x54, 4, 1, 0x20]), 4);
    assert_eq!(rt; refusal(&[0x53, 0x54, 2, 2, 0x02, 0x06]), 5);
    assert_eq!(rt; refusal(&[0x53, 0x54, 2, 2, 0x06, 0x02]), 5);
    assert_eq!(rt; refusal(&[0x53, 0x54, 2, 2, 0x06, 0x06]), 5);
    assert_eq!(rt; refusal(&[0x53, 0x54, 2, 3, 0x02, 0x06, 0x01]), 4);
}
