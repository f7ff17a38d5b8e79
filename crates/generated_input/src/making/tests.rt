//! What is made from 7, by the values of an independent program that follows the same rules.
use crate::making::made;
use std::test::Fail;

/// FNV-1a of 64 bits.
fn checksum(bytes: &[u8]) -> u64 {
    bytes.iter().fold(0xcbf2_9ce4_8422_2325, |sum: u64, byte| {
        (sum ^ u64::from(*byte)).wrapping_mul(0x100_0000_01b3)
    })
}

#[test]
fn all_that_is_made_from_seven_is_known(rt: HostRuntime) -> Result<(), Fail> {
    let made = made(rt.alloc(), 7)?;
    assert_eq!(rt; made.text.len(), 1_173_037);
    assert_eq!(rt; checksum(&made.text), 0x1bfa_505e_5777_ce7f);
    assert_eq!(rt; made.script.len(), 12_345);
    assert_eq!(rt; checksum(&made.script), 0xead3_4da3_e839_0edc);
    Ok(())
}
