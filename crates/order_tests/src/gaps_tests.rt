use crate::shown::naming;
use log_frontier::gaps;
use std::test::Fail;

#[test]
fn a_gap_is_told_once_and_ascending(rt: HostRuntime) -> Result<(), Fail> {
    let alloc = rt.alloc();
    // 9 and 2 are named and no entry's digest, 9 twice.
    let entries = [
        naming(alloc, [5; 32], &[[9; 32], [9; 32]])?,
        naming(alloc, [7; 32], &[[5; 32], [2; 32]])?,
    ];
    let found = gaps(alloc, &entries)?;
    assert!(rt; found.as_slice() == [[2; 32], [9; 32]].as_slice());
    Ok(())
}
