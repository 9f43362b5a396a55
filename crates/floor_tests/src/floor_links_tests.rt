//! The links between machines, before anything is sent.
use floor_links::{NewLinks, make_links};
use std::test::Fail;

#[test]
fn each_machine_has_a_link_to_each(rt: HostRuntime) -> Result<(), Fail> {
    let NewLinks { links, outs, inns } = make_links(rt.alloc(), 3, 1)?;
    let rows = links.into_rows();
    assert!(rt; rows.len() == 3 && outs.len() == 3 && inns.len() == 3);
    assert!(rt; rows.iter().all(|row| row.len() == 3));
    assert!(rt; outs.iter().all(|row| row.len() == 3));
    assert!(rt; inns.iter().all(|row| row.len() == 3));
    Ok(())
}
