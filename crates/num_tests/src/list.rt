//! Lists, as the crates above fill and read them.

use d_list::Items;
use d_num::NoMemory;

#[test]
fn lists_keep_what_is_added(rt: HostRuntime) -> Result<(), NoMemory> {
    let mut list = Items::new(rt.alloc());
    assert!(rt; list.is_empty());
    list.add(Some(4u32))?;
    list.add(None)?;
    let copy = list.copied(rt.alloc())?;
    assert!(rt; copy.len() == 2 && copy.as_slice()[0] == Some(4));
    assert!(rt; copy.entry(0).is_some() && copy.entry(1).is_none() && copy.entry(2).is_none());
    Ok(())
}
