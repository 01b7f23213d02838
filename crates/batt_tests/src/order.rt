//! The order of faults, and the number of modes.

use crate::cases::{answer, file_of};
use std::alloc::Global;
use std::test::Fail;

/// Rows with several faults, cut by `;`, behind the first of them and a `=`.
const ORDER: &str = "unknown 0=set,charge,x,,,;set,capacity,x,,,\
    !twice 1=mode,a,0,0,,;mode,a,x,1e12,,\
    !number 1=mode,a,0,0,,;mode,b,0,1e12,9,x\
    !range 0=mode,a,0,0,9,8;set,charge,4,,,\
    !range 1=set,floor,5,,,;mode,a,999,0,,\
    !missing=set,floor,5,,,;set,start,4,,,;set,end,3,,,\
    !range 1=set,start,9,,,;set,floor,5,,,;set,end,9,,,;set,capacity,4,,,\
    !range 0=set,start,9,,,;set,floor,4,,,;set,end,9,,,;set,capacity,4,,,\
    !range 2=set,start,4,,,;set,floor,4,,,;set,end,9,,,;set,capacity,4,,,\
    !no modes=set,start,4,,,;set,floor,4,,,;set,end,0,,,;set,capacity,4,,,";

#[test]
fn the_first_fault_is_told(rt: HostRuntime) -> Result<(), Fail> {
    let alloc = rt.alloc();
    for case in ORDER.split('!') {
        let (wanted, rows) = case.split_once('=').unwrap_or((case, ""));
        let found = answer(alloc, file_of(alloc, rows)?.as_str())?;
        assert!(rt; found.as_str() == wanted, "{found} of {rows}");
    }
    Ok(())
}

/// A file of a capacity and so many modes, and a last row.
fn many_modes(alloc: Global, count: usize, last: &str) -> Result<String, Fail> {
    let mut file = file_of(alloc, "set,capacity,4,,,")?;
    for number in 0..count {
        write!(file, "mode,m{number},0,0,,\n")?;
    }
    file.push_str(last)?;
    Ok(file)
}

/// The first faults of a file of 64 modes and this last row.
#[test]
fn takes_64_modes(rt: HostRuntime) -> Result<(), Fail> {
    let alloc = rt.alloc();
    let all = answer(alloc, many_modes(alloc, 64, "set,floor,0,,,")?.as_str())?;
    assert!(rt;
        all.as_str()
            .starts_with("4 0 0 0 10000000000 10000000000|m0 0 0 0 255|m1 ")
    );
    assert_eq!(rt; all.as_str().split('|').count(), 65);
    for (last, wanted) in [
        ("mode,m64,0,0,,", "too many 65"),
        ("mode,m64,0,0,1,0", "range 65"),
        ("mode,m64,0,x,1,0", "number 65"),
        ("mode,m63,0,x,,", "twice 65"),
    ] {
        let found = answer(alloc, many_modes(alloc, 64, last)?.as_str())?;
        assert_eq!(rt; found.as_str(), wanted);
    }
    Ok(())
}
