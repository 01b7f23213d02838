//! The refusals of readings, alone and in their order.

use crate::files::{FEBRUARY, check_file, check_months};
use std::test::Fail;

/// Short files, cut by `|`: the refusal, a `=`, and the file.
const FILES: &str = "Shape=\
    |Shape=start\n2023-02-01T00:00\n\
    |Shape=start,net\nx,1\n\
    |Shape=net_wh,start\n1,2023-02-01T00:00\n\
    |Shape=start,net_wh,more\n2023-02-01T00:00,1,1\n\
    |Count 0 2=Start, NET_WH \n\
    |Count 1 2=start,net_wh\nx,1\n\
    |Start 0=start,net_wh\nx,1\ny,1\n\
    |Start 1=start,net_wh\n2023-02-02T00:00,x\ny,1\n\
    |Order 0=start,net_wh\n2023-02-02T00:00,1\n2023-02-02T00:05,1\n\
    |Order 0=start,net_wh\n2023-02-01T00:01,1\n2023-02-01T00:16,1\n\
    |Step=start,net_wh\n2023-02-01T00:00,x\n2023-02-01T00:05,1\n\
    |Step=start,net_wh\n2023-02-01T00:00,1\n2023-02-01T00:45,1\n\
    |Step=start,net_wh\n2023-02-01T00:00,1\n2023-02-02T00:15,1\n\
    |Step=start,net_wh\n2023-02-01T00:00,1\n2023-03-01T01:00,1\n\
    |Step=start,net_wh\n2023-02-01T00:00,1\n2024-02-01T01:00,1\n\
    |Step=start,net_wh\n2023-02-01T00:00,1\n2023-02-01T00:00,1\n\
    |Count 2 672=start,net_wh\n2023-02-01T00:00,x\n2023-02-01T01:00,x\n\
    |Count 3 1344=start,net_wh\n2023-02-01T00:00,x\n2023-02-01T00:30,x\ny,1\n\
    |Count 2 2688=start,net_wh\n2023-02-01T00:00,1\n2023-02-01T00:15,1\n";

#[test]
fn refuses_each_file(rt: HostRuntime) -> Result<(), Fail> {
    for case in FILES.split('|') {
        let Some((wanted, file)) = case.split_once('=') else {
            return Err(Fail::new("a case without an answer"));
        };
        check_file(rt.alloc(), file, wanted)?;
    }
    Ok(())
}

/// Changes of a month's rows, and the first refusal: each alone and beside the next one, in one row and in two.
const ROWS: &str = "Start 0=0:x,x\
    |Start 1=1:x,x;0:2023-02-02T00:00,0\
    |Count 671 672=671:;0:2023-02-01T00:00,x\
    |Number 0=0:2023-02-01T00:00,x;1:2023-02-01T01:00,2e9\
    |TooLarge 1=1:2023-02-01T01:00,1000000001;2:x,1\
    |Start 2=2:x,x\
    |Start 2=2:2023-02-01T2:00,x;3:2023-02-01T04:00,3\
    |Start 2=2:2023-02-01T02:00:01,2\
    |Start 2=2:2023-02-01  02:00,2\
    |Start 2=2:2023-02-01T24:00,2\
    |Start 2=2:2023-02-01T02:60,2\
    |Start 2=2:2023-02-29T02:00,2\
    |Start 2=2:2023-02-00T02:00,2\
    |Start 2=2:,2\
    |Order 2=2:2023-02-01T03:00,x\
    |Order 2=2:2023-02-01T02:01,2;3:x,3\
    |Order 2=2:2024-02-01T02:00,2\
    |Order 2=2:2023-03-01T02:00,2\
    |Order 2=2:2023-02-02T02:00,2\
    |Number 2=2:2023-02-01T02:00,x;3:2023-02-01T03:00,2e9\
    |Number 2=2:2023-02-01T02:00,\
    |Number 2=2:2023-02-01T02:00,0.5\
    |Number 2=2:2023-02-01T02:00,1e\
    |TooLarge 2=2:2023-02-01T02:00,1000000001;3:x,3\
    |TooLarge 2=2:2023-02-01T02:00,-1000000001\
    |TooLarge 2=2:2023-02-01T02:00,1000000000.5\
    |TooLarge 671=671:2023-02-28T23:00,1e10";

#[test]
fn the_first_refusal_is_told(rt: HostRuntime) -> Result<(), Fail> {
    check_months(rt.alloc(), FEBRUARY, ROWS)
}
