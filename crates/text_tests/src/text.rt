//! Decimals of every form, grids and lists in brackets, and the texts of numbers.

use d_num::{Money, Rate};
use d_text::{
    DecimalFault, Span, money_text, rate_text, read_decimal, read_floor, read_grid, reads_one_way,
    reads_or_not, reads_or_refuses, rounds_one_way, split_list, splits_one_way, whole_text,
};
use std::alloc::{AllocError, Global};

/// What a case says of a cell: the number of units, or why there is none and at which place.
fn answer_of(text: &str) -> Option<(&str, i128)> {
    match text.split_once(' ') {
        Some((why, place)) => Some((why, place.parse::<i128>().ok()?)),
        None if text == "empty" || text == "large" || text == "fine" => Some((text, 0)),
        None => Some(("", text.parse::<i128>().ok()?)),
    }
}

/// The same of what was read.
fn shown(read: Result<i128, DecimalFault>) -> (&'static str, i128) {
    match read {
        Ok(units) => ("", units),
        Err(DecimalFault::Empty) => ("empty", 0),
        Err(DecimalFault::Form(place)) => ("form", place as i128),
        Err(DecimalFault::TooLarge) => ("large", 0),
        Err(DecimalFault::TooFine) => ("fine", 0),
    }
}

/// Readings of cells with 18 places and the limit 1000.
#[test]
fn reads_each_decimal(rt: HostRuntime) {
    let cases =
        "0=0|0=-0|0=+0|1000000000000000000=1|1000000000000000000=+1|-1000000000000000000=-1|7000000000000000000=007|\
         1000000000000000000000=1000|1000000000000000000000=1000.0|large=1000.000000000000000001|\
         -1000000000000000000000=-1000|large=-1001|500000000000000000=.5|5000000000000000000=5.|-500000000000000000=-.5|\
         5000000000000000000=+5.|500000000000000000000=+.5E+3|form 1=.|form 1=-|form 1=+|form 2=+.|form 2=-.e1|form 2=1e|\
         form 3=1e+|form 3=1E-|form 3=1e5x|form 3=0.1x|form 2=1..2|form 3=1.2.3|form 3=1e2.5|form 0=e5|form 1=++1|form 1=+-1|\
         form 1=1-|form 1=1,5|form 1=0x10|form 1=1_000|form 0=inf|form 0=NaN|form 1=--|0=0e99999999999999999999|\
         0=-0e99999999999999999999|large=1e99999999999999999999|fine=1e-99999999999999999999|0=0.000e-99999999999999999999|\
         1000000000000000000000=1e3|large=1e4|1000000000000000000000=1E+3|1000000000000000000000=1e003|\
         12000000000000000=12e-3|1=1e-18|fine=1e-19|1=10e-19|large=1e400|fine=1e-400|123456789012345678=0.123456789012345678|\
         fine=0.1234567890123456789|100000000000000001=0.1000000000000000010|100000000000000000=0.1000000000000000000|\
         100000000000000000000=100.000000000000000000000000000000000000|large=1234567890123456789012345678901234567890|\
         fine=0.0000000000000000001234567890123456789012345678901234567890|fine=1234567890123456789012345678901234567890e-37|\
         1000000000000000000=1000000000000000000000000000000000000000e-39|fine=9999999999999999999999999999999999999999e-37|\
         250000000000000000=0000000000000000000000000000000000000000.25|100000000000000010=0.10000000000000001|\
         299999999999999990=0.29999999999999999|69999999999999996=6.9999999999999996e-02|\
         100000000000000000000=1.0000000000000000e+02|form 0= 1|form 1=1 |form 0=\t1|form 1=1\t|form 1=1\n|form 0=\u{e9}|\
         form 1=1\u{a0}|form 0=\u{feff}1|empty=";
    for case in cases.split('|') {
        let (answer, cell) = case.split_once('=').expect(&rt, "an answer and a cell");
        let wanted = answer_of(answer).expect(&rt, "an answer");
        let found = shown(read_decimal(cell.as_bytes(), 18, 1000));
        assert_eq!(rt; found, wanted, "at {case}");
    }
}

/// The laws are functions that do nothing.
#[test]
fn laws_are_called(_rt: HostRuntime) {
    reads_one_way();
    reads_or_not();
    splits_one_way();
    rounds_one_way();
    reads_or_refuses();
}

#[test]
fn rounds_down(rt: HostRuntime) {
    assert_eq!(rt; shown(read_floor(b"-1.25", 1, 2)), ("", -13));
    assert_eq!(rt; shown(read_floor(b"1.29", 1, 2)), ("", 12));
    assert_eq!(rt; shown(read_floor(b"2.01", 1, 2)), ("large", 0));
}

#[test]
fn writes_a_whole_number_at_the_front(rt: HostRuntime) {
    let mut room = [b'#'; 64];
    let end = whole_text(-1205, &mut room);
    assert_eq!(rt; &room[..end], b"-1205".as_slice());
    assert_eq!(rt; room[end], b'#');
}

#[test]
fn writes_money_and_prices_at_the_front(rt: HostRuntime) {
    let mut room = [b'#'; 64];
    let money = Money::new(-12_340_500_000_000_000_000_000).expect(&rt, "money");
    let end = money_text(money, &mut room);
    assert_eq!(rt; &room[..end], b"-12.3405".as_slice());
    let rate = Rate::new(1).expect(&rt, "a price");
    let end = rate_text(rate, &mut room);
    assert_eq!(rt; &room[..end], b"0.000000000000000001".as_slice());
}

// A row of zeros.
const ROW: &[u8] = b"[0,0,0,0,0,0,0,0,0,0,0,0,0,0,0,0,0,0,0,0,0,0,0,0]";

// The cell in which each R stands for a row of zeros.
fn with_rows(alloc: Global, pattern: &str) -> Result<Vec<u8>, AllocError> {
    let mut cell = Vec::new(alloc);
    for byte in pattern.as_bytes() {
        if *byte == b'R' {
            cell.extend_from_slice(ROW)?;
        } else {
            cell.push(*byte)?;
        }
    }
    Ok(cell)
}

// The place that a table's case says, or None where it is ok.
fn place_of(answer: &str) -> Option<usize> {
    answer.parse::<usize>().ok()
}

#[test]
fn reads_each_grid(rt: HostRuntime) -> Result<(), AllocError> {
    let cases =
        "ok=[R,R,R,R,R,R,R,R,R,R,R,R]|ok=[\r\nR,R,R,R,R,R,R,R,R,R,R,R\n]|0=|0= |0= [|0=\u{feff}[|0=]|0=x|1=[|1=[]|1=[1|1=[,|\
         1=[\u{b}|5=[ \t\r\n|2=[[|2=[[[|2=[[]|2=[[,|2=[[x|2=[[-1|4=[[35|3=[[36|5=[[0036|6=[[0035|4=[[350|3=[[4|3=[[40|4=[[1 2|\
         3=[[1.0|4=[[1,,|3=[[1[|8=[[1 ,\n2\t]|11=[ \t[ \r1 \n, x|47=[[0,0,0,0,0,0,0,0,0,0,0,0,0,0,0,0,0,0,0,0,0,0,0]|\
         49=[[0,0,0,0,0,0,0,0,0,0,0,0,0,0,0,0,0,0,0,0,0,0,0,0,|48=[[0,0,0,0,0,0,0,0,0,0,0,0,0,0,0,0,0,0,0,0,0,0,0,]|50=[R|50=[R0|\
         50=[R[|52=[R \n]|550=[R,R,R,R,R,R,R,R,R,R,R]|600=[R,R,R,R,R,R,R,R,R,R,R,R,R]|600=[R,R,R,R,R,R,R,R,R,R,R,R|\
         600=[R,R,R,R,R,R,R,R,R,R,R,R,]|601=[R,R,R,R,R,R,R,R,R,R,R,R]x|601=[R,R,R,R,R,R,R,R,R,R,R,R]]|\
         601=[R,R,R,R,R,R,R,R,R,R,R,R] |0= [R,R,R,R,R,R,R,R,R,R,R,R]|1=R,R,R,R,R,R,R,R,R,R,R,R";
    for case in cases.split('|') {
        let (answer, pattern) = case.split_once('=').expect(&rt, "an answer and a cell");
        let cell = with_rows(rt.alloc(), pattern)?;
        let mut grid = [[7; 24]; 12];
        let place = read_grid(&cell, &mut grid).err().map(|fault| fault.place);
        assert_eq!(rt; place, place_of(answer), "at {case}");
    }
    Ok(())
}

#[test]
fn keeps_the_order_of_a_grid(rt: HostRuntime) -> Result<(), AllocError> {
    let pattern =
        "[\r\n[ 000,07\t,\n014, 21,28,35,6,13,20,27,34,5,12,19,26,33,4,11,18,25,32,3,10,17]\t,\
         R,R,R,R,R,R,R,R,R,R ,\
         [35,35,35,35,35,35,35,35,35,35,35,35,35,35,35,35,35,35,35,35,35,35,35,0034 ] ]";
    let cell = with_rows(rt.alloc(), pattern)?;
    let mut grid = [[7; 24]; 12];
    assert!(rt; read_grid(&cell, &mut grid).is_ok());
    assert_eq!(rt;
        grid[0],
        [
            0, 7, 14, 21, 28, 35, 6, 13, 20, 27, 34, 5, 12, 19, 26, 33, 4, 11, 18, 25, 32, 3, 10,
            17
        ]
    );
    assert_eq!(rt; grid[1], [0; 24]);
    assert_eq!(rt; grid[11][22], 35);
    assert_eq!(rt; grid[11][23], 34);
    Ok(())
}

#[test]
fn splits_each_list(rt: HostRuntime) {
    let cases =
        "ok=[a,a,a,a,a,a,a,a,a,a,a,a]|0=|0=\t[a|0=a|1=[|1=[]|1=[,|1=[[|2=[ |2=[a|2=[a]|2=[a[|3=[a b|3=[a,]|3=[a,,|\
         11=[a \t\r\n,\n b ]|22=[a,a,a,a,a,a,a,a,a,a,a]|24=[a,a,a,a,a,a,a,a,a,a,a,a,a]|24=[a,a,a,a,a,a,a,a,a,a,a,a|\
         24=[a,a,a,a,a,a,a,a,a,a,a,a,|25=[a,a,a,a,a,a,a,a,a,a,a,a]]|25=[a,a,a,a,a,a,a,a,a,a,a,a] ";
    let mut spans = [Span { from: 0, to: 0 }; 12];
    for case in cases.split('|') {
        let (answer, cell) = case.split_once('=').expect(&rt, "an answer and a cell");
        let place = split_list(cell.as_bytes(), &mut spans)
            .err()
            .map(|fault| fault.place);
        assert_eq!(rt; place, place_of(answer), "at {case}");
    }
    let list = b"[ 0.1 ,\n\"Jan\",x,-,a:b,{},(c),\xc3\xa9,9,10,eleven,12\t]";
    assert!(rt; split_list(list, &mut spans).is_ok());
    assert_eq!(rt; (spans[0].from, spans[0].to), (2, 5));
    assert_eq!(rt; (spans[1].from, spans[1].to), (8, 13));
    assert_eq!(rt; (spans[7].from, spans[7].to), (29, 31));
    assert_eq!(rt; (spans[11].from, spans[11].to), (44, 46));
}
