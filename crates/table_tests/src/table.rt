//! Files as tables: what no contract says, and each call once.

use d_table::{Table, TableFault, is_named, read_table, read_where};
use std::alloc::Global;
use std::test::Fail;

/// Files, and what is shown of each behind a `=`: a bar behind each cell, and a line end behind each row.
const FILES: &str = "a,b\n1,2\n3,4\n=a|b|\n1|2|\n3|4|\n;\
    a,b\n1,2\n3,4=a|b|\n1|2|\n3|4|\n;\
    a,b\r\n1,2\r\n3,4\r\n=a|b|\n1|2|\n3|4|\n;\
    a,b\r1,2\r=a|b|\n1|2|\n;\
    a,b\n\"x, y\",\"say \"\"so\"\"\"\n=a|b|\nx, y|say \"so\"|\n;\
    a\n\"two\nlines\"\n=a|\ntwo\nlines|\n;\
    a\n\"two\r\nlines\"\r\n=a|\ntwo\r\nlines|\n;\
    a\n1 \"2\" 3\n=a|\n1 \"2\" 3|\n;\
    \u{FEFF}a,b\n1,2\n=a|b|\n1|2|\n;\
    \u{FEFF}\u{FEFF}a,b\n1,2\n=a|b|\n1|2|\n;\
    \u{FEFF}\u{FEFF}\u{FEFF}a\n=\u{FEFF}a|\n;\
    \n\na\n\n\n1\n\n=a|\n1|\n;\
    =\n;\
    \r\n\n=\n;\
    \u{FEFF}=\n;\
    a,b=a|b|\n;\
    \x20a ,\tb\t\n \t1, 2 3\t \n=a|b|\n1|2 3|\n;\
    a\n\" 1 \"\n=a|\n1|\n;\
    a\n\x0B1\x0C\n=a|\n\x0B1\x0C|\n;\
    a\n \n1\n=a|\n|\n1|\n;\
    a,b\n,\n=a|b|\n||\n";

/// Files with a row of another length than the header, and the number of the first of them behind a `=`.
const ODD_FILES: &str =
    "a,b\n1\n=0;a\n1,2\n=0;a,b\n1,2\n3\n4,5,6\n=1;a,b\n1,2\n\n3,4\n5,6,\n=2;a,b\n1,2\n \n=1;a,b\n\"1,2\"\n=0;a,b\n1,2\n\"3,4=1";

/// A file, and columns with a value and the rows that are kept of it.
const LABELS: &str = "Label , price,label\n one,1,x\ntwo,2,y\n\"one\",3,\n ,4,x\none,5,z\n";

const KEPT: &str =
    "label:one=one|1|x|\none|3||\n;label:two=two|2|y|\n;label:=|4|x|\n;label:x=;label:One=;price:3=one|3||\n;Label:one=;:=";

/// What stands before the first `=`, and what stands behind it.
fn cut(case: &str) -> (&str, &str) {
    match case.split_once('=') {
        Some(parts) => parts,
        None => (case, ""),
    }
}

/// A table's rows, the header first: a bar behind each cell, and a line end behind each row.
fn shown(alloc: Global, table: &Table) -> Result<Vec<u8>, Fail> {
    let mut text = Vec::new(alloc);
    for column in 0..table.columns() {
        text.extend_from_slice(table.name(column))?;
        text.push(b'|')?;
    }
    text.push(b'\n')?;
    for row in 0..table.rows() {
        for column in 0..table.columns() {
            text.extend_from_slice(table.cell(row, column))?;
            text.push(b'|')?;
        }
        text.push(b'\n')?;
    }
    Ok(text)
}

/// The number of the row that a file is refused by; `none` where it is read, or memory was wanted.
fn odd_row(alloc: Global, outcome: Result<Table, TableFault>) -> Result<String, Fail> {
    match outcome {
        Err(TableFault::Shape(row)) => Ok(format!(in alloc; "{row}")?),
        _ => Ok(format!(in alloc; "none")?),
    }
}

#[test]
fn reads_each_file(rt: HostRuntime) -> Result<(), Fail> {
    let alloc = rt.alloc();
    for case in FILES.split(';') {
        let (file, rows) = cut(case);
        let table = read_table(alloc, file.as_bytes())?;
        assert!(rt;
            shown(alloc, &table)?.as_slice() == rows.as_bytes(),
            "{case:?}"
        );
    }
    Ok(())
}

/// Bytes that are no text.
#[test]
fn keeps_all_bytes(rt: HostRuntime) -> Result<(), Fail> {
    let table = read_table(rt.alloc(), b"a\n\xFF\xC3\n")?;
    assert_eq!(rt; (table.rows(), table.columns()), (1, 1));
    if table.rows() == 1 && table.columns() == 1 {
        assert!(rt; table.cell(0, 0) == b"\xFF\xC3".as_slice());
    }
    Ok(())
}

#[test]
fn names_the_first_odd_row(rt: HostRuntime) -> Result<(), Fail> {
    let alloc = rt.alloc();
    for case in ODD_FILES.split(';') {
        let (file, row) = cut(case);
        let bytes = file.as_bytes();
        assert!(rt;
            odd_row(alloc, read_table(alloc, bytes))?.as_str() == row,
            "{case:?}"
        );
        assert!(rt;
            odd_row(alloc, read_where(alloc, bytes, b"a", b"9"))?.as_str() == row,
            "{case:?}"
        );
    }
    Ok(())
}

/// The table of the labels' file for a column and a value with a `:` between them, as it is shown.
fn kept(alloc: Global, wanted: &str) -> Result<Vec<u8>, Fail> {
    let (column, value) = wanted.split_once(':').unwrap_or((wanted, ""));
    let table = read_where(
        alloc,
        LABELS.as_bytes(),
        column.as_bytes(),
        value.as_bytes(),
    )?;
    shown(alloc, &table)
}

/// Of the rows of a value the first two are kept.
#[test]
fn keeps_the_rows_of_a_value(rt: HostRuntime) -> Result<(), Fail> {
    for case in KEPT.split(';') {
        let (wanted, rows) = cut(case);
        let text = kept(rt.alloc(), wanted)?;
        assert!(rt;
            text.as_slice().strip_prefix(b"Label|price|label|\n") == Some(rows.as_bytes()),
            "{case:?}"
        );
    }
    Ok(())
}

/// A file with no bytes has no columns and no rows.
#[test]
fn keeps_nothing_of_an_empty_file(rt: HostRuntime) -> Result<(), Fail> {
    let empty = read_where(rt.alloc(), b"", b"label", b"one")?;
    assert!(rt; empty.columns() == 0 && empty.rows() == 0);
    Ok(())
}

/// Each call of a table.
#[test]
fn finds_columns_by_name(rt: HostRuntime) -> Result<(), Fail> {
    let table = read_table(rt.alloc(), b"Start,NET_wh, start ,\n2025,7,2026,\n")?;
    assert!(rt; table.columns() == 4 && table.rows() == 1);
    assert!(rt; table.name(1) == b"NET_wh".as_slice());
    assert!(rt; table.cell(0, 2) == b"2026".as_slice());
    assert_eq!(rt; table.position(b"start"), Some(0));
    assert_eq!(rt; table.position(b"net_wh"), Some(1));
    assert_eq!(rt; table.position(b""), Some(3));
    assert_eq!(rt; table.position(b"NET_wh"), None);
    assert_eq!(rt; table.position(b"end"), None);
    let names: [&[u8]; 4] = [b"start", b"net_wh", b"start", b""];
    assert!(rt; table.has_header(&names));
    assert!(rt; !table.has_header(&names[..3]));
    assert!(rt; is_named(b"NET_wh", b"net_wh") && !is_named(b"NET_wh", b"net"));
    Ok(())
}
