//! The desks in memory: files that are loaded and saved, printed text, openings, and calls that fail where they are told to.

use d_desk::{
    Desk, DeskCall, DeskFault, Direction, LoadFault, MemoryDesk, SureDesk, load_file, print_all,
    save_all,
};
use std::alloc::Global;
use std::test::Fail;

// Writes one file of two parts, and prints a line.
fn write_and_print<D: Desk>(desk: &mut D) -> Result<(), DeskFault> {
    desk.open_out("plan.txt")?;
    save_all(desk, b"first ")?;
    save_all(desk, b"second")?;
    desk.close_out()?;
    print_all(desk, b"written")
}

// Reads one file, and then writes another and prints.
fn copy_and_print<D: Desk>(alloc: Global, desk: &mut D) -> Result<(), DeskFault> {
    match load_file(alloc, desk, "meter", 9) {
        Ok(_) => write_and_print(desk),
        Err(LoadFault::Memory) => Err(DeskFault::Memory),
        Err(_) => Err(DeskFault::Failed),
    }
}

#[test]
fn loads_a_file_up_to_its_limit(rt: HostRuntime) -> Result<(), Fail> {
    let mut desk = MemoryDesk::new(rt.alloc(), 4);
    desk.put_file("meter", b"a reading")?;
    let bytes = load_file(rt.alloc(), &mut desk, "meter", 9)?;
    assert_eq!(rt; bytes.as_slice(), b"a reading".as_slice());
    let long = load_file(rt.alloc(), &mut desk, "meter", 8);
    assert!(rt; matches!(long, Err(LoadFault::TooLong)));
    assert_eq!(rt; desk.fault_count(), 0);
    Ok(())
}

#[test]
fn each_kind_of_call_fails_where_it_is_told_to(rt: HostRuntime) -> Result<(), Fail> {
    // A kind and a number, and then what was opened, saved and printed when that call failed.
    let cases = [
        (DeskCall::OpenIn, 1, 1, 0, 0),
        (DeskCall::Read, 4, 1, 0, 0),
        (DeskCall::OpenOut, 1, 2, 0, 0),
        (DeskCall::Save, 3, 2, 6, 0),
        (DeskCall::CloseOut, 1, 2, 12, 0),
        (DeskCall::Print, 2, 2, 12, 4),
    ];
    for (kind, number, opened, saved, printed) in cases {
        let mut desk = MemoryDesk::new(rt.alloc(), 4);
        desk.put_file("meter", b"a reading")?;
        desk.fail_at(kind, number)?;
        assert_eq!(rt;
            copy_and_print(rt.alloc(), &mut desk),
            Err(DeskFault::Failed)
        );
        assert_eq!(rt; desk.openings().len(), opened);
        assert_eq!(rt; desk.saved_bytes().len(), saved);
        assert_eq!(rt; desk.printed_bytes().len(), printed);
        assert_eq!(rt;
            desk.file_bytes("plan.txt").is_some(),
            kind == DeskCall::Print
        );
        // The same calls again have other numbers.
        assert_eq!(rt; copy_and_print(rt.alloc(), &mut desk), Ok(()));
        assert_eq!(rt; desk.fault_count(), 1);
    }
    Ok(())
}

#[test]
fn tells_what_was_written_and_opened(rt: HostRuntime) -> Result<(), Fail> {
    let mut desk = MemoryDesk::new(rt.alloc(), 4);
    write_and_print(&mut desk)?;
    assert_eq!(rt;
        desk.file_bytes("plan.txt"),
        Some(b"first second".as_slice())
    );
    assert_eq!(rt; desk.saved_bytes(), b"first second".as_slice());
    assert_eq!(rt; desk.printed_bytes(), b"written".as_slice());
    assert!(rt; desk.open_in("other").is_err());
    let opened = desk.openings();
    assert_eq!(rt; opened.len(), 2);
    assert!(rt; opened[0].way == Direction::Out);
    assert_eq!(rt; opened[1].name.as_str(), "other");
    Ok(())
}

#[test]
fn a_sure_desk_has_every_file(rt: HostRuntime) -> Result<(), Fail> {
    let mut desk = SureDesk::new(rt.alloc(), 4);
    desk.put_file("meter", b"a reading")?;
    assert_eq!(rt; load_file(rt.alloc(), &mut desk, "meter", 9)?.len(), 9);
    assert_eq!(rt; load_file(rt.alloc(), &mut desk, "nothing", 9)?.len(), 0);
    write_and_print(&mut desk)?;
    assert_eq!(rt; desk.saved_bytes().len() + desk.printed_bytes().len(), 19);
    Ok(())
}
