//! Heads and their lines: each refusal at each place.
use design::fault::{Fault, Refusal};
use design::head::{FILE_LIMIT, Head};
use design::lines::{LINE_ROOM, LineShort, no_line, stages_line, stop_line};
use design::report::report;
use model::orders::Order;
use model::pools::Pool;
use std::process::Abort;
use std::test::Fail;

/// The file is refused so, and its report is this line.
fn refused(
    rt: &(impl Abort + AllocGlobal),
    file: &[u8],
    line: &[u8],
    fault: Fault,
    place: usize,
) -> Result<(), Fail> {
    assert_eq!(rt; Head::read(file).err(), Some(Refusal { fault, place }));
    let out = report(rt.alloc(), file)?;
    assert!(rt; out.as_slice() == line);
    Ok(())
}

#[test]
fn good_heads(rt: HostRuntime) -> Result<(), Fail> {
    let full = [1, 0, 2, 3, 2, 2, 0, 3, 2, 1, 15, 3, 0, 3, 0, 6, 15, 4];
    let head = Head::read(&full).map_err(|_| Fail::new("a whole head"))?;
    assert_eq!(rt; head.order.size(), 12);
    assert!(rt; head.pool.holds(&[1, 15]));
    assert!(rt; head.pool.holds(&[2, 2, 15]));
    assert!(rt; !head.pool.holds(&[3, 15]));
    let bare = [1, 0, 2, 65, 0];
    let head = Head::read(&bare).map_err(|_| Fail::new("stages alone"))?;
    assert_eq!(rt; head.order.size(), 0);
    assert!(rt; !head.pool.holds(&[]));
    let out = report(rt.alloc(), &full)?;
    assert!(rt; out.as_slice() == b"stages 12\n".as_slice());
    let late = [1, 0, 2, 5, 0, 3, 0, 3, 0, 2, 15, 2, 0, 9];
    let out = report(rt.alloc(), &late)?;
    assert!(rt;
        out.as_slice() == b"stages 5\n".as_slice(),
        "a book after the keys is not the head's"
    );
    Ok(())
}

#[test]
fn first_records(rt: HostRuntime) -> Result<(), Fail> {
    refused(&rt, &[], b"stop 1 at 0\n", Fault::Cut, 0)?;
    refused(&rt, &[1, 0], b"stop 1 at 0\n", Fault::Cut, 0)?;
    refused(&rt, &[9, 0, 2, 1], b"stop 1 at 0\n", Fault::Cut, 0)?;
    refused(&rt, &[0, 0, 0], b"stop 2 at 0\n", Fault::UnknownTag, 0)?;
    refused(&rt, &[8, 0, 0], b"stop 2 at 0\n", Fault::UnknownTag, 0)?;
    refused(&rt, &[2, 0, 0], b"stop 4 at 0\n", Fault::Misplaced, 0)?;
    refused(&rt, &[7, 0, 1, 1], b"stop 4 at 0\n", Fault::Misplaced, 0)?;
    refused(&rt, &[1, 0, 1, 3], b"stop 3 at 0\n", Fault::WrongLength, 0)?;
    refused(
        &rt,
        &[1, 0, 3, 3, 0, 0],
        b"stop 3 at 0\n",
        Fault::WrongLength,
        0,
    )
}

#[test]
fn later_head_records(rt: HostRuntime) -> Result<(), Fail> {
    let book = [1, 0, 2, 3, 0, 2, 0, 2, 0];
    refused(&rt, &book, b"stop 1 at 5\n", Fault::Cut, 5)?;
    let long = [1, 0, 2, 3, 0, 2, 255, 255, 0];
    refused(&rt, &long, b"stop 1 at 5\n", Fault::Cut, 5)?;
    let keys = [1, 0, 2, 3, 0, 3, 0];
    refused(&rt, &keys, b"stop 1 at 5\n", Fault::Cut, 5)?;
    let keys = [1, 0, 2, 3, 0, 3, 0, 2, 0, 2];
    refused(&rt, &keys, b"stop 3 at 5\n", Fault::WrongLength, 5)?;
    let keys = [1, 0, 2, 3, 0, 2, 0, 1, 0, 3, 0, 4, 0, 2, 15, 0];
    refused(&rt, &keys, b"stop 3 at 9\n", Fault::WrongLength, 9)
}

#[test]
fn longest_file(rt: HostRuntime) -> Result<(), Fail> {
    let mut file = [0; FILE_LIMIT + 1];
    file[0] = 1;
    file[2] = 2;
    file[3] = 3;
    let out = report(rt.alloc(), &file[0..FILE_LIMIT])?;
    assert!(rt; out.as_slice() == b"stages 3\n".as_slice());
    refused(&rt, &file, b"stop 7 at 0\n", Fault::FileTooLong, 0)
}

#[test]
fn lines(rt: HostRuntime) {
    let mut buffer = [7; LINE_ROOM + 1];
    assert_eq!(rt; stages_line(64, &mut buffer), Ok(10));
    assert!(rt; &buffer[0..11] == b"stages 64\n\x07".as_slice());
    assert_eq!(rt; stop_line(17, 16_384, &mut buffer), Ok(17));
    assert!(rt; &buffer[0..17] == b"stop 17 at 16384\n".as_slice());
    assert_eq!(rt; no_line(13, 40, &mut buffer), Ok(12));
    assert!(rt; &buffer[0..17] == b"no 13 at 40\n6384\n".as_slice());
    let mut short = [7; LINE_ROOM - 1];
    assert_eq!(rt; stages_line(1, &mut short), Err(LineShort));
    assert_eq!(rt; stop_line(1, 0, &mut short), Err(LineShort));
    assert_eq!(rt; no_line(5, 0, &mut short), Err(LineShort));
    assert!(rt; short == [7; LINE_ROOM - 1]);
    assert_eq!(rt; u8::from(LineShort), 9);
}
