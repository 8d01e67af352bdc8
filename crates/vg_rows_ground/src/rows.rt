// Things that go into a row and come out.
use vg_base::Row;

#[test]
fn bytes_go_behind_a_row(rt: HostRuntime) {
    let held = Row::from_slice(rt.alloc(), b"ab").and_then(|mut row| {
        row.push(b'c')?;
        row.append(b"de")?;
        Ok(row)
    });
    match held {
        Ok(row) => {
            assert!(rt; row.as_slice() == b"abcde".as_slice());
            assert!(rt; row.len() == 5 && !row.is_empty());
        }
        Err(_) => assert!(rt; false),
    }
    assert!(rt; Row::<u8>::new(rt.alloc()).is_empty());
}

#[test]
fn things_go_in_and_come_out(rt: HostRuntime) {
    match Row::from_slice(rt.alloc(), b"ac") {
        Ok(mut row) => {
            assert!(rt; row.insert(1, b'b').is_ok());
            assert!(rt; row.pop() == Some(b'c'));
            assert!(rt; row.into_vec().as_slice() == b"ab".as_slice());
        }
        Err(_) => assert!(rt; false),
    }
    assert!(rt; Row::from_vec(Vec::<u8>::new(rt.alloc())).pop().is_none());
}
