//! The printers of words, and the lists that are one word.

use flr_base::{FailedCall, Left, NoMemory, ObjectId};
use std::alloc::Global;
use std::test::Fail;
use text_words::{
    Item, call_list, id_list, left_list, list, number_list, object_list, put_decimal, put_end,
    put_end_value, put_hex, put_list, put_number, put_word,
};

#[test]
fn printed(rt: HostRuntime) -> Result<(), Fail> {
    let mut out = Vec::new(rt.alloc());
    put_decimal(&mut out, 18446744073709551615)?;
    put_hex(&mut out, 0xa7)?;
    put_word(&mut out, b"-E")?;
    put_number(&mut out, 10)?;
    put_end(&mut out, u64::MAX)?;
    put_end_value(&mut out, u64::MAX)?;
    put_end(&mut out, 65536)?;
    assert!(rt; out.as_slice() == b"18446744073709551615a7 -E 10EOF-165536".as_slice());
    Ok(())
}

/// The list that the word spells, printed again.
fn again<T: Item + Drop>(alloc: Global, word: &[u8]) -> Result<Option<Vec<u8>>, NoMemory> {
    let Some(items) = list::<T>(alloc, word)? else {
        return Ok(None);
    };
    let mut out = Vec::new(alloc);
    put_list(&mut out, &items)?;
    Ok(Some(out))
}

/// Each kind of item is read, and printed as it was.
#[test]
fn lists_again(rt: HostRuntime) -> Result<(), Fail> {
    let alloc = rt.alloc();
    let rows: [(Option<Vec<u8>>, &[u8]); 6] = [
        (again::<u64>(alloc, b"-")?, b"-"),
        (
            again::<u64>(alloc, b"1,18446744073709551615")?,
            b"1,18446744073709551615",
        ),
        (again::<u32>(alloc, b"65537")?, b"65537"),
        (
            again::<ObjectId>(alloc, b"0.1,63.4294967295")?,
            b"0.1,63.4294967295",
        ),
        (again::<FailedCall>(alloc, b"1.2,3.4")?, b"1.2,3.4"),
        (again::<Left>(alloc, b"65537@2.9")?, b"65537@2.9"),
    ];
    for (found, wanted) in rows {
        assert!(rt; found.is_some_and(|text| text.as_slice() == wanted));
    }
    Ok(())
}

/// Each reader of a list, at a word of one item.
#[test]
fn lists(rt: HostRuntime) -> Result<(), Fail> {
    let alloc = rt.alloc();
    let call = FailedCall { target: 2, call: 9 };
    let object = ObjectId {
        target: 2,
        number: 9,
    };
    let left = Left { component: 7, call };
    let plain = number_list(alloc, b"9")?.is_some_and(|items| items.as_slice() == [9].as_slice())
        && id_list(alloc, b"9")?.is_some_and(|items| items.as_slice() == [9].as_slice());
    assert!(rt;
        plain
            && object_list(alloc, b"2.9")?.is_some_and(|items| items.as_slice()
                == [object].as_slice())
            && call_list(alloc, b"2.9")?.is_some_and(|items| items.as_slice() == [call].as_slice())
            && left_list(alloc, b"7@2.9")?.is_some_and(|items| items.as_slice()
                == [left].as_slice())
    );
    Ok(())
}
