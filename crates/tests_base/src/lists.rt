//! The list type, at one type of elements.

use flr_base::{Listed, NoMemory};
use std::alloc::Global;
use std::hash::{DefaultHasher, Hash, Hasher};
use std::test::Fail;

fn numbers(alloc: Global, items: &[u32]) -> Result<Listed<u32>, NoMemory> {
    let mut list = Listed::new(alloc);
    list.extend_from_slice(items)?;
    Ok(list)
}

fn same<T: Eq>(ours: &T, theirs: &T) -> bool {
    ours == theirs
}

fn hash_of<T: Hash>(value: &T) -> u64 {
    let mut state = DefaultHasher::new();
    value.hash(&mut state);
    state.finish()
}

#[test]
fn lists(rt: HostRuntime) -> Result<(), Fail> {
    let mut list = numbers(rt.alloc(), &[])?;
    let was_empty = list.is_empty() && list.len() == 0;
    list.push(3)?;
    list.extend_from_slice(&[5, 7])?;
    let copy = list.copy()?;
    let list = Listed::from_vec(list.into_vec());
    assert!(rt;
        was_empty && !copy.is_empty() && list.len() == 3 && copy.as_slice() == [3, 5, 7].as_slice()
    );
    Ok(())
}

/// Equal lists are those of equal elements, and have one hash.
#[test]
fn equal_lists(rt: HostRuntime) -> Result<(), Fail> {
    let rows: [(&[u32], &[u32], bool); 4] = [
        (&[], &[], true),
        (&[3, 5], &[3, 5], true),
        (&[3, 5], &[5, 3], false),
        (&[3], &[3, 3], false),
    ];
    for (ours, theirs, wanted) in rows {
        let ours = numbers(rt.alloc(), ours)?;
        let theirs = numbers(rt.alloc(), theirs)?;
        let hashes = hash_of(&ours) == hash_of(&theirs);
        assert!(rt; same(&ours, &theirs) == wanted && hashes == wanted);
    }
    Ok(())
}
