use object_pages::Content;
use std::test::Fail;

/// What is done to the bytes of an object.
#[derive(Clone, Copy)]
enum Edit {
    Write(u64, [u8; 2]),
    Cut(u64),
    Clear,
}

/// Edits one after another: how many bytes there are then, and the four from an offset on.
const ROWS: [(Edit, u64, u64, [u8; 4]); 7] = [
    (
        Edit::Write(268435454, [0, 7]),
        268435456,
        268435454,
        [0, 7, 0, 0],
    ),
    (Edit::Write(4095, [8, 9]), 268435456, 4094, [0, 8, 9, 0]),
    (Edit::Write(8191, [0, 0]), 268435456, 8190, [0, 0, 0, 0]),
    (Edit::Cut(4096), 4096, 4094, [0, 8, 0, 0]),
    (Edit::Cut(9000), 4096, 4094, [0, 8, 0, 0]),
    (Edit::Write(4097, [5, 6]), 4099, 4095, [8, 0, 5, 6]),
    (Edit::Clear, 0, 4095, [0, 0, 0, 0]),
];

fn make(content: &mut Content, edit: Edit) -> bool {
    match edit {
        Edit::Write(offset, bytes) => offset < 1 << 32 && content.write(offset, &bytes).is_ok(),
        Edit::Cut(len) => {
            content.cut(len);
            true
        }
        Edit::Clear => {
            content.clear();
            true
        }
    }
}

#[test]
fn bytes_are_a_list(rt: HostRuntime) -> Result<(), Fail> {
    let mut content = Content::new(rt.alloc());
    for (row, len, offset, bytes) in ROWS {
        let made = make(&mut content, row);
        let mut found = [255u8; 4];
        content.read(offset, &mut found);
        assert!(rt; made && content.len() == len && found == bytes);
    }
    Ok(())
}
