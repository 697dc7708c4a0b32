use model_core::{Change, Effect, Name, Note, Part, Sequence};
use std::test::Fail;

fn part(word: u32) -> Part {
    Part {
        word,
        a: u64::from(word),
        b: 0,
    }
}

#[test]
fn a_note_tells_its_parts_in_order(rt: HostRuntime) {
    let mut note = Note::none();
    assert!(rt; note.len() == 0);
    note.add(part(1));
    assert!(rt; note == Note::of(part(1)));
    note.add(part(2));
    note.add(part(3));
    note.add(part(4));
    assert!(rt; note.len() == 4);
    assert!(rt; note.at(0) == part(1));
    assert!(rt; note.at(1) == part(2));
    assert!(rt; note.at(2) == part(3));
    assert!(rt; note.at(3) == part(4));
}

#[test]
fn a_name_is_its_bytes(rt: HostRuntime) -> Result<(), Fail> {
    let name = Name::of(rt.alloc(), b"desk")?;
    assert!(rt; name.bytes() == b"desk".as_slice());
    Ok(())
}

#[test]
fn a_sequence_is_its_values(rt: HostRuntime) -> Result<(), Fail> {
    let sends = Sequence::new(vec![in rt.alloc(); 3, 1, 2]?);
    assert!(rt; sends.as_slice() == [3, 1, 2].as_slice());
    Ok(())
}

#[test]
fn a_sheet_is_written_again(rt: HostRuntime) -> Result<(), Fail> {
    let mut sheet = Effect::new(rt.alloc())?;
    sheet.changes.push(Change::Set { word: 1, value: 9 });
    sheet.changes.push(Change::Pop { line: 0 });
    sheet.note = Note::of(part(1));
    sheet.clear();
    assert!(rt; sheet.sends.as_slice().is_empty());
    assert!(rt; sheet.note == Note::none());
    sheet.changes.push(Change::Pop { line: 2 });
    assert!(rt; sheet.changes.as_slice() == [Change::Pop { line: 2 }].as_slice());
    Ok(())
}
