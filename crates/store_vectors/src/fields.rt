//! Fields of records: their bytes, and where damage is told, both worked out by hand.

use fsrm_base::{List, NoMemory, Text};
use record_fields::laws::numbers;
use record_fields::{
    FieldFault, Flaw, Reader, TextField, TruthField, U8Field, U16Field, U32Field, U64Field, feed,
    put, put_items, put_long_list, put_optional, put_short_list, put_text, put_truth, put_u8,
    put_u16, put_u32, put_u64, read_items, read_long_list, read_optional, read_short_list,
};
use std::alloc::Global;
use std::test::Fail;

// 7 in one byte, 513 in two, 100,992,003 in four, 2^56 in eight, true, the text `hé`, and two bytes.
const SINGLE: [u8; 23] = [
    7, 1, 2, 3, 4, 5, 6, 0, 0, 0, 0, 0, 0, 0, 1, 1, 3, 0, b'h', 0xc3, 0xa9, 8, 9,
];

fn write_single(into: &mut [u8]) -> usize {
    let end = put_u8(into, 0, 7);
    let end = put_u16(into, end, 513);
    let end = put_u32(into, end, 100_992_003);
    let end = put_u64(into, end, 72_057_594_037_927_936);
    let end = put_truth(into, end, true);
    let end = put_text(into, end, "h\u{e9}");
    put(into, end, &[8, 9])
}

fn single_are_read() -> Result<bool, Flaw> {
    let mut reader = Reader::new(&SINGLE);
    let byte = reader.read_u8()?;
    let short = reader.read_u16_within(513, 513)?;
    let number = reader.read_u32()?;
    let long = reader.read_u64_within(1, u64::MAX)?;
    let truth = reader.read_truth()?;
    let text = reader.read_text()?;
    let sound = byte == 7 && short == 513 && number == 100_992_003;
    Ok(sound && long == 72_057_594_037_927_936 && truth && text == "h\u{e9}" && reader.left() == 2)
}

#[test]
fn single_fields(rt: HostRuntime) -> Result<(), Fail> {
    let mut bytes = [0xff; 30];
    assert!(rt; write_single(&mut bytes) == 23);
    assert!(rt; &bytes[..23] == SINGLE.as_slice());
    assert!(rt; &bytes[23..] == [0xff; 7].as_slice());
    let mut few = [0; 3];
    assert!(rt; write_single(&mut few) == 3);
    assert!(rt; few == [7, 1, 2]);
    assert!(rt; single_are_read() == Ok(true));
    Ok(())
}

// 9 and true, which may be left out, and between them nothing; the list of 1 and 2, the list of `a`, and 5.
const LISTED: [u8; 26] = [
    1, 9, 0, 0, 0, 0, 0, 0, 0, 0, 1, 1, 2, 0, 1, 0, 2, 0, 1, 0, 0, 0, 1, 0, b'a', 5,
];

fn write_lists(alloc: Global, into: &mut [u8]) -> Result<usize, NoMemory> {
    let mut values = List::new(alloc);
    values.push(1)?;
    values.push(2)?;
    let mut texts = List::new(alloc);
    texts.push(Text::from_str(alloc, "a")?)?;
    let end = put_optional::<U64Field>(&Some(9), into, 0);
    let end = put_optional::<U32Field>(&None, into, end);
    let end = put_optional::<TruthField>(&Some(true), into, end);
    let end = put_short_list::<U16Field>(&values, into, end);
    let end = put_long_list::<TextField>(&texts, into, end);
    Ok(put_items::<U8Field>(&[5], into, end))
}

fn lists_are_read(alloc: Global) -> Result<bool, FieldFault> {
    let mut reader = Reader::new(&LISTED);
    let nine = read_optional::<U64Field>(alloc, &mut reader, true)?;
    let none = read_optional::<U32Field>(alloc, &mut reader, false)?;
    let truth = read_optional::<TruthField>(alloc, &mut reader, false)?;
    let values = read_short_list::<U16Field>(alloc, &mut reader, 1, 2)?;
    let texts = read_long_list::<TextField>(alloc, &mut reader)?;
    let bytes = read_items::<U8Field>(alloc, &mut reader, 1)?;
    let sound = nine == Some(9) && none.is_none() && truth == Some(true);
    let lists = values.as_slice() == [1, 2].as_slice() && bytes.as_slice() == [5].as_slice();
    Ok(sound && lists && texts.len() == 1 && reader.left() == 0)
}

#[test]
fn lists(rt: HostRuntime) -> Result<(), Fail> {
    let mut bytes = [0xff; 26];
    assert!(rt; write_lists(rt.alloc(), &mut bytes) == Ok(26));
    assert!(rt; bytes == LISTED);
    assert!(rt; lists_are_read(rt.alloc()) == Ok(true));
    Ok(())
}

fn optional_fault(alloc: Global, bytes: &[u8], required: bool) -> Option<FieldFault> {
    read_optional::<U8Field>(alloc, &mut Reader::new(bytes), required).err()
}

fn list_fault(alloc: Global, bytes: &[u8]) -> Option<FieldFault> {
    read_short_list::<U16Field>(alloc, &mut Reader::new(bytes), 1, 2).err()
}

#[test]
fn damage(rt: HostRuntime) {
    let whole = Some(FieldFault::Flawed(Flaw::Illegal { left: 4 }));
    let cut = Some(FieldFault::Flawed(Flaw::Truncated { left: 1 }));
    assert!(rt; optional_fault(rt.alloc(), &[2, 0, 0, 0], false) == whole);
    assert!(rt; optional_fault(rt.alloc(), &[0, 0, 0, 0], true) == whole);
    assert!(rt; list_fault(rt.alloc(), &[3, 0, 1, 0]) == whole);
    assert!(rt; list_fault(rt.alloc(), &[2, 0, 1, 0, 2]) == cut);
    assert!(rt;
        Reader::new(&[2, 0, 0xff, b'a']).read_text().err() == Some(Flaw::Illegal { left: 4 })
    );
    assert!(rt; Reader::new(&[3, 0, b'a']).read_text().err() == Some(Flaw::Truncated { left: 3 }));
    assert!(rt; Reader::new(&[2]).read_truth().err() == Some(Flaw::Illegal { left: 1 }));
}

// Reads three numbers from two pieces, and answers how many bytes of the second number the first piece has. None if
// other numbers are read.
fn fed(alloc: Global, first: &[u8], second: &[u8]) -> Result<Option<usize>, FieldFault> {
    numbers();
    let mut values = List::new(alloc);
    let (still, rest) = feed::<U16Field>(alloc, &mut values, 3, first)?;
    let held = rest.len();
    let (none, _rest) = feed::<U16Field>(alloc, &mut values, still, second)?;
    let sound = still == 2 && none == 0 && values.as_slice() == [1, 2, 3].as_slice();
    Ok(if sound { Some(held) } else { None })
}

#[test]
fn pieces(rt: HostRuntime) {
    assert!(rt; fed(rt.alloc(), &[1, 0, 2], &[2, 0, 3, 0]) == Ok(Some(1)));
}
