use super::*;
use std::test::Fail;

// A key of class 1 and its trailer.
const KEY: [u8; 24] = [
    1, 2, 3, 4, 5, 6, 7, 8, 9, 10, 11, 12, 13, 14, 15, 16, 0x4B, 1, 0, 4, 0, 0, 0, 24,
];

#[test]
fn numbers_back(rt: HostRuntime) -> Result<(), Fail> {
    let mut area = [9u8; 12];
    write_numbers(&[1i8, -1, i8::MIN], &mut area, 1)?;
    write_numbers(&[-2i32, i32::MAX], &mut area, 4)?;
    assert!(rt; area == [9, 1, 255, 128, 255, 255, 255, 254, 127, 255, 255, 255]);
    let mut bytes = [0i8; 3];
    read_numbers(&area[1..4], &mut bytes)?;
    assert!(rt; bytes == [1, -1, i8::MIN]);
    let mut words = [0i32; 2];
    read_numbers(&area[4..], &mut words)?;
    assert!(rt; words == [-2, i32::MAX]);
    assert!(rt; write_numbers(&words, &mut area, 5) == Err(SlipFault::AreaLength));
    assert!(rt; read_numbers(&area[5..], &mut words) == Err(SlipFault::ListLength));
    Ok(())
}

fn refusal(file: &[u8], kind: Kind) -> Option<SlipFault> {
    Slip::read(file, kind).err()
}

#[test]
fn short_files(rt: HostRuntime) {
    let file = [0x4B; 9];
    for n in 0..8 {
        assert_eq!(rt;
            refusal(&file[0..n], Kind::Key),
            Some(SlipFault::FileLength(n))
        );
    }
    assert_eq!(rt;
        refusal(&file[0..8], Kind::Key),
        Some(SlipFault::ClassField(1))
    );
    assert_eq!(rt; refusal(&file, Kind::Key), Some(SlipFault::ClassField(2)));
}

#[test]
fn cut_files(rt: HostRuntime) {
    let file = [0x4B; 20];
    for n in 0..8 {
        assert_eq!(rt;
            refusal(&KEY[24 - n..], Kind::Key),
            Some(SlipFault::FileLength(n))
        );
    }
    for n in 8..21 {
        assert_eq!(rt;
            refusal(&file[0..n], Kind::Key),
            Some(SlipFault::ClassField(n - 7))
        );
        assert_eq!(rt;
            refusal(&KEY[24 - n..], Kind::Key),
            Some(SlipFault::FileLength(n))
        );
    }
}

// The back field is that of class 1, the class byte another.
#[test]
fn class_and_back(rt: HostRuntime) {
    for class in 2..5 {
        let mut file = KEY;
        file[17] = class;
        assert_eq!(rt; refusal(&file, Kind::Key), Some(SlipFault::BackField(20)));
    }
}

#[test]
fn fields(rt: HostRuntime) {
    assert_eq!(rt; refusal(&KEY, Kind::Key), None);
    assert_eq!(rt; refusal(&KEY, Kind::Form), Some(SlipFault::KindField(16)));
    let mut file = KEY;
    file[17] = 5;
    assert_eq!(rt; refusal(&file, Kind::Key), Some(SlipFault::ClassField(17)));
    let mut file = KEY;
    file[18] = 1;
    assert_eq!(rt;
        refusal(&file, Kind::Key),
        Some(SlipFault::SectionsField(18))
    );
    let mut file = KEY;
    file[20] = 1;
    assert_eq!(rt; refusal(&file, Kind::Key), Some(SlipFault::BackField(20)));
}

#[test]
fn lengths(rt: HostRuntime) {
    assert_eq!(rt;
        refusal(&KEY[1..24], Kind::Key),
        Some(SlipFault::FileLength(23))
    );
    let mut longer = [7u8; 25];
    longer[1..25].copy_from_slice(&KEY);
    assert_eq!(rt; refusal(&longer, Kind::Key), Some(SlipFault::BackField(21)));
}

#[test]
fn sections(rt: HostRuntime) -> Result<(), Fail> {
    let slip = Slip::read(&KEY, Kind::Key)?;
    let last = slip.section(3).ok_or("no section")?;
    assert_eq!(rt; last.place, 12);
    assert!(rt; last.bytes == &KEY[12..16]);
    assert!(rt; slip.section(4).is_none());
    Ok(())
}

// The report is itself a signature's slip.
#[test]
fn signature_behind_a_slip(rt: HostRuntime) -> Result<(), Fail> {
    let one = [1, -1, 0, 256, -256, i32::MAX, i32::MIN, 7];
    let two = [8, 9, 10, 11, 12, 13, 14, 15];
    let mut file = [0u8; 80];
    let (front, back) = file.split_at_mut(40);
    write_signature(&one, front)?;
    write_signature(&two, back)?;
    let mut out = [0i32; 8];
    let report = read_signature(&file, &mut out)?;
    assert!(rt; out == two);
    assert_eq!(rt; report.bytes.len(), 40);
    assert!(rt; read_signature(report.bytes, &mut out).is_ok());
    assert!(rt; out == one);
    Ok(())
}

#[test]
fn lent_lengths(rt: HostRuntime) {
    let numbers = [0i32; 9];
    let mut area = [3u8; 41];
    assert!(rt; write_signature(&numbers, &mut area) == Err(SlipFault::ListLength));
    assert!(rt; write_signature(&numbers[0..8], &mut area) == Err(SlipFault::AreaLength));
    assert!(rt; area == [3u8; 41]);
    assert!(rt; write_signature(&numbers[0..8], &mut area[1..41]).is_ok());
    let mut list = [5i32; 9];
    assert!(rt; read_signature(&area, &mut list).is_err());
    assert!(rt; list == [5i32; 9]);
}
