// The block file: every refusal with its offset, and the numbers of a file that is granted.
use base::Refusal;
use block::{CheckCode, PlanNumbers, SearchNumbers, StoreCode, examine};
use std::test::Fail;

// n 5, A 4, E 32, t 0, p 0, no check; S 8, table, C 1, T 4,096, two words; 32 values of 10.
pub const WORKED: [u8; 91] = [
    1, 0, 9, 5, 0, 4, 0, 32, 0, 0, 0, 0, 2, 0, 9, 8, 0, 0, 1, 0, 0, 16, 0, 2, 3, 0, 64, 0, 10, 0,
    10, 0, 10, 0, 10, 0, 10, 0, 10, 0, 10, 0, 10, 0, 10, 0, 10, 0, 10, 0, 10, 0, 10, 0, 10, 0, 10,
    0, 10, 0, 10, 0, 10, 0, 10, 0, 10, 0, 10, 0, 10, 0, 10, 0, 10, 0, 10, 0, 10, 0, 10, 0, 10, 0,
    10, 0, 10, 0, 10, 0, 10,
];

fn fault(input: &[u8]) -> Option<Refusal> {
    examine(input).err()
}

// The worked file with another byte at k.
fn altered(k: usize, byte: u8) -> Option<Refusal> {
    let mut file = WORKED;
    if let Some(old) = file.get_mut(k) {
        *old = byte;
    }
    fault(&file)
}

#[test]
fn a_file_is_read_whole(rt: HostRuntime) -> Result<(), Fail> {
    let block = examine(&WORKED)?;
    let plan = PlanNumbers {
        n: 5,
        payload: 4,
        sent: 32,
        low: 0,
        parity: 0,
        check: CheckCode::None,
    };
    let search = SearchNumbers {
        capacity: 8,
        store: StoreCode::Table,
        failures: 1,
        steps: 4096,
        words: 2,
    };
    assert_eq!(rt; block.plan, plan);
    assert_eq!(rt; block.search, search);
    assert_eq!(rt; block.fields.plan.at, 0);
    assert_eq!(rt; block.fields.search.at, 12);
    assert_eq!(rt; block.fields.values.at, 24);
    assert_eq!(rt; block.fields.values.body.len(), 64);
    Ok(())
}

#[test]
fn a_cut_file_names_the_field_that_is_cut_or_missing(rt: HostRuntime) {
    for k in 0..91 {
        let expected = match k {
            0 => Refusal::Tag { at: 0 },
            1..=11 => Refusal::Cut { at: 0 },
            12 => Refusal::Tag { at: 12 },
            13..=23 => Refusal::Cut { at: 12 },
            24 => Refusal::Tag { at: 24 },
            _ => Refusal::Cut { at: 24 },
        };
        assert_eq!(rt; fault(&WORKED[0..k]), Some(expected));
    }
}

#[test]
fn a_wrong_tag_length_or_code_names_its_field(rt: HostRuntime) {
    assert_eq!(rt; altered(0, 0), Some(Refusal::Tag { at: 0 }));
    assert_eq!(rt; altered(0, 2), Some(Refusal::Tag { at: 0 }));
    assert_eq!(rt; altered(12, 1), Some(Refusal::Tag { at: 12 }));
    assert_eq!(rt; altered(12, 3), Some(Refusal::Tag { at: 12 }));
    assert_eq!(rt; altered(24, 2), Some(Refusal::Tag { at: 24 }));
    assert_eq!(rt; altered(24, 4), Some(Refusal::Tag { at: 24 }));
    assert_eq!(rt; altered(2, 8), Some(Refusal::Form { at: 0 }));
    assert_eq!(rt; altered(1, 1), Some(Refusal::Form { at: 0 }));
    assert_eq!(rt; altered(14, 10), Some(Refusal::Form { at: 12 }));
    assert_eq!(rt; altered(26, 63), Some(Refusal::Form { at: 24 }));
    assert_eq!(rt; altered(7, 31), Some(Refusal::Form { at: 24 }));
    assert_eq!(rt; altered(11, 5), Some(Refusal::Form { at: 0 }));
    assert_eq!(rt; altered(16, 2), Some(Refusal::Form { at: 12 }));
    assert_eq!(rt; altered(23, 0), Some(Refusal::Form { at: 12 }));
}

#[test]
fn every_listed_code_is_granted(rt: HostRuntime) {
    assert_eq!(rt; altered(11, 6), None);
    assert_eq!(rt; altered(11, 11), None);
    assert_eq!(rt; altered(11, 4), None);
    assert_eq!(rt; altered(11, 24), None);
    assert_eq!(rt; altered(16, 1), None);
    assert_eq!(rt; altered(23, 255), None);
}

#[test]
fn the_order_of_examination_decides(rt: HostRuntime) {
    // a wrong tag comes before a wrong length, a wrong length before a body that is cut
    assert_eq!(rt; fault(&[2, 0, 8]), Some(Refusal::Tag { at: 0 }));
    assert_eq!(rt; fault(&[1, 0, 8]), Some(Refusal::Form { at: 0 }));
    assert_eq!(rt; fault(&[1, 0, 9, 5]), Some(Refusal::Cut { at: 0 }));
    // a header that is cut comes before its tag
    assert_eq!(rt; fault(&[7, 0]), Some(Refusal::Cut { at: 0 }));
}

#[test]
fn bytes_after_the_last_field_are_refused_where_they_begin(rt: HostRuntime) {
    let mut longer = [0u8; 92];
    longer[..91].copy_from_slice(&WORKED);
    assert_eq!(rt; fault(&longer), Some(Refusal::Tag { at: 91 }));
}

#[test]
fn more_sent_bits_than_a_length_can_hold_are_refused(rt: HostRuntime) {
    // E = 32,800: no field is 65,600 bytes long
    let mut file = WORKED;
    file[6] = 128;
    file[25] = 0;
    file[26] = 64;
    assert_eq!(rt; fault(&file), Some(Refusal::Form { at: 24 }));
}
