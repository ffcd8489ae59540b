//! Numbers: texts of integers, and why others are none (`syn_base`).
use syn_base::{NumFault, read_int};

#[test]
fn integers_are_read(rt: HostRuntime) {
    let rows: [(&[u8], Result<i64, NumFault>); 9] = [
        (b"-007", Ok(-7)),
        (b"-0", Ok(0)),
        (b"-9223372036854775808", Ok(i64::MIN)),
        (b"9223372036854775808", Err(NumFault::TooLarge)),
        (b"99999999999999999999x", Err(NumFault::NotDigit(20))),
        (b"+1", Err(NumFault::NotDigit(0))),
        (b"--1", Err(NumFault::NotDigit(1))),
        (b"-", Err(NumFault::Empty)),
        (b"", Err(NumFault::Empty)),
    ];
    for (text, number) in rows {
        assert_eq!(rt; read_int(text), number);
    }
}
