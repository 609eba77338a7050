use crate::*;
use std::test::Fail;

#[test]
fn bytes_of_each_cause(rt: HostRuntime) -> Result<(), Fail> {
    let causes = [
        (reject(INVALID_COMMAND), (0x80, 0x00, 1)),
        (reject(INVALID_SEQUENCE), (0x80, 0x00, 2)),
        (reject(SHORT_COUNT), (0x80, 0x00, 3)),
        (reject(INVALID_PARAMETER), (0x80, 0x00, 4)),
        (track_format(), (0x00, 0x40, 0)),
        (end_of_cylinder(), (0x00, 0x20, 0)),
        (no_record(), (0x00, 0x08, 0)),
        (file_protected(), (0x00, 0x04, 0)),
        (equipment(), (0x10, 0x80, 0)),
        (data_check(), (0x08, 0x00, 0)),
        (zero(), (0x00, 0x00, 0)),
    ];
    for (sense, (first, second, seventh)) in causes {
        let mut want = [0; 32];
        want[0] = first;
        want[1] = second;
        want[7] = seventh;
        assert_eq!(rt; sense.bytes, want);
    }
    Ok(())
}
