use report_reading::{LineError, LineFault, read_line};
use report_text::Respelling;
use std::test::Fail;

const EVENTS: &str = "START 2 10 ACCEPTED 65535\nSTART 2 10 SECONDARY 10\nSTART 2 10 RESERVED P 2\n\
    START 2 10 SHUT G C9C2D4000000000000000A\nEND 2 10 65535 3 0E 512 LIMIT\nHALF 2 10 17\nBACK 10 NOTHING\n\
    BACK 10 BADBYTES B\nRUN 10 IDLE\nCFW 10 LOST 3 00AF\nIO 18446744073709551615 0\nOVER 2 10 7 CUT 3\n\
    RESET 2 10\n";

const TOTALS: &str =
    "FAIL VOLUME 10 A DONE\nPAIR 10 10 REFUSED NOTLEVEL 65535\nPOWER DONE\nUNPAIR 10 PENDING 4\n\
    DEVICE 10 READS 5 WRITES 6 LOST 18446744073709551615\nDEVICE 10 LOST 18446744073709551615\n\
    LOST 10 17\nDEVICE 10 LENT 10\nFRAME 10 17 MODIFIED\nFRAME 10 17 CLEAN\n\
    FRESH 10\nLEFT 2 10 8\nUNUSED 9\nCHECKS 11\nFINISH\n";

const WRONG: &str =
    "start 2 10 DONE\nSTART 5 10 DONE\nSTART 02 10 DONE\nSTART 2\nSTART 2 10 NONE\nSENSE 0008\nPOWER REFUSED DOWN\n\
    END 2 10 1 3 0e 512 -\nSTART 2 10 DONE \nIO 18446744073709551616 0\nIO 0 0\nDATA 0a\n\
    PAIR 10 10 REFUSED NOTLEVEL 65536\nDEVICE 10 LOST 18446744073709551616\n";

const FAULTS: [LineFault; 14] = [
    LineFault::Keyword,
    LineFault::Number,
    LineFault::Number,
    LineFault::Words,
    LineFault::Word,
    LineFault::Digits,
    LineFault::Word,
    LineFault::Text,
    LineFault::Text,
    LineFault::Number,
    LineFault::Number,
    LineFault::Text,
    LineFault::Number,
    LineFault::Number,
];

#[test]
fn lines_that_are_read(rt: HostRuntime) -> Result<(), Fail> {
    let mut respelling = Respelling::new(rt.alloc());
    for line in EVENTS.lines() {
        assert_eq!(rt;
            read_line(rt.alloc(), &mut respelling, line.as_bytes()).err(),
            None
        );
    }
    for line in TOTALS.lines() {
        assert_eq!(rt;
            read_line(rt.alloc(), &mut respelling, line.as_bytes()).err(),
            None
        );
    }
    Ok(())
}

#[test]
fn lines_with_a_fault(rt: HostRuntime) -> Result<(), Fail> {
    let mut respelling = Respelling::new(rt.alloc());
    let mut faults = FAULTS.iter();
    for line in WRONG.lines() {
        let wanted = faults.next().map(|fault| LineError::Fault(*fault));
        assert_eq!(rt;
            read_line(rt.alloc(), &mut respelling, line.as_bytes()).err(),
            wanted
        );
    }
    assert_eq!(rt; faults.next(), None);
    Ok(())
}
