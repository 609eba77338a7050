use ckd_outside::{
    Failed, LineBuffer, MemSink, Piece, Sink, StdSink, StdSource, flush, read_up_to, write_pieces,
};
use std::io::Cursor;
use std::test::Fail;

#[test]
fn std_source_reads(rt: HostRuntime) -> Result<(), Fail> {
    let mut source = StdSource::new("abcdef".as_bytes());
    let text = read_up_to(rt.alloc(), &mut source, 4).map_err(|_| "read")?;
    assert_eq!(rt; text.as_slice(), b"abcd".as_slice());
    Ok(())
}

#[test]
fn std_sink_fails_where_none_is_taken(rt: HostRuntime) -> Result<(), Fail> {
    let mut room = [0; 4];
    let mut sink = StdSink::new(Cursor::new(room.as_mut_slice()));
    assert_eq!(rt; sink.write(b"abc"), Ok(3));
    assert_eq!(rt; sink.write(b"def"), Ok(1));
    assert_eq!(rt; sink.write(b"ef"), Err(Failed));
    assert_eq!(rt; sink.write(b""), Ok(0));
    Ok(())
}

#[test]
fn long_texts_pass_the_buffer(rt: HostRuntime) -> Result<(), Fail> {
    let mut sink = MemSink::new(rt.alloc(), 130000, 30000, &[])?;
    let mut buffer = LineBuffer::new();
    let pieces = [
        Piece::Byte(0xc5),
        Piece::Text(&[b'x'; 40000]),
        Piece::Hex(&[0x3f; 40000]),
    ];
    assert_eq!(rt; write_pieces(&mut sink, &mut buffer, &pieces), Ok(()));
    assert_eq!(rt; flush(&mut sink, &mut buffer), Ok(()));
    assert_eq!(rt; sink.bytes().len(), 120002);
    assert_eq!(rt; &sink.bytes()[40000..40005], b"xx3F3".as_slice());
    Ok(())
}
