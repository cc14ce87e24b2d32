use std::io;
use std::io::{Read, Write};
use std::test::Fail;
use tv_base::{
    MOST_BYTES, MemSink, MemSource, ReadEnd, ReadStep, ReaderSource, Sink, Source, WriteFailed,
    WriteStep, WriterSink, read_all, write_all,
};

// A reader that gives one byte and then only fails.
#[derive(Drop)]
struct OneByte {
    given: bool,
}

impl Read for OneByte {
    fn read(&mut self, buf: &mut [u8]) -> io::Result<usize> {
        if self.given || buf.is_empty() {
            return Err(io::ErrorKind::Other.into());
        }
        self.given = true;
        buf[0] = b'a';
        Ok(1)
    }
}

// A writer that takes nothing, with no error.
#[derive(Drop)]
struct Full;

impl Write for Full {
    fn write(&mut self, _buf: &[u8]) -> io::Result<usize> {
        Ok(0)
    }

    fn flush(&mut self) -> io::Result<()> {
        Ok(())
    }
}

#[test]
fn a_source_gives_pieces_and_fails_where_listed(rt: HostRuntime) -> Result<(), Fail> {
    let alloc = rt.alloc();
    let mut source = MemSource::new(b"abcde".to_vec(alloc)?, 3, [2, 5].to_vec(alloc)?);
    let mut buf = [0; 4];
    for (call, want) in [
        (1, ReadStep::Got(3)),
        (2, ReadStep::Failed),
        (3, ReadStep::Got(2)),
        (4, ReadStep::End),
        (5, ReadStep::Failed),
        (6, ReadStep::End),
    ] {
        assert_eq!(rt; source.read(&mut buf), want, "at call {call}");
    }
    assert_eq!(rt; buf[..3], b"dec"[..]);
    assert_eq!(rt; (source.calls(), source.faults()), (6, 2));
    Ok(())
}

#[test]
fn a_sink_takes_pieces_and_fails_where_listed_and_full(rt: HostRuntime) -> Result<(), Fail> {
    let alloc = rt.alloc();
    let mut sink = MemSink::new(alloc, 5, 3, [2].to_vec(alloc)?)?;
    for (call, want) in [
        (1, WriteStep::Took(3)),
        (2, WriteStep::Failed),
        (3, WriteStep::Took(2)),
        (4, WriteStep::Failed),
    ] {
        assert_eq!(rt; sink.write(b"vwxyz"), want, "at call {call}");
    }
    assert_eq!(rt; sink.bytes(), b"vwxvw".as_slice());
    assert_eq!(rt; (sink.calls(), sink.faults()), (4, 2));
    Ok(())
}

#[test]
fn a_reader_is_a_source(rt: HostRuntime) -> Result<(), Fail> {
    let alloc = rt.alloc();
    let mut source = ReaderSource::new(b"abc".as_slice());
    assert_eq!(rt;
        read_all(alloc, &mut source, MOST_BYTES)?.as_slice(),
        b"abc".as_slice()
    );
    assert_eq!(rt; source.faults(), 0);
    let mut failing = ReaderSource::new(OneByte { given: false });
    assert_eq!(rt;
        read_all(alloc, &mut failing, MOST_BYTES).err(),
        Some(ReadEnd::Failed)
    );
    assert_eq!(rt; failing.faults(), 1);
    Ok(())
}

#[test]
fn a_writer_is_a_sink(rt: HostRuntime) -> Result<(), Fail> {
    let alloc = rt.alloc();
    let mut bytes = Vec::new(alloc);
    let mut sink = WriterSink::new(&mut bytes);
    write_all(&mut sink, b"abc")?;
    assert_eq!(rt; sink.faults(), 0);
    assert_eq!(rt; bytes.as_slice(), b"abc".as_slice());
    let mut full = WriterSink::new(Full);
    assert_eq!(rt; write_all(&mut full, b"abc"), Err(WriteFailed));
    assert_eq!(rt; full.faults(), 1);
    Ok(())
}
