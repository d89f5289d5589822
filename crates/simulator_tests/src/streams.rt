use crate::expected::expect;
use hls_io::{
    Bytes, MemSink, MemSource, ReadAllError, Source, StdSink, StdSource, SureSink, SureSource,
    WriteFault, put_dec, read_all, write_all,
};
use std::alloc::{AllocError, Global};
use std::io;
use std::io::{Error, ErrorKind, Read, Write};
use std::process::Abort;
use std::test::Fail;

/// What is read and written.
fn text() -> &'static [u8] {
    b"int main(void){return 0;}"
}

/// Whether the bytes that are left, at most `most`, are read as expected.
fn reads<S: Source>(
    alloc: Global,
    source: &mut S,
    most: usize,
    expected: Result<&[u8], ReadAllError>,
) -> bool {
    match read_all(alloc, source, most) {
        Ok(bytes) => matches!(expected, Ok(wanted) if bytes.as_slice() == wanted),
        Err(fault) => matches!(expected, Err(cause) if fault == cause),
    }
}

/// The text is read, and behind it nothing is left.
fn is_whole<S: Source>(alloc: Global, mut source: S) -> bool
where
    S: Drop,
{
    reads(alloc, &mut source, text().len(), Ok(text())) && reads(alloc, &mut source, 0, Ok(&[]))
}

#[test]
fn reads_to_the_end(rt: HostRuntime) {
    let alloc = rt.alloc();
    for chunk in [1, 4, 25, 26] {
        let is_from_memory = is_whole(alloc, MemSource::new(text(), chunk, &[]));
        let is_sure = is_whole(alloc, SureSource::new(text(), chunk));
        assert!(rt; is_from_memory && is_sure);
    }
    let is_from_std = is_whole(alloc, StdSource::new(text()));
    assert!(rt; is_from_std);
}

#[test]
fn holds_to_the_most_bytes(rt: HostRuntime) {
    for (most, fits) in [(0, false), (24, false), (25, true), (65_536, true)] {
        let mut source = MemSource::new(text(), 7, &[]);
        let expected = if fits {
            Ok(text())
        } else {
            Err(ReadAllError::TooLong)
        };
        if !reads(rt.alloc(), &mut source, most, expected) {
            rt.panic(most);
        }
    }
}

#[test]
fn fails_in_the_middle_of_a_read(rt: HostRuntime) {
    let mut source = MemSource::new(text(), 4, &[2]);
    let is_told = reads(rt.alloc(), &mut source, 100, Err(ReadAllError::ReadFault));
    let has_rest = reads(rt.alloc(), &mut source, 100, Ok(b"main(void){return 0;}"));
    assert!(rt; is_told && has_rest);
}

#[test]
fn fails_in_the_middle_of_a_write(rt: HostRuntime) -> Result<(), Fail> {
    let sure = write_all(&mut SureSink::new(), text());
    expect(&rt, sure, Ok(()));
    let small = write_all(&mut MemSink::new(rt.alloc(), 10, 25, &[])?, text());
    expect(&rt, small, Err(WriteFault { written: 10 }));
    let mut sink = MemSink::new(rt.alloc(), 100, 4, &[3])?;
    let broken = write_all(&mut sink, text());
    let resumed = write_all(&mut sink, b"(void)");
    let is_held = sink.held() == b"int main(void)".as_slice();
    expect(&rt, broken, Err(WriteFault { written: 8 }));
    expect(&rt, resumed, Ok(()));
    assert!(rt; is_held);
    Ok(())
}

#[derive(Drop)]
struct Stuttering<'a> {
    left: &'a [u8],
    calls: u32,
    broken_from: u32,
}

impl Read for Stuttering<'_> {
    fn read(&mut self, buf: &mut [u8]) -> io::Result<usize> {
        self.calls = self.calls.saturating_add(1);
        if self.calls >= self.broken_from {
            return Err(Error::from(ErrorKind::BrokenPipe));
        }
        if self.calls % 2 == 0 {
            return Err(Error::from(ErrorKind::Interrupted));
        }
        let count = self.left.len().min(buf.len()).min(3);
        let (front, rest) = self.left.split_at(count);
        buf[..count].copy_from_slice(front);
        self.left = rest;
        Ok(count)
    }
}

#[derive(Drop)]
struct Grudging {
    calls: u32,
}

impl Write for Grudging {
    fn write(&mut self, piece: &[u8]) -> io::Result<usize> {
        self.calls = self.calls.saturating_add(1);
        match self.calls {
            1 | 3 => Ok(piece.len().min(5)),
            2 => Err(Error::from(ErrorKind::Interrupted)),
            _ => Ok(0),
        }
    }

    fn flush(&mut self) -> io::Result<()> {
        Ok(())
    }
}

/// Whether a reader that stutters, and breaks at a call, is read as expected.
fn reads_stuttering(
    alloc: Global,
    broken_from: u32,
    expected: Result<&[u8], ReadAllError>,
) -> bool {
    let stuttering = Stuttering {
        left: text(),
        calls: 0,
        broken_from,
    };
    reads(alloc, &mut StdSource::new(stuttering), 100, expected)
}

#[test]
fn stands_over_streams_of_std(rt: HostRuntime) {
    let is_told = reads_stuttering(rt.alloc(), 9, Err(ReadAllError::ReadFault));
    let is_read = reads_stuttering(rt.alloc(), 100, Ok(text()));
    assert!(rt; is_told && is_read);
    let grudging = write_all(&mut StdSink::new(Grudging { calls: 0 }), text());
    expect(&rt, grudging, Err(WriteFault { written: 10 }));
    let growing = write_all(&mut StdSink::new(Vec::<u8>::new(rt.alloc())), text());
    expect(&rt, growing, Ok(()));
    let printed = write_all(&mut StdSink::new(rt.stdout()), b"one line\n");
    expect(&rt, printed, Ok(()));
}

/// Numbers of either sign behind blanks, and the ends of the range.
fn put_decimals(bytes: &mut Bytes) -> Result<(), AllocError> {
    for number in [0, 7, -1, 10, -100, 4_294_967_295, i128::MAX, i128::MIN] {
        bytes.push(b' ')?;
        put_dec(bytes, number)?;
    }
    Ok(())
}

/// What `put_decimals` puts behind a name.
fn decimals() -> &'static str {
    "hls: 0 7 -1 10 -100 4294967295 170141183460469231731687303715884105727 \
        -170141183460469231731687303715884105728"
}

#[test]
fn prints_minimal_decimals(rt: HostRuntime) -> Result<(), Fail> {
    let mut bytes = Bytes::from_slice(rt.alloc(), b"hls:")?;
    put_decimals(&mut bytes)?;
    let are_decimals = bytes.as_slice() == decimals().as_bytes();
    bytes.truncate(5);
    bytes.put(b"usage")?;
    let is_cut = bytes.len() == 10 && bytes.as_slice() == b"hls: usage".as_slice();
    assert!(rt; are_decimals && is_cut);
    Ok(())
}
