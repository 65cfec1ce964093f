// pond with a reader and a writer that move few bytes a call, that fail after some, and with a writer
// that is interrupted.
use crate::{begin, pond, put_line};
use std::io;
use std::io::{ErrorKind, Read, Write};
use stepping::Refusal;

// crates/pond/stdin: one stage, gamma = d = b = 1 and c = 0.
const FILE: [u8; 80] = [
    1, 0, 0, 0, 0, 0, 0, 0, 0, 0, 0, 0, 0, 0, 0, 0, 48, 0, 0, 0, 56, 0, 0, 0, 56, 0, 0, 0, 56, 0,
    0, 0, 64, 0, 0, 0, 72, 0, 0, 0, 0, 0, 0, 0, 80, 0, 0, 0, 0, 0, 0, 0, 0, 0, 240, 63, 0, 0, 0, 0,
    0, 0, 0, 0, 0, 0, 0, 0, 0, 0, 240, 63, 0, 0, 0, 0, 0, 0, 240, 63,
];

// crates/pond/stdout.
const TEXT: &[u8] =
    b"step time state\n0 0000000000000000 3ff0000000000000\n1 3ff0000000000000 3fe0000000000000\n2 4000000000000000 3fd0000000000000\n";

const HEADER: &[u8] = b"step time state\n";

// Hands over at most `most` bytes a call, and fails once it has handed over `good`.
#[derive(Drop)]
struct Source<'a> {
    rest: &'a [u8],
    most: usize,
    good: usize,
}

impl Read for Source<'_> {
    fn read(&mut self, buf: &mut [u8]) -> io::Result<usize> {
        if self.good == 0 {
            return Err(ErrorKind::Other.into());
        }
        let count = buf.len().min(self.rest.len()).min(self.most).min(self.good);
        buf[..count].copy_from_slice(&self.rest[..count]);
        self.rest = &self.rest[count..];
        self.good -= count;
        Ok(count)
    }
}

// Takes at most `most` bytes a call; once it has taken `good` it fails, or takes none.
#[derive(Drop)]
struct Sink {
    taken: Vec<u8>,
    most: usize,
    good: usize,
    fails: bool,
}

impl Write for Sink {
    fn write(&mut self, buf: &[u8]) -> io::Result<usize> {
        if self.good == 0 && self.fails {
            return Err(ErrorKind::Other.into());
        }
        let count = buf.len().min(self.most).min(self.good);
        self.taken.extend_from_slice(&buf[..count])?;
        self.good -= count;
        Ok(count)
    }

    fn flush(&mut self) -> io::Result<()> {
        Ok(())
    }
}

// Answers Interrupted before each write that it passes on.
#[derive(Drop)]
struct Interrupting {
    sink: Sink,
    interrupted: bool,
}

impl Write for Interrupting {
    fn write(&mut self, buf: &[u8]) -> io::Result<usize> {
        self.interrupted = !self.interrupted;
        if self.interrupted {
            return Err(ErrorKind::Interrupted.into());
        }
        self.sink.write(buf)
    }

    fn flush(&mut self) -> io::Result<()> {
        Ok(())
    }
}

#[test]
fn few_bytes_a_call(rt: HostRuntime) {
    for most in [1, 2, 3, 15, 16, 17, 1000] {
        let mut input = Source {
            rest: &FILE,
            most,
            good: usize::MAX,
        };
        let mut output = Sink {
            taken: Vec::new(rt.alloc()),
            most,
            good: usize::MAX,
            fails: true,
        };
        let mut work = [0.0; 2816];
        assert!(rt; pond(&mut input, &mut output, &mut work).is_ok());
        assert_eq!(rt; output.taken.as_slice(), TEXT, "{most} a call");
    }
}

#[test]
fn writes_are_interrupted(rt: HostRuntime) {
    for most in [1, 3, 1000] {
        let mut input = Source {
            rest: &FILE,
            most,
            good: usize::MAX,
        };
        let mut output = Interrupting {
            sink: Sink {
                taken: Vec::new(rt.alloc()),
                most,
                good: usize::MAX,
                fails: true,
            },
            interrupted: false,
        };
        let mut work = [0.0; 2816];
        assert!(rt; pond(&mut input, &mut output, &mut work).is_ok());
        assert_eq!(rt; output.sink.taken.as_slice(), TEXT, "{most} a call");
    }
}

#[test]
fn a_write_fails(rt: HostRuntime) {
    for good in 0..=TEXT.len() {
        for most in [1, 1000] {
            for fails in [false, true] {
                let mut input = Source {
                    rest: &FILE,
                    most,
                    good: usize::MAX,
                };
                let mut output = Sink {
                    taken: Vec::new(rt.alloc()),
                    most,
                    good,
                    fails,
                };
                let mut work = [0.0; 2816];
                let ended = pond(&mut input, &mut output, &mut work);
                assert_eq!(rt;
                    ended.is_ok(),
                    good == TEXT.len(),
                    "{good} bytes, {most} a call"
                );
                assert_eq!(rt;
                    Some(output.taken.as_slice()),
                    TEXT.get(..good),
                    "{good} bytes, {most} a call"
                );
                let unread = if good < HEADER.len() { FILE.len() } else { 0 };
                assert_eq!(rt; input.rest.len(), unread, "{good} bytes, {most} a call");
            }
        }
    }
}

#[test]
fn a_read_fails(rt: HostRuntime) {
    for good in 0..=FILE.len() {
        for most in [1, 1000] {
            let mut input = Source {
                rest: &FILE,
                most,
                good,
            };
            let mut output = Sink {
                taken: Vec::new(rt.alloc()),
                most,
                good: usize::MAX,
                fails: true,
            };
            let mut work = [0.0; 2816];
            assert!(rt; pond(&mut input, &mut output, &mut work).is_err());
            assert_eq!(rt;
                output.taken.as_slice(),
                HEADER,
                "{good} bytes, {most} a call"
            );
        }
    }
}

// The read that would fail is not made: no more than 761 bytes are read.
#[test]
fn a_long_input(rt: HostRuntime) {
    for most in [1, 1000] {
        let mut input = Source {
            rest: &[0; 800],
            most,
            good: 761,
        };
        let mut output = Sink {
            taken: Vec::new(rt.alloc()),
            most,
            good: usize::MAX,
            fails: true,
        };
        let mut work = [0.0; 2816];
        assert!(rt; pond(&mut input, &mut output, &mut work).is_ok());
        assert_eq!(rt;
            output.taken.as_slice(),
            &b"step time state\nrefused 12\n"[..],
            "{most} a call"
        );
    }
}

// The bytes beside a line stay.
#[test]
fn a_line_is_put(rt: HostRuntime) {
    let mut work = [0.0; 2816];
    let start = begin(&FILE, &[1.0], &mut work, &mut [0]);
    let mut out = [b'.'; 64];
    assert_eq!(rt; put_line(0, start, &[1.0], &mut out), 36);
    assert_eq!(rt;
        out.get(..37),
        Some(&b"0 0000000000000000 3ff0000000000000\n."[..])
    );
    let refused = Some(Err(Refusal::Dimension));
    let mut out = [b'.'; 64];
    assert_eq!(rt; put_line(1, refused, &[], &mut out), 10);
    assert_eq!(rt; out.get(..11), Some(&b"refused 1\n."[..]));
    assert_eq!(rt; put_line(2, None, &[], &mut out), 0);
    assert_eq!(rt; out.get(..11), Some(&b"refused 1\n."[..]));
}
