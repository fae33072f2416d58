//! A reader and a writer whose first calls fail.
ghost use Rattle.std.specs.Prelude.{◌≡◌, ◌<◌, length};

use crate::again::{read_again, write_again};
use av_base::Fault;
use std::io::{self, ErrorKind, Read, Write};

// So many calls fail by this error, and each one behind them moves one byte.
#[derive(Drop)]
struct Hesitant {
    calls: u32,
    kind: ErrorKind,
}

impl Hesitant {
    fn call(&mut self) -> io::Result<()> {
        if self.calls > 0 {
            self.calls -= 1;
            return Err(io::Error::from(self.kind));
        }
        Ok(())
    }
}

impl Read for Hesitant {
    fn read(&mut self, buf: &mut [u8]) -> io::Result<usize> {
        self.call()?;
        match buf.first_mut() {
            Some(first) => {
                *first = b'x';
                Ok(1)
            }
            None => Ok(0),
        }
    }
}

impl Write for Hesitant {
    fn write(&mut self, buf: &[u8]) -> io::Result<usize> {
        self.call()?;
        Ok(buf.len().min(1))
    }

    fn flush(&mut self) -> io::Result<()> {
        Ok(())
    }
}

#[test]
fn a_call_that_comes_to_something_later_is_made_again(rt: HostRuntime) {
    for kind in [ErrorKind::Interrupted, ErrorKind::WouldBlock] {
        let mut buffer = [0u8; 4];
        assert_eq!(rt;
            read_again(&mut Hesitant { calls: 3, kind }, &rt, &mut buffer),
            Ok(1)
        );
        assert_eq!(rt; buffer, *b"x\0\0\0");
        assert_eq!(rt;
            write_again(&mut Hesitant { calls: 3, kind }, &rt, b"text"),
            Ok(1)
        );
    }
    let mut failing = Hesitant {
        calls: 1,
        kind: ErrorKind::BrokenPipe,
    };
    assert_eq!(rt; write_again(&mut failing, &rt, b"text"), Err(Fault));
    assert_eq!(rt; failing.calls, 0);
}
