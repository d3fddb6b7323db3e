//! A reader and a writer that fail at one of their calls.

use std::io;
use std::io::{Read, Write};

/// Gives a number of bytes of a script a call, for a number of calls, and then fails or ends.
#[derive(Drop)]
pub(crate) struct Gives<'s> {
    pub(crate) script: &'s [u8],
    pub(crate) bytes: usize,
    pub(crate) calls: usize,
    pub(crate) fails: bool,
}

/// Gives a script, each call as much of it as there is room for.
pub(crate) fn whole(script: &[u8]) -> Gives<'_> {
    Gives {
        script,
        bytes: usize::MAX,
        calls: usize::MAX,
        fails: false,
    }
}

/// Gives a byte of a script a call, and fails after the last.
pub(crate) fn then_fails(script: &[u8]) -> Gives<'_> {
    Gives {
        script,
        bytes: 1,
        calls: script.len(),
        fails: true,
    }
}

impl Read for Gives<'_> {
    fn read(&mut self, buf: &mut [u8]) -> io::Result<usize> {
        if self.calls == 0 && self.fails {
            return Err(io::ErrorKind::Other.into());
        }
        if self.calls == 0 {
            return Ok(0);
        }
        let most = buf.len().min(self.script.len()).min(self.bytes);
        buf[..most].copy_from_slice(&self.script[..most]);
        self.script = &self.script[most..];
        self.calls -= 1;
        Ok(most)
    }
}

/// Takes a number of bytes a call, for a number of calls, and then fails.
#[derive(Drop)]
pub(crate) struct Takes<'t> {
    pub(crate) got: &'t mut Vec<u8>,
    pub(crate) bytes: usize,
    pub(crate) calls: usize,
}

/// Takes all that is written.
pub(crate) fn all(got: &mut Vec<u8>) -> Takes<'_> {
    Takes {
        got,
        bytes: usize::MAX,
        calls: usize::MAX,
    }
}

impl Write for Takes<'_> {
    fn write(&mut self, buf: &[u8]) -> io::Result<usize> {
        if self.calls == 0 {
            return Err(io::ErrorKind::Other.into());
        }
        self.calls -= 1;
        let most = buf.len().min(self.bytes);
        self.got.extend_from_slice(&buf[..most])?;
        Ok(most)
    }

    fn flush(&mut self) -> io::Result<()> {
        Ok(())
    }
}
