//! The source of a script, and the sink of its answers.
ghost use Rattle.std.specs.Prelude.{◌≡◌, ℕ, ◌+◌, ◌≤◌, ◌<◌, false, List, ◌++◌, None, Some, Bool, true, OnOk, OnErr, length};
ghost use Rattle.std.specs.Io.{ReadsAtMost, WritesAtMost};
ghost use Rattle.std.specs.Io.KnownBytes.{ReadConsumes, WriteAppends, Appends, Keeps};
ghost use Rattle.vpg_script.specs.Devices.{AppendsSome};
ghost use Rattle.std.specs.declared.option.Option.{Option};

use std::io::{Read, Write};
use thiserror::Error;

/// A device failed.
#[derive(Clone, Copy, Debug, Error)]
#[error("Failed")]
pub struct Failed;

/// A source of a script.
pub trait Source {
    // The bytes that it will give from here on, if they are known.
    ghost remaining: { Self → Option (List ℕ) };

    // One of its reads failed.
    ghost has_failed: { Self → Bool };

    // How often it was read.
    ghost calls: { Self → ℕ };

    /// Reads into the buffer; nothing only at the end, or with no room.
    fn fill(&mut self, buf: &mut [u8]) -> Result<usize, Failed>
        requires { calls self.old < 16777216 }
        ensures counted { calls self.new ≡ calls self.old + 1 }
        ensures bound { ReadsAtMost result buf.new }
        ensures bytes { ReadConsumes (remaining self.old) (remaining self.new) result buf.new }
        ensures len { length buf.new ≡ length buf.old }
        ensures ok { OnOk result (has_failed self.new ≡ has_failed self.old) }
        ensures err { OnErr result (has_failed self.new ≡ true) };
}

/// A sink of answers.
pub trait Sink {
    // The bytes that it holds, if they are known.
    ghost contents: { Self → Option (List ℕ) };

    // One of its writes failed.
    ghost has_failed: { Self → Bool };

    /// Writes all bytes. If it fails, some of the first ones are written.
    fn put(&mut self, bytes: &[u8]) -> Result<(), Failed>
        ensures ok { OnOk result (Appends (contents self.old) (contents self.new) bytes.now) }
        ensures ok_same { OnOk result (has_failed self.new ≡ has_failed self.old) }
        ensures err { OnErr result (AppendsSome (contents self.old) (contents self.new) bytes.now) }
        ensures err_failed { OnErr result (has_failed self.new ≡ true) };
}

/// A reader or a writer that remembers whether it failed.
#[derive(Drop)]
pub struct Device<D> {
    inner: D,
    failed: bool,
    calls: u32,
}

impl<R: Read> Device<R> {
    /// Returns a reader that was not read yet.
    pub fn reader(inner: R) -> Device<R>
        ensures remaining { ⟦<Device<R> as Source>⟧.remaining result ≡ R.remaining inner }
        ensures sound { ⟦<Device<R> as Source>⟧.has_failed result ≡ false }
        ensures unread { ⟦<Device<R> as Source>⟧.calls result ≡ 0 }
    {
        Device {
            inner,
            failed: false,
            calls: 0,
        }
    }
}

impl<W: Write> Device<W> {
    /// Returns a writer that did not fail yet.
    pub fn writer(inner: W) -> Device<W>
        ensures contents { ⟦<Device<W> as Sink>⟧.contents result ≡ W.contents inner }
        ensures sound { ⟦<Device<W> as Sink>⟧.has_failed result ≡ false }
    {
        Device {
            inner,
            failed: false,
            calls: 0,
        }
    }

    /// Returns the writer, with the bytes that were written to it.
    pub fn into_writer(self) -> W
        ensures { W.contents result ≡ ⟦<Device<W> as Sink>⟧.contents self }
    {
        self.inner
    }
}

impl<R: Read> Source for Device<R> {
    ghost remaining = { λ d. R.remaining d.inner };

    ghost has_failed = { λ d. d.failed };

    ghost calls = { λ d. d.calls };

    fn fill(&mut self, buf: &mut [u8]) -> Result<usize, Failed> {
        self.calls += 1;
        match self.inner.read(buf) {
            Ok(n) => Ok(n),
            Err(_) => {
                self.failed = true;
                Err(Failed)
            }
        }
    }
}

impl<W: Write> Sink for Device<W> {
    ghost contents = { λ d. W.contents d.inner };

    ghost has_failed = { λ d. d.failed };

    fn put(&mut self, bytes: &[u8]) -> Result<(), Failed> {
        let mut at = 0;
        while at < bytes.len() {
            match self.inner.write(&bytes[at..]) {
                Ok(0) => {
                    self.failed = true;
                    return Err(Failed);
                }
                Ok(n) => at += n,
                Err(_) => {
                    self.failed = true;
                    return Err(Failed);
                }
            }
        }
        Ok(())
    }
}
