// Where the programs' loops read and write. A loop goes on where the system fails: a read that fails is the end of the input, each write is tried, and
// the first error of each side is kept, for the program to end with. What a reader has left and what a writer holds is known where its own contract
// says so (`remaining`, `contents` of std).
#![tactic(auto)]

ghost use Rattle.std.specs.Prelude.{◌≡◌, ◌≤◌, length, take, None, OnOk, IsOk};
ghost use Rattle.streams.specs.Streams.{Stand, stand, Brought, Written};

use std::io;
use std::io::{Read, Write};

pub trait Source {
    ghost stand: { Self → Stand };

    // One read, to the front of `buf`. A read that fails brings nothing.
    fn read_some(&mut self, buf: &mut [u8]) -> usize
        ensures bound { result ≤ length buf.new }
        ensures front { result ≡ length (take result buf.new) }
        ensures bytes { Brought (length buf.old) (stand self.old) (stand self.new) (take result buf.new) };
}

pub trait Sink {
    ghost stand: { Self → Stand };

    // Writes all the bytes.
    fn hand(&mut self, bytes: &[u8])
        ensures { Written (stand self.old) (stand self.new) bytes.now };
}

// A reader, and a writer, with the first error of each. One struct for both, with one `new` and one `end`, would be no plainer: what is known of a reader and
// of a writer are members of different traits.
#[derive(Drop)]
pub struct Input<R> {
    from: R,
    error: Option<io::Error>,
}

#[derive(Drop)]
pub struct Output<W> {
    to: W,
    error: Option<io::Error>,
}

impl<R: Read> Source for Input<R> {
    ghost stand = { λ s. stand s.error (R.remaining s.from) };

    fn read_some(&mut self, buf: &mut [u8]) -> usize {
        if self.error.is_some() {
            return 0;
        }
        match self.from.read(buf) {
            Ok(n) => n,
            Err(e) => {
                self.error = Some(e);
                0
            }
        }
    }
}

impl<W: Write> Sink for Output<W> {
    ghost stand = { λ s. stand s.error (W.contents s.to) };

    fn hand(&mut self, bytes: &[u8]) {
        if let Err(e) = self.to.write_all(bytes) {
            if self.error.is_none() {
                self.error = Some(e);
            }
        }
    }
}

impl<R: Read> Input<R> {
    pub fn new(from: R) -> Input<R>
        ensures { ⟦<Input<R> as Source>⟧.stand result ≡ stand None (R.remaining from) }
    {
        Input { from, error: None }
    }
}

impl<R: Read + Drop> Input<R> {
    // The error, where a read failed.
    pub fn end(self) -> io::Result<()>
        ensures ok { OnOk result ((⟦<Input<R> as Source>⟧.stand self).error ≡ None) }
        ensures err { (⟦<Input<R> as Source>⟧.stand self).error ≡ None → IsOk result }
    {
        match self.error {
            Some(e) => Err(e),
            None => Ok(()),
        }
    }
}

impl<W: Write> Output<W> {
    pub fn new(to: W) -> Output<W>
        ensures { ⟦<Output<W> as Sink>⟧.stand result ≡ stand None (W.contents to) }
    {
        Output { to, error: None }
    }
}

impl<W: Write + Drop> Output<W> {
    // The error, where a write failed.
    pub fn end(self) -> io::Result<()>
        ensures ok { OnOk result ((⟦<Output<W> as Sink>⟧.stand self).error ≡ None) }
        ensures err { (⟦<Output<W> as Sink>⟧.stand self).error ≡ None → IsOk result }
    {
        match self.error {
            Some(e) => Err(e),
            None => Ok(()),
        }
    }
}
