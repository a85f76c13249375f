// A reader that is interrupted before each read, and gives one byte at a time.
use std::io;
use std::io::{ErrorKind, Read};

#[derive(Clone, Copy)]
pub struct Halting<'a> {
    rest: &'a [u8],
    interrupted: bool,
}

impl<'a> Halting<'a> {
    pub fn new(rest: &'a [u8]) -> Halting<'a> {
        Halting {
            rest,
            interrupted: false,
        }
    }
}

impl Read for Halting<'_> {
    fn read(&mut self, buf: &mut [u8]) -> io::Result<usize> {
        self.interrupted = !self.interrupted;
        if self.interrupted {
            return Err(io::Error::from(ErrorKind::Interrupted));
        }
        let n = buf.len().min(1);
        self.rest.read(&mut buf[..n])
    }
}
