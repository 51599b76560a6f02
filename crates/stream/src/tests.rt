// A reader and a writer of which each fails in its midst.
use super::rehearse;
use std::io;
use std::io::{ErrorKind, Read, Write};

// Gives seven bytes at a time, and fails where others would say that the input ends.
#[derive(Drop)]
struct Drips<'a> {
    left: &'a [u8],
}

impl Read for Drips<'_> {
    fn read(&mut self, buf: &mut [u8]) -> io::Result<usize> {
        let n = self.left.len().min(buf.len()).min(7);
        if n == 0 {
            return Err(io::Error::from(ErrorKind::Other));
        }
        buf[..n].copy_from_slice(&self.left[..n]);
        self.left = &self.left[n..];
        Ok(n)
    }
}

// Takes so many bytes, and no more.
#[derive(Drop)]
struct Full {
    room: usize,
}

impl Write for Full {
    fn write(&mut self, buf: &[u8]) -> io::Result<usize> {
        if self.room < buf.len() {
            return Err(io::Error::from(ErrorKind::StorageFull));
        }
        self.room -= buf.len();
        Ok(buf.len())
    }

    fn flush(&mut self) -> io::Result<()> {
        Ok(())
    }
}

const LIST: &[u8] = b"kind,a,b,c,d\nplan,3,1,0,0\nwrite,1,open,6,\nsend,1,1,,\ndeliver,1,,,";

const SAID: &[u8] =
    b"row,answer,outcome,slot,counter,writer,entry\n1,0,forgetful,,,,\n2,0,begun,,,,\n3,0,sent,1,,,\n4,0,answered,1,,,\n";

#[test]
fn a_failed_read_ends_the_input(rt: HostRuntime) -> io::Result<()> {
    let mut said = Vec::new(rt.alloc());
    rehearse(&mut Drips { left: LIST }, &mut said)?;
    assert_eq!(rt; said.as_slice(), SAID);
    Ok(())
}

#[test]
fn a_failed_write_is_told(rt: HostRuntime) {
    for room in 0..SAID.len() {
        let mut list = LIST;
        assert!(rt; rehearse(&mut list, &mut Full { room }).is_err(), "{room}");
    }
    let mut list = LIST;
    assert!(rt; rehearse(&mut list, &mut Full { room: SAID.len() }).is_ok());
}
