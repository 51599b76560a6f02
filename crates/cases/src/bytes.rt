// A list that is held whole.
ghost use Rattle.std.specs.Prelude.{◌≤◌, length};
ghost use Rattle.cases.specs.Sizes.{most_list_bytes};

use std::io::Read;
use std::rt::Files;
use std::{fs, io};

pub const MOST_LIST_BYTES: usize = 65_536;

// The bytes of a list, at the start of a buffer.
#[derive(Drop)]
pub struct List {
    buffer: [u8; MOST_LIST_BYTES],
    len: usize,
    ghost within: { len ≤ most_list_bytes },
}

impl List {
    // A list that is longer than the buffer is cut, and its counts show that.
    pub fn open(rt: &impl Files, path: &str) -> io::Result<List> {
        let mut file = fs::open(rt, path)?;
        let mut buffer = [0; MOST_LIST_BYTES];
        let len = read_full(&mut file, &mut buffer);
        Ok(List { buffer, len })
    }

    pub fn bytes(&self) -> &[u8]
        ensures { length result.now ≤ most_list_bytes }
    {
        &self.buffer[..self.len]
    }
}

// Reads until `bytes` is full, the input ends or a read fails, and says how many bytes it put at the start of `bytes`.
fn read_full<R: Read>(input: &mut R, bytes: &mut [u8]) -> usize
    ensures { result ≤ length bytes.new }
{
    let mut done: usize = 0;
    while done < bytes.len() {
        let n = input.read(&mut bytes[done..]).unwrap_or(0);
        if n == 0 {
            break;
        }
        done += n;
    }
    done
}
