// A file, read whole into a lent buffer.
ghost use Rattle.std.specs.Prelude.{◌≤◌, ◌≡◌, length};

use std::fs::File;
use std::io::Read;

// How many bytes were read, and whether up to the end of the file or of the buffer.
#[derive(Clone, Copy)]
pub struct Content {
    pub whole: bool,
    pub n: usize,
}

fn failed() -> Content
    ensures { result.n ≡ 0 }
{
    Content { whole: false, n: 0 }
}

fn read_whole(source: &mut File, file: &mut [u8]) -> Content
    ensures { result.n ≤ length file.new }
{
    let mut n = 0;
    // A read says how many bytes came, so no range counts the reads.
    while n < file.len() {
        match source.read(&mut file[n..]) {
            Ok(0) => break,
            Ok(got) => n += got,
            Err(_) => return failed(),
        }
    }
    Content { whole: true, n }
}

// The file of that name, from the start of file on. A name that is not UTF-8 opens none.
pub fn read_file(rt: &HostRuntime, name: &[u8], file: &mut [u8]) -> Content
    ensures { result.n ≤ length file.new }
{
    let Ok(path) = str::from_utf8(name) else {
        return failed();
    };
    match File::open(rt, path) {
        Ok(mut source) => read_whole(&mut source, file),
        Err(_) => failed(),
    }
}
