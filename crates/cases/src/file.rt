// Reading a file into a buffer.
ghost use Rattle.std.specs.Prelude.{◌≡◌, ◌≤◌, length, take};

use std::fs;
use std::io::Read;
use std::rt::Files;

// Reads until buf is full, the file ends or a read fails, and returns how many bytes it put at the start of buf.
fn fill<F: Read>(file: &mut F, buf: &mut [u8]) -> usize
    ensures bound { result ≤ length buf.new }
    ensures front { result ≡ length (take result buf.new) }
{
    let mut done = 0;
    // How far a read goes is known when it has gone, so no range says how often to read.
    while done < buf.len() {
        let n = file.read(&mut buf[done..]).unwrap_or(0);
        if n == 0 {
            break;
        }
        done += n;
    }
    done
}

// Reads the file, as much as there is room for: nothing, where it cannot be opened.
pub fn read(rt: &impl Files, name: &str, buf: &mut [u8]) -> usize
    ensures bound { result ≤ length buf.new }
    ensures front { result ≡ length (take result buf.new) }
{
    match fs::open(rt, name) {
        Ok(mut file) => fill(&mut file, buf),
        Err(_) => 0,
    }
}
