// The lister: reads an image of at most 65,536 bytes from standard input and prints its points. The text is
// `lister_rows::print`'s, by its definition; here is the reading and the writing. A read that fails ends the input, and
// a write that fails is told on standard error.
#![tactic(auto)]

ghost use Rattle.std.specs.Prelude.{◌≤◌, length, take, OnOk};
ghost use Rattle.std.specs.Io.KnownBytes.{Consumes};
ghost use Rattle.lister.specs.Lists.{Lists};

use lister_rows::print;
use std::io::{self, Read, Write};

// Fills `buf` from its start until it is full, the input ends or a read fails: how many bytes were read. They are the
// next bytes of the input.
fn read_full<R: Read>(from: &mut R, buf: &mut [u8]) -> usize
    ensures within { result ≤ length buf.new }
    ensures bytes { Consumes (R.remaining from.old) (R.remaining from.new) (take result buf.new) }
{
    let mut got = 0;
    // Not a `for`: a read says how far it came.
    while got < buf.len() {
        match from.read(&mut buf[got..]) {
            Ok(0) => break,
            Ok(n) => got += n,
            Err(_) => break,
        }
    }
    got
}

// Reads an image and writes its text: an error is one of writing.
fn list_input<R: Read, W: Write>(from: &mut R, to: &mut W) -> io::Result<()>
    ensures { OnOk result
        (Lists (R.remaining from.old) (R.remaining from.new) (W.contents to.old) (W.contents to.new)) }
{
    // One byte more than an image may have tells an input that is too long.
    let mut input = [0u8; 65537];
    let mut out = [0u8; 262144];
    let got = read_full(from, &mut input);
    let end = print(&input[..got], &mut out);
    to.write_all(&out[..end])
}

fn main(rt: HostRuntime) {
    if let Err(e) = list_input(&mut rt.stdin(), &mut rt.stdout()) {
        let _ = eprintln!(rt; "write: {e}");
    }
}
