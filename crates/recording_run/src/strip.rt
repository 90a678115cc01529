// The strip, block by block: what comes out of it next, and whether another block is to be read.

ghost use Rattle.std.specs.Prelude.{◌≡◌, ◌≤◌, length, take};
ghost use Rattle.recording_run.specs.Strip.{new_source, drawn_of, drawn_from, refilled};

use strip_reader::{Got, Reader, is_more};

// A reader, the place in the block up to which the bytes are used, and how many bytes of the block are filled.
#[derive(Clone, Copy)]
pub struct Source {
    pub reader: Reader,
    pub at: usize,
    pub n: usize,
}

// What came out of the strip, the source that goes on, and whether a block is to be read before anything comes out.
#[derive(Clone, Copy)]
pub struct Drawn {
    pub source: Source,
    pub got: Got,
    pub more: bool,
}

// A strip of which no byte is read.
pub fn begin() -> Source
    ensures { result ≡ new_source }
{
    let reader = Reader::new();
    Source {
        reader,
        at: 0,
        n: 0,
    }
}

// As many bytes of a block as are filled, and never more than it has.
fn filled_of(n: usize, block: &[u8]) -> usize
    ensures upper_bound { (result ≤ length block.now) × (result ≡ length (take result block.now)) }
    ensures block_value { take result block.now ≡ take n block.now }
{
    n.min(block.len())
}

// Takes the bytes of a block from the place on, until something comes out or they are used up; then a block is to be read.
pub fn draw(source: Source, block: &[u8]) -> Drawn
    ensures { drawn_of result ≡ drawn_from source block.now }
{
    let m = filled_of(source.n, block);
    let at = source.at;
    let reader = source.reader;
    let next = reader.next(&block[..m], at);
    let got = next.got;
    Drawn {
        source: Source {
            reader: next.reader,
            at: at + next.used,
            ..source
        },
        got,
        more: is_more(got),
    }
}

// Goes on with a block of which so many bytes came. Where none came the strip has ended, and where the read failed
// nothing more comes out.
pub fn refill(source: Source, block: &[u8], came: usize, failed: bool) -> Drawn
    ensures { drawn_of result ≡ refilled source block.now came failed }
{
    if failed {
        Drawn {
            source,
            got: Got::More,
            more: false,
        }
    } else if 0 < came {
        let next = Source {
            at: 0,
            n: came,
            ..source
        };
        draw(next, block)
    } else {
        let got = source.reader.finish();
        Drawn {
            source,
            got,
            more: false,
        }
    }
}
