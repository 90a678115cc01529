// A strip that comes in pieces. Bytes go in one after the other, however they are cut into blocks, and the head and
// the records come out as soon as they are whole.

#![tactic(auto)]

ghost use Rattle.std.specs.Prelude.{◌≡◌, ◌≢◌, drop, None, Ok};
ghost use Rattle.strip_format.specs.Calls.{read_head, head_read_of, read_of};
ghost use Rattle.strip_reader.specs.Reader.{fresh, fresh_in, passes, asked, handed, is_more, step_of, head_fed, record_fed, fed, finished, next_of, next};

use strip_format::{Entry, HEAD_BYTES, Head, Version, read_head, read_head_in, read_record};
use units::figures::Figures;
use units::refusals::Refusal;

// What a reader waits for: the rest of the head, the rest of a record, or nothing, after a refusal. They are numbers, and no
// enum: a reader that is handed in may have any number there, and `passes` refuses one that is none of these.
const HEAD: u32 = 0;

const RECORDS: u32 = 1;

const OVER: u32 = 2;

// The bytes of a head or a record that is not whole yet, how many they are, what the reader waits for, whether it takes
// a strip of any version, and the version: the strip's, once its head is known; before it the only one that is taken, and
// 1 where any is.
//
// The room for the bytes is fixed, as all memory of the library and of its programs is, so their number stands beside it.
// Of the version and whether any is taken the definitions `begun` and `asked` speak, and the theorem `any_cutting`.
#[derive(Clone, Copy)]
pub struct Reader {
    pub held: [u8; HEAD_BYTES],
    pub count: usize,
    pub stage: u32,
    pub any: bool,
    pub version: Version,
}

// What comes out: nothing yet; the head; the figures of a record; a gap; the end, after the last whole record; or the
// reply's number with which the head or the next record is refused. It is a number, and no `Refusal`: what takes it, as
// `is_more` does, takes any number there.
#[derive(Clone, Copy)]
pub enum Got {
    More,
    Head(Head),
    Record(Figures),
    Gap,
    End,
    Refused(u32),
}

// What came out, and the reader that goes on.
#[derive(Clone, Copy)]
pub struct Step {
    pub reader: Reader,
    pub got: Got,
}

// The same of a block, and how many of its bytes were used.
#[derive(Clone, Copy)]
pub struct Next {
    pub reader: Reader,
    pub used: usize,
    pub got: Got,
}

// Whether nothing came out yet.
#[tactic(auto, unfolding(crate::specs::Reader::handed, crate::specs::Reader::is_more))]
pub fn is_more(got: Got) -> bool
    ensures { result ≡ is_more (handed got) }
{
    matches!(got, Got::More)
}

// The head that bytes begin with: in the version that they say, where any is taken, and otherwise in the one that is.
#[tactic(auto, using(strip_format::specs::Laws::Answers::head_read_is), unfolding(crate::specs::Reader::asked))]
fn head_of(any: bool, version: Version, bytes: &[u8]) -> Result<Head, Refusal>
    ensures { head_read_of result ≡ read_head (asked any version bytes.now) bytes.now }
{
    if any {
        read_head(bytes)
    } else {
        read_head_in(version, bytes)
    }
}

// A reader holds so many bytes with the last one. A head that is whole comes out; one that is refused ends the strip; where
// bytes are missing, they are waited for.
#[tactic(auto, unfolding(crate::specs::Reader::step_of, crate::specs::Reader::handed, crate::specs::Reader::head_fed, strip_format::specs::Calls::head_read_of, strip_format::specs::Calls::refused_head, units::specs::Handed::number_of))]
fn with_head(
    reader: Reader,
    held: [u8; HEAD_BYTES],
    count: usize,
    read: Result<Head, Refusal>,
) -> Step
    ensures { step_of result ≡ head_fed reader held count (head_read_of read) }
{
    match read {
        Ok(head) => Step {
            reader: Reader {
                held,
                count: 0,
                stage: RECORDS,
                version: head.version,
                ..reader
            },
            got: Got::Head(head),
        },
        Err(Refusal::Cut) => Step {
            reader: Reader {
                held,
                count,
                stage: HEAD,
                ..reader
            },
            got: Got::More,
        },
        Err(refusal) => Step {
            reader: Reader {
                held,
                count: 0,
                stage: OVER,
                ..reader
            },
            got: Got::Refused(refusal.number()),
        },
    }
}

// The same of a record. There is a byte at least, so the strip does not end there.
#[tactic(auto, unfolding(crate::specs::Reader::step_of, crate::specs::Reader::handed, crate::specs::Reader::record_fed, crate::specs::Reader::record_found, strip_format::specs::Calls::read_of, units::specs::Handed::number_of))]
fn with_record(
    reader: Reader,
    held: [u8; HEAD_BYTES],
    count: usize,
    read: Result<Option<Entry>, Refusal>,
) -> Step
    requires { read ≢ Ok None }
    ensures { step_of result ≡ record_fed reader held count (read_of read) }
{
    match read {
        Ok(Some(entry)) => Step {
            reader: Reader {
                held,
                count: 0,
                stage: RECORDS,
                ..reader
            },
            got: match entry {
                Entry::Record(figures) => Got::Record(figures),
                Entry::Gap => Got::Gap,
            },
        },
        Ok(None) | Err(Refusal::Cut) => Step {
            reader: Reader {
                held,
                count,
                stage: RECORDS,
                ..reader
            },
            got: Got::More,
        },
        Err(refusal) => Step {
            reader: Reader {
                held,
                count: 0,
                stage: OVER,
                ..reader
            },
            got: Got::Refused(refusal.number()),
        },
    }
}

impl Reader {
    // A reader that has seen no byte, of a strip of any version.
    #[tactic(auto, unfolding(crate::specs::Reader::fresh, crate::specs::Reader::begun))]
    pub fn new() -> Reader
        ensures { result ≡ fresh }
    {
        Reader {
            held: [0; HEAD_BYTES],
            count: 0,
            stage: HEAD,
            any: true,
            version: Version::One,
        }
    }

    // A reader that has seen no byte, of a strip of one version: another is refused with 7.
    #[tactic(auto, unfolding(crate::specs::Reader::fresh_in, crate::specs::Reader::begun))]
    pub fn of(version: Version) -> Reader
        ensures { result ≡ fresh_in version }
    {
        Reader {
            held: [0; HEAD_BYTES],
            count: 0,
            stage: HEAD,
            any: false,
            version,
        }
    }

    // Whether a handed-in reader passes: there is room for one more byte, and it waits for something that there is.
    #[tactic(auto, unfolding(crate::specs::Reader::passes))]
    pub fn passes(self) -> bool
        ensures { result ≡ passes self }
    {
        (self.count < HEAD_BYTES) & (self.stage <= OVER)
    }

    // Takes the next byte of the strip. A reader that fails its test is refused with 4 and stays as it is; after a
    // refusal of the strip nothing comes out any more.
    pub fn take(self, byte: u8) -> Step
        ensures { step_of result ≡ fed self byte }
    {
        if !self.passes() {
            return Step {
                reader: self,
                got: Got::Refused(Refusal::Setting.number()),
            };
        }
        let at = self.count;
        let n = at + 1;
        let mut held = self.held;
        held[at] = byte;
        if self.stage == HEAD {
            let read = head_of(self.any, self.version, &held[..n]);
            with_head(self, held, n, read)
        } else if self.stage == RECORDS {
            let read = read_record(self.version, &held[..n], 0);
            with_record(self, held, n, read)
        } else {
            Step {
                reader: self,
                got: Got::More,
            }
        }
    }

    // What the end of the strip gives: the end after a whole record or the head alone, 5 inside of one; nothing after a
    // refusal. A reader that fails its test is refused with 4.
    #[tactic(auto, unfolding(crate::specs::Reader::handed, crate::specs::Reader::finished, units::specs::Handed::number_of))]
    pub fn finish(self) -> Got
        ensures { handed result ≡ finished self }
    {
        if !self.passes() {
            return Got::Refused(Refusal::Setting.number());
        }
        match self.stage {
            RECORDS if self.count == 0 => Got::End,
            HEAD | RECORDS => Got::Refused(Refusal::Cut.number()),
            _ => Got::More,
        }
    }

    // Takes the bytes of a block from a place on, until something comes out or the block is used up.
    pub fn next(self, block: &[u8], at: usize) -> Next
        ensures { next_of result ≡ next self (drop at block.now) }
    {
        let mut reader = self;
        let mut used = 0;
        let start = at.min(block.len());
        for &byte in &block[start..] {
            let step = reader.take(byte);
            reader = step.reader;
            used += 1;
            if !is_more(step.got) {
                return Next {
                    reader,
                    used,
                    got: step.got,
                };
            }
        }
        Next {
            reader,
            used,
            got: Got::More,
        }
    }
}
