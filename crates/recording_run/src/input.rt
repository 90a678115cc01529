// A buffer that is filled by reads.

ghost use Rattle.std.specs.Prelude.{◌≡◌};
ghost use Rattle.recording_run.specs.Input.{empty_buffer, after_read};

// How many bytes of a buffer are filled, whether there may be more to read, and whether a read failed. The two flags are no
// enum: `after_read` says each by itself, and both can be set.
#[derive(Clone, Copy)]
pub struct Filled {
    pub n: usize,
    pub more: bool,
    pub failed: bool,
}

// A buffer of so many bytes, none of which is filled.
pub fn empty(most: usize) -> Filled
    ensures { result ≡ empty_buffer most }
{
    Filled {
        n: 0,
        more: 0 < most,
        failed: false,
    }
}

// After a read behind the n bytes that are filled, of a buffer of so many bytes: it brought so many, and it failed or not.
// Reading goes on as long as bytes come and the buffer is not full.
pub fn after_read(n: usize, came: usize, failed: bool, most: usize) -> Filled
    ensures { result ≡ after_read n came failed most }
{
    let now = n + came.min(most.saturating_sub(n));
    Filled {
        n: now,
        more: (0 < came) & (now < most),
        failed,
    }
}
