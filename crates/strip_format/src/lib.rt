// The strip: a head with the settings, then a record of figures for each frame, and in version 2 a gap where frames were
// lost. Big-endian, floats as their bits. Heads, records and gaps are read from bytes and written into a lent buffer.

#![tactic(auto)]

ghost use Rattle.std.specs.Prelude.{◌≡◌, ◌&&◌, leb, ◌++◌, ◌+◌, ◌<◌, ◌≤◌, length, take, drop, map};
ghost use Rattle.bits.specs.Floats.{float_of, pattern_of};
ghost use Rattle.units.specs.Replies.{done};
ghost use Rattle.units.specs.Handed.{handed};
ghost use Rattle.units.specs.Output.{put};
ghost use Rattle.strip_format.specs.Fields.{size, big_endian, number_at, fields_at};
ghost use Rattle.strip_format.specs.Format.{number_of, threshold_bytes, largest_said, has_gaps, version_of, float_fields, head_fields, head_of, head_bytes, record_fields, figures_of, record_bytes, gap_fields};
ghost use Rattle.strip_format.specs.Calls.{head_refusal, read_head, record_refusal, read_record, is_gap, told, told_of, put_head, put_record, put_gap};
ghost use Rattle.strip_format.specs.Steps.{Says, head_place, record_place, floats_bytes};

use units::figures::Figures;
use units::kinds::{Db, Dbfs};
use units::refusals::{Refusal, check};
use units::settings::{LARGEST_THRESHOLD, Settings};

// The largest threshold that version 1 can say. Version 2 says all that a chain takes.
const LARGEST_IN_ONE: u32 = 200;

// The bytes of a length field, of a float and of five floats.
const LENGTH_BYTES: usize = 2;

const FLOAT_BYTES: usize = 4;

const FLOATS_BYTES: usize = 5 * FLOAT_BYTES;

// Where the version and the threshold of a head stand, after its length. The bytes of the threshold are the version's.
const VERSION_AT: usize = LENGTH_BYTES;

const THRESHOLD_AT: usize = VERSION_AT + 1;

// The bytes of the samples, and of all that follows the threshold.
const SAMPLES_BYTES: usize = 2;

const AFTER_THRESHOLD: usize = SAMPLES_BYTES + FLOATS_BYTES;

// The bytes of the longest head: that of version 2.
pub const HEAD_BYTES: usize = THRESHOLD_AT + 2 + AFTER_THRESHOLD;

// The bytes of a whole record, and what its length field says.
pub const RECORD_BYTES: usize = LENGTH_BYTES + FLOATS_BYTES;

const RECORD_LENGTH: u16 = FLOATS_BYTES as u16;

// The bytes of a gap, which is a length field alone, and what it says.
pub const GAP_BYTES: usize = LENGTH_BYTES;

const GAP_LENGTH: u16 = 0;

// The versions of the strip.
#[derive(Clone, Copy, Debug, PartialEq, Eq, Hash)]
pub enum Version {
    One = 1,
    Two = 2,
}

// What a strip's head holds: its version, how many adjacent speech frames make a reading, the samples of a channel,
// and the settings.
#[derive(Clone, Copy)]
pub struct Head {
    pub version: Version,
    pub threshold: u32,
    pub samples: usize,
    pub settings: Settings,
}

// What a record says: the figures of a frame, or a gap where frames were lost.
#[derive(Clone, Copy)]
pub enum Entry {
    Record(Figures),
    Gap,
}

impl Version {
    // The number that says it.
    fn number(self) -> u8
        ensures { result ≡ number_of self }
    {
        self as u8
    }

    // How many bytes the threshold has.
    fn threshold_bytes(self) -> usize
        ensures value { result ≡ threshold_bytes self }
        ensures upper_bound { result ≤ 2 }
    {
        match self {
            Version::One => 1,
            Version::Two => 2,
        }
    }

    // The largest threshold that it can say.
    fn largest_threshold(self) -> u32
        ensures { result ≡ largest_said self }
    {
        match self {
            Version::One => LARGEST_IN_ONE,
            Version::Two => LARGEST_THRESHOLD,
        }
    }

    // Whether a record of length 0 is a gap.
    fn has_gaps(self) -> bool
        ensures { result ≡ has_gaps self }
    {
        self == Version::Two
    }
}

// The version of a number. Any other number is refused.
impl TryFrom<u8> for Version {
    type Error = Refusal;

    ghost try_from_gives = { Says };

    #[tactic(auto, unfolding(crate::specs::Steps::Says))]
    fn try_from(number: u8) -> Result<Version, Refusal> {
        match number {
            1 => Ok(Version::One),
            2 => Ok(Version::Two),
            _ => Err(Refusal::Version),
        }
    }
}

// The bytes of a whole head.
pub fn head_size(version: Version) -> usize
    ensures value { result ≡ size (head_fields version) }
    ensures upper_bound { result ≤ 27 }
{
    THRESHOLD_AT + version.threshold_bytes() + AFTER_THRESHOLD
}

// The version that a strip is read in: the one that its third byte says, and 1 where that says none.
#[tactic(auto, using(crate::specs::Laws::Steps::third_byte), unfolding(crate::specs::Steps::Says, crate::specs::Format::version_of))]
fn version_of(strip: &[u8]) -> Version
    ensures { result ≡ version_of strip.now }
{
    match strip.get(VERSION_AT) {
        Some(&number) => Version::try_from(number).unwrap_or(Version::One),
        None => Version::One,
    }
}

// The number of the two bytes at a place.
#[tactic(auto, unfolding(crate::specs::Fields::number_at))]
fn two_at(strip: &[u8], at: usize) -> u16
    requires { at + 2 ≤ length strip.now }
    ensures { result ≡ number_at strip.now at 2 }
{
    u16::from_be_bytes([strip[at], strip[at + 1]])
}

// The float whose bits are the four bytes at a place: a NaN where they are a NaN's.
#[tactic(auto, unfolding(crate::specs::Fields::number_at))]
fn float_at(strip: &[u8], at: usize) -> f32
    requires { at + 4 ≤ length strip.now }
    ensures { result ≡ float_of (number_at strip.now at 4) }
{
    bits::float_of(u32::from_be_bytes([strip[at], strip[at + 1], strip[at + 2], strip[at + 3]]))
}

// The five floats from a place on.
#[tactic(auto, unfolding(crate::specs::Fields::fields_at))]
fn floats_at(strip: &[u8], at: usize) -> [f32; 5]
    requires { at + size float_fields ≤ length strip.now }
    ensures { result ≡ map float_of (fields_at float_fields strip.now at) }
{
    [
        float_at(strip, at),
        float_at(strip, at + FLOAT_BYTES),
        float_at(strip, at + 2 * FLOAT_BYTES),
        float_at(strip, at + 3 * FLOAT_BYTES),
        float_at(strip, at + 4 * FLOAT_BYTES),
    ]
}

// The threshold of a head, in as many bytes as its version has for it.
#[tactic(auto, unfolding(crate::specs::Fields::number_at))]
fn threshold_at(version: Version, strip: &[u8]) -> u32
    requires { 3 + threshold_bytes version ≤ length strip.now }
    ensures { result ≡ number_at strip.now 3 (threshold_bytes version) }
{
    match version {
        Version::One => strip[THRESHOLD_AT] as u32,
        Version::Two => two_at(strip, THRESHOLD_AT) as u32,
    }
}

// The head of a version that the first bytes are, whatever its numbers.
#[tactic(auto, unfolding(crate::specs::Fields::fields_at, crate::specs::Format::head_of))]
fn head_at(version: Version, strip: &[u8]) -> Head
    requires { size (head_fields version) ≤ length strip.now }
    ensures { result ≡ head_of version (fields_at (head_fields version) strip.now 0) }
{
    let at = THRESHOLD_AT + version.threshold_bytes();
    let [headroom, largest, initial, change, noise] = floats_at(strip, at + SAMPLES_BYTES);
    Head {
        version,
        threshold: threshold_at(version, strip),
        samples: two_at(strip, at) as usize,
        settings: Settings {
            headroom: Db(headroom),
            largest: Db(largest),
            initial: Db(initial),
            change,
            noise: Dbfs(noise),
        },
    }
}

// The figures that the record at a place has, whatever they are.
#[tactic(auto, unfolding(crate::specs::Fields::fields_at, crate::specs::Format::figures_of))]
fn figures_at(strip: &[u8], at: usize) -> Figures
    requires { at + size record_fields ≤ length strip.now }
    ensures { result ≡ figures_of (fields_at record_fields strip.now at) }
{
    let [probability, rms, peak, noise, envelope] = floats_at(strip, at + LENGTH_BYTES);
    Figures {
        probability,
        rms: Dbfs(rms),
        peak: Dbfs(peak),
        noise: Dbfs(noise),
        envelope: Dbfs(envelope),
    }
}

// Refuses a whole head: its samples with 1, its settings or its threshold with 4.
#[tactic(auto, unfolding(crate::specs::Calls::head_refusal))]
fn check_head(head: Head) -> Result<(), Refusal>
    ensures { result ≡ handed (head_refusal head) tt }
{
    let most = head.version.largest_threshold();
    let threshold = (1 <= head.threshold) & (head.threshold <= most);
    let setting = head.settings.accepted() & threshold;
    check(frames::is_samples(head.samples), setting, true, true)
}

// Refuses whole figures of which one is out of its range with 2.
#[tactic(auto, unfolding(crate::specs::Calls::record_refusal))]
fn check_figures(figures: Figures) -> Result<(), Refusal>
    ensures { result ≡ handed (record_refusal figures) tt }
{
    check(true, true, figures.accepted(), true)
}

// The refusals of a strip's head that come before its numbers: fewer than 3 bytes, the version, the length,
// a head that is cut.
#[tactic(auto, using(crate::specs::Laws::Steps::third_byte), unfolding(crate::specs::Steps::head_place, units::specs::Handed::handed, units::specs::Handed::refusal_of))]
fn check_head_place(version: Version, strip: &[u8]) -> Result<(), Refusal>
    ensures { result ≡ handed (head_place version strip.now) tt }
{
    let bytes = head_size(version);
    let due = bytes - LENGTH_BYTES;
    if strip.len() < THRESHOLD_AT {
        Err(Refusal::Cut)
    } else if strip[VERSION_AT] != version.number() {
        Err(Refusal::Version)
    } else if two_at(strip, 0) as usize != due {
        Err(Refusal::Length)
    } else if strip.len() < bytes {
        Err(Refusal::Cut)
    } else {
        Ok(())
    }
}

// The head that a strip of a version begins with. Refused, in this order, are fewer than 3 bytes with 5, another version
// with 7, another length than the version's with 6, a head that is cut with 5, samples with 1, and settings or a
// threshold that the version cannot say with 4.
pub fn read_head_in(version: Version, strip: &[u8]) -> Result<Head, Refusal>
    ensures { result ≡ handed (read_head version strip.now).reply (read_head version strip.now).head }
{
    check_head_place(version, strip)?;
    let head = head_at(version, strip);
    check_head(head)?;
    Ok(head)
}

// The head that a strip begins with, in the version that it says. The refusals are the same; 7 is for a version that is
// neither 1 nor 2.
pub fn read_head(strip: &[u8]) -> Result<Head, Refusal>
    ensures { result ≡ handed (read_head (version_of strip.now) strip.now).reply (read_head (version_of strip.now) strip.now).head }
{
    read_head_in(version_of(strip), strip)
}

// The refusals of a record that come before its figures: a single byte, the length, a record that is cut.
#[tactic(auto, using(crate::specs::Laws::Steps::left_enough), unfolding(crate::specs::Steps::record_place, units::specs::Handed::handed, units::specs::Handed::refusal_of))]
fn check_record_place(strip: &[u8], at: usize) -> Result<(), Refusal>
    requires { at < length strip.now }
    ensures { result ≡ handed (record_place strip.now at) tt }
{
    let left = strip.len() - at;
    if left < LENGTH_BYTES {
        Err(Refusal::Cut)
    } else if two_at(strip, at) != RECORD_LENGTH {
        Err(Refusal::Length)
    } else if left < RECORD_BYTES {
        Err(Refusal::Cut)
    } else {
        Ok(())
    }
}

// Whether a gap stands at a place of a strip: two bytes that say the length 0, in a version that has gaps.
fn is_gap_at(version: Version, strip: &[u8], at: usize) -> bool
    requires { at < length strip.now }
    ensures { result ≡ leb (at + 2) (length strip.now) && is_gap version (number_at strip.now at 2) }
{
    let left = strip.len() - at;
    GAP_BYTES <= left && version.has_gaps() && two_at(strip, at) == GAP_LENGTH
}

// The record at a place of a strip of a version: figures, or in version 2 a gap; none, where the strip ends there.
// Refused, in this order, are a single byte with 5, a wrong length with 6, a record that is cut with 5, and a figure
// with 2.
pub fn read_record(version: Version, strip: &[u8], at: usize) -> Result<Option<Entry>, Refusal>
    ensures { told result ≡ told_of (read_record version strip.now at) }
{
    if strip.len() <= at {
        return Ok(None);
    }
    if is_gap_at(version, strip, at) {
        return Ok(Some(Entry::Gap));
    }
    check_record_place(strip, at)?;
    let figures = figures_at(strip, at);
    check_figures(figures)?;
    Ok(Some(Entry::Record(figures)))
}

// Stores the last two bytes of a number at a place.
fn put_two(n: usize, out: &mut [u8], at: usize)
    requires { at + 2 ≤ length out.old }
    ensures { out.new ≡ take at out.old ++ big_endian 2 n ++ drop (at + 2) out.old }
{
    let last = (n % 65536) as u16;
    out[at..at + 2].copy_from_slice(&last.to_be_bytes());
}

// Stores a threshold at a place, in as many bytes as the version has for it.
fn put_threshold(version: Version, threshold: u32, out: &mut [u8], at: usize)
    requires { at + threshold_bytes version ≤ length out.old }
    ensures { out.new ≡ take at out.old ++ big_endian (threshold_bytes version) threshold ++ drop (at + threshold_bytes version) out.old }
{
    match version {
        Version::One => out[at] = (threshold % 256) as u8,
        Version::Two => put_two(threshold as usize, out, at),
    }
}

// Stores the bits of a float in the four bytes at a place.
fn put_float(x: f32, out: &mut [u8], at: usize)
    requires { at + 4 ≤ length out.old }
    ensures { out.new ≡ take at out.old ++ big_endian 4 (pattern_of x) ++ drop (at + 4) out.old }
{
    out[at..at + FLOAT_BYTES].copy_from_slice(&bits::bits_of(x).to_be_bytes());
}

// Stores the bits of five floats in the twenty bytes at a place.
fn put_floats(floats: [f32; 5], out: &mut [u8], at: usize)
    requires { at + size float_fields ≤ length out.old }
    ensures { out.new ≡ take at out.old ++ floats_bytes floats ++ drop (at + size float_fields) out.old }
{
    let mut place = at;
    for x in floats {
        put_float(x, out, place);
        place += FLOAT_BYTES;
    }
}

// The bytes of a head, whatever its numbers; in version 1 one more byte follows them.
fn head_bytes(head: Head) -> [u8; HEAD_BYTES]
    ensures { take (size (head_fields head.version)) result ≡ head_bytes head }
{
    let version = head.version;
    let settings = head.settings;
    let at = THRESHOLD_AT + version.threshold_bytes();
    let mut bytes = [0u8; HEAD_BYTES];
    put_two(at + AFTER_THRESHOLD - LENGTH_BYTES, &mut bytes, 0);
    bytes[VERSION_AT] = version.number();
    put_threshold(version, head.threshold, &mut bytes, THRESHOLD_AT);
    put_two(head.samples, &mut bytes, at);
    let floats = [
        settings.headroom.0,
        settings.largest.0,
        settings.initial.0,
        settings.change,
        settings.noise.0,
    ];
    put_floats(floats, &mut bytes, at + SAMPLES_BYTES);
    bytes
}

// The bytes of a record, whatever its figures.
fn record_bytes(figures: Figures) -> [u8; RECORD_BYTES]
    ensures { result ≡ record_bytes figures }
{
    let mut bytes = [0u8; RECORD_BYTES];
    put_two(FLOATS_BYTES, &mut bytes, 0);
    let floats = [
        figures.probability,
        figures.rms.0,
        figures.peak.0,
        figures.noise.0,
        figures.envelope.0,
    ];
    put_floats(floats, &mut bytes, LENGTH_BYTES);
    bytes
}

// Copies all of src to the start of out, and answers how many bytes that are. Where it does not fit, nothing is written.
#[tactic(auto, unfolding(units::specs::Output::put, units::specs::Handed::handed, units::specs::Handed::refusal_of))]
fn copy(src: &[u8], out: &mut [u8]) -> Result<usize, Refusal>
    ensures value { result ≡ handed (put done src.now out.old).reply (length src.now) }
    ensures out_after { out.new ≡ (put done src.now out.old).out }
{
    let n = src.len();
    if out.len() < n {
        return Err(Refusal::Room);
    }
    out[..n].copy_from_slice(src);
    Ok(n)
}

// Writes a head to the start of a lent buffer, in its version, and answers how many bytes it has. Refused, in this order,
// are samples with 1, settings or a threshold that the version cannot say with 4, and a buffer that is too short with 8;
// nothing is written then.
pub fn write_head(head: Head, out: &mut [u8]) -> Result<usize, Refusal>
    ensures value { result ≡ handed (put_head head out.old).reply (size (head_fields head.version)) }
    ensures out_after { out.new ≡ (put_head head out.old).out }
{
    check_head(head)?;
    let bytes = head_bytes(head);
    let n = head_size(head.version);
    copy(&bytes[..n], out)
}

// Writes a record to the start of a lent buffer, and answers how many bytes it has. Refused, in this order, are figures
// with 2 and a buffer that is too short with 8; nothing is written then.
pub fn write_record(figures: Figures, out: &mut [u8]) -> Result<usize, Refusal>
    ensures value { result ≡ handed (put_record figures out.old).reply (size record_fields) }
    ensures out_after { out.new ≡ (put_record figures out.old).out }
{
    check_figures(figures)?;
    copy(&record_bytes(figures), out)
}

// Writes a gap to the start of a lent buffer, in a version, and answers how many bytes it has. Refused, in this order, are
// a version that has no gaps with 6 and a buffer that is too short with 8; nothing is written then.
#[tactic(auto, unfolding(crate::specs::Calls::put_gap, crate::specs::Format::entry_bytes, units::specs::Output::put, units::specs::Handed::handed, units::specs::Handed::refusal_of))]
pub fn write_gap(version: Version, out: &mut [u8]) -> Result<usize, Refusal>
    ensures value { result ≡ handed (put_gap version out.old).reply (size gap_fields) }
    ensures out_after { out.new ≡ (put_gap version out.old).out }
{
    if !version.has_gaps() {
        return Err(Refusal::Length);
    }
    copy(&[0u8; GAP_BYTES], out)
}
