// The lines that the program strip prints, as bytes in a lent buffer.

#![tactic(auto)]

ghost use Rattle.std.specs.Prelude.{◌≡◌, [], ◌∷◌, ◌++◌, ◌+◌, ◌/◌, ◌^◌, ◌<◌, ◌≤◌, true, length};
ghost use Rattle.std.specs.Float.{binary32};
ghost use Rattle.std.specs.Float.Ieee.{of_bits};
ghost use Rattle.units.specs.Handed.{handed};
ghost use Rattle.units.specs.Replies.{done};
ghost use Rattle.units.specs.Ranges.{closed};
ghost use Rattle.units.specs.Output.{put};
ghost use Rattle.strip_lines.specs.Lines.{decimal, hundredths, figure, number_of, letter, flag, refusal_line};
ghost use Rattle.strip_lines.specs.Calls.{handed_line, refusal_of, line_of_record, put_record, put_refusal_line};
ghost use Rattle.strip_lines.specs.Laws.Cutting.{Printed};

use chain::{Answer, Published};
use std::marker::Model;
use units::refusals::{Refusal, check};

// No line is longer: four numbers of at most 20 digits, three signs and eight single characters fit into so many bytes.
pub const LONGEST: usize = 96;

// What a line is of: a frame, with what it was; or a gap.
#[derive(Clone, Copy)]
pub enum Kind {
    Frame(Answer),
    Gap,
}

impl Kind {
    // The letter of what a line is of.
    #[tactic(auto, unfolding(crate::specs::Lines::letter, chain::specs::Answer::said))]
    fn letter(self) -> u8
        ensures { result ∷ [] ≡ letter (number_of self) }
    {
        match self {
            Kind::Frame(Answer::NonSpeech) => b'N',
            Kind::Frame(Answer::Waiting(_)) => b'W',
            Kind::Frame(Answer::Publishing(..)) => b'P',
            Kind::Gap => b'G',
        }
    }
}

// The digit of a flag.
fn digit(b: bool) -> u8
    ensures { result ≡ flag b }
{
    if b { b'1' } else { b'0' }
}

// A number of parts, of which 2^places make one, as a number of wholes: cut toward zero.
fn cut(parts: u64, places: u32) -> u64
    requires places_nonzero { 0 < places }
    requires places_bound { places < 64 }
    ensures { result ≡ parts / 2 ^ places }
{
    parts >> places
}

// A figure from -150 to 150, as all are that a line shows.
#[derive(Clone, Copy)]
struct Figure {
    value: f32,
    ghost in_range: { closed (of_bits binary32 0xc316_0000) value (of_bits binary32 0x4316_0000) ≡ true },
}

impl Figure {
    // How many hundredths a figure is from zero, cut.
    fn hundredths(self) -> u64
        ensures { result ≡ hundredths self.value }
    {
        // The exponent is below 119 exactly where the magnitude is below 2^-8, which is less than a hundredth. Any
        // other magnitude is digits times 2^(exponent - 150), and below 2^8: at least 16 places are cut, at most 31.
        let bits = bits::bits_of(floats::magnitude(self.value));
        let exponent = bits / 8388608;
        let digits = bits % 8388608 + 8388608;
        if exponent < 119 {
            0
        } else {
            cut(100 * u64::from(digits), 150 - exponent)
        }
    }
}

// The text of a line, as far as it is made.
#[derive(Drop)]
struct Text {
    bytes: [u8; LONGEST],
    len: usize,
}

impl Model for Text {
    ghost use Rattle.std.specs.Prelude.{◌≤◌, List, ℕ, take};

    ghost Value = { List ℕ };

    ghost view = { λ a. take a.len a.bytes };

    ghost invariant = { λ a. a.len ≤ 96 };
}

impl Text {
    // A text of no byte.
    fn new() -> Text
        ensures { result ≡ [] }
    {
        Text {
            bytes: [0; LONGEST],
            len: 0,
        }
    }

    // Appends some bytes.
    fn push(&mut self, part: &[u8])
        requires { length self.old + length part.now ≤ 96 }
        ensures text { self.new ≡ self.old ++ part.now }
        ensures len { length self.new ≡ length self.old + length part.now }
    {
        let end = self.len + part.len();
        self.bytes[self.len..end].copy_from_slice(part);
        self.len = end;
    }

    // Appends the decimal digits of a number.
    #[tactic(auto, using(crate::specs::Laws::Spelling::decimal_digits))]
    fn push_number(&mut self, n: u64)
        requires { length self.old + 20 ≤ 96 }
        ensures text { self.new ≡ self.old ++ decimal n }
        ensures len { length self.new ≤ length self.old + 20 }
    {
        let mut digits = [0; 20];
        let count = io::decimal(n, &mut digits);
        self.push(&digits[..count]);
    }

    // Appends a figure's hundredths, with a sign where they are below zero.
    fn push_figure(&mut self, x: Figure)
        requires { length self.old + 21 ≤ 96 }
        ensures text { self.new ≡ self.old ++ figure x.value }
        ensures len { length self.new ≤ length self.old + 21 }
    {
        let n = x.hundredths();
        let signed = (x.value < 0.0) & (0 < n);
        if signed {
            self.push(b"-");
        }
        self.push_number(n);
    }

    // Puts the text to the start of a lent buffer, and answers how many bytes it has. A buffer that is too short is refused with
    // 8, and stays as it was.
    fn put_into(&self, out: &mut [u8]) -> Result<usize, Refusal>
        ensures value { result ≡ handed (put done self.now out.old).reply (length self.now) }
        ensures out_after { out.new ≡ (put done self.now out.old).out }
    {
        let line = &self.bytes[..self.len];
        if out.len() < line.len() {
            return Err(Refusal::Room);
        }
        out[..line.len()].copy_from_slice(line);
        Ok(line.len())
    }
}

// The text of a record's line.
fn record_text(number: u64, kind: Kind, shown: Published) -> Text
    requires { Printed shown.level.0 shown.headroom.0 shown.gain.0 }
    ensures { result ≡ line_of_record number (number_of kind) shown }
{
    let mut text = Text::new();
    text.push_number(number);
    text.push(&[b' ', kind.letter(), b' ']);
    text.push_figure(Figure {
        value: shown.level.0,
    });
    text.push(b" ");
    text.push_figure(Figure {
        value: shown.headroom.0,
    });
    text.push(b" ");
    text.push_figure(Figure {
        value: shown.gain.0,
    });
    text.push(&[b' ', digit(shown.confident), b'\n']);
    text
}

// The text of a refusal's line.
fn refusal_text(number: u64, reply: u32) -> Text
    ensures { result ≡ refusal_line number reply }
{
    let mut text = Text::new();
    text.push_number(number);
    text.push(b" R ");
    text.push_number(u64::from(reply));
    text.push(b"\n");
    text
}

// Refuses with 2 what a line cannot show: a figure out of its range.
fn check_figures(shown: Published) -> Result<(), Refusal>
    ensures { result ≡ handed (refusal_of shown) tt }
{
    let figure = units::figures::is_level(shown.level)
        & units::figures::is_headroom(shown.headroom)
        & units::figures::is_gain(shown.gain);
    check(true, true, figure, true)
}

// Writes the line of a record to the start of a lent buffer, and answers how many bytes it has: the record's number, what it is of,
// the level, the headroom and the gain that stand after it, and whether the level is confident. Refused, in this order, are
// a figure out of its range with 2 and a buffer that is too short with 8; nothing is written then.
pub fn record_line(
    number: u64,
    kind: Kind,
    shown: Published,
    out: &mut [u8],
) -> Result<usize, Refusal>
    ensures value { result ≡ handed_line (put_record number (number_of kind) shown out.old) (line_of_record number (number_of kind) shown) }
    ensures out_after { out.new ≡ (put_record number (number_of kind) shown out.old).out }
{
    check_figures(shown)?;
    record_text(number, kind, shown).put_into(out)
}

// Writes the line of a refusal to the start of a lent buffer, and answers how many bytes it has: the record's number, R, and the
// reply's. A buffer that is too short is refused with 8, and nothing is written.
//
// The reply is a number, and no Refusal: any number can be written.
pub fn refusal_line(number: u64, reply: u32, out: &mut [u8]) -> Result<usize, Refusal>
    ensures value { result ≡ handed_line (put_refusal_line number reply out.old) (refusal_line number reply) }
    ensures out_after { out.new ≡ (put_refusal_line number reply out.old).out }
{
    refusal_text(number, reply).put_into(out)
}
