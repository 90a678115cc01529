// What is told on standard error, one line for each, and what is said at the end on a descriptor of its own.

use recording_run::levelling::Told;
use recording_run::wave::Fault;

// Where it is said at the end that all went well, or with which reply the strip was refused.
const END_FILENO: i32 = 3;

// Tells a number, with a text before it and one after it.
pub(crate) fn tell_number(rt: &HostRuntime, before: &str, n: u64, after: &str) {
    let _ = eprint!(rt; "{before}{n}{after}");
}

// Why there are no samples to level. A read that failed was told before.
pub(crate) fn of_search(rt: &HostRuntime, fault: Fault) {
    match fault {
        Fault::Unread => {}
        Fault::NoWave => outside::tell(rt, "recording: not a WAV file\n"),
        Fault::Ends => outside::tell(rt, "recording: the WAV file ends before its samples\n"),
        Fault::NoFormat => {
            outside::tell(
                rt,
                "recording: the WAV file does not say its format before its samples\n",
            )
        }
        Fault::FormatCut => {
            outside::tell(
                rt,
                "recording: the format of the WAV file has fewer than 16 bytes\n",
            )
        }
        Fault::NotPlain => outside::tell(rt, "recording: the samples are not 16-bit PCM\n"),
        Fault::NotTogether => outside::tell(
            rt,
            "recording: the samples of the channels do not lie side by side, in two bytes each\n",
        ),
        Fault::Channels(n) => tell_number(
            rt,
            "recording: the sound has ",
            n as u64,
            " channels: 1 to 8 can be levelled\n",
        ),
        Fault::Rate(rate) => tell_number(
            rt,
            "recording: 10 ms at ",
            rate as u64,
            " Hz are no whole frame: 8000, 12000, 16000, 24000, 32000 or 48000 Hz can be levelled: sox in.wav -r 48000 out.wav makes such a file\n",
        ),
    }
}

// A strip that is for another number of samples than the recording has.
pub(crate) fn samples_differ(rt: &HostRuntime, strip: usize, recording: usize) {
    tell_number(
        rt,
        "recording: the strip has ",
        strip as u64,
        " samples a frame, ",
    );
    tell_number(rt, "and the recording ", recording as u64, "\n");
}

// A strip that is refused at the record of this number, or at its head, whose number is 0.
pub(crate) fn refused(rt: &HostRuntime, reply: u32, number: u64) {
    tell_number(rt, "", number, " R ");
    tell_number(rt, "", reply as u64, "\n");
}

// What is told of a run, if anything is.
pub(crate) fn of_run(rt: &HostRuntime, told: Option<Told>) {
    if let Some(told) = told {
        of_one(rt, told);
    }
}

// One thing that is told of a run.
fn of_one(rt: &HostRuntime, told: Told) {
    match told {
        Told::Minute(n) => tell_number(rt, "recording: ", n, " min\n"),
        Told::StripEnds(number) => tell_number(
            rt,
            "recording: the strip ends before the recording, which goes on: there is no record ",
            number,
            "\n",
        ),
        Told::Refused(reply, number) => refused(rt, reply, number),
        Told::Missing(n) => tell_number(
            rt,
            "recording: the WAV file is cut: ",
            n as u64,
            " bytes of its samples are missing\n",
        ),
        Told::SaysNone => outside::tell(
            rt,
            "recording: the WAV file says that it has no samples, and goes on behind them: was its head never put right? (sox --ignore-length reads such a file)\n",
        ),
        Told::StripGoesOn(number) => tell_number(
            rt,
            "recording: the recording ends before the strip, which goes on with record ",
            number,
            "\n",
        ),
    }
}

// What is said at the end, if anything is. Where nobody listens, nothing comes of it.
pub(crate) fn at_end(answer: Option<u32>) {
    if let Some(reply) = answer {
        io::print_decimal(END_FILENO, u64::from(reply));
    }
}
