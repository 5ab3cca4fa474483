// Answers, and devices that fail under them.

use crate::calls::Calls;
use crate::shelf::{Known, Shelf};
use depot_jobs::{File, Job, Runner, Tool, answer};
use devices::OfWrite;
use encodings::Encoding;

const NOTHING: Known<'static> = Known {
    name: "",
    octets: b"",
};

// Answers a job to two devices, and gives the status and the devices.
fn answered(
    rt: &HostRuntime,
    job: Job<'_>,
    to_out: Calls,
    to_err: Calls,
) -> (u8, OfWrite<Calls>, OfWrite<Calls>) {
    let mut host = Shelf::new(rt.alloc(), NOTHING, NOTHING, b"", 0);
    let mut out = OfWrite::new(to_out);
    let mut err = OfWrite::new(to_err);
    let status = answer(rt.alloc(), job, &mut host, &mut out, &mut err);
    (status, out, err)
}

// Bytes as a file without a name.
fn file(octets: &[u8]) -> File<'_> {
    File { name: "", octets }
}

// A device that takes whatever it is given.
fn whole(rt: &HostRuntime) -> Calls {
    Calls::new(rt, 100, 100)
}

// Whether a job is answered in calls of these lengths, and nothing is told on standard error.
fn is_answered_by(rt: &HostRuntime, job: Job<'_>, lengths: &[usize]) -> bool {
    let (status, out, err) = answered(rt, job, whole(rt), whole(rt));
    status == 0 && out.inner.lengths.as_slice() == lengths && err.inner.octets.is_empty()
}

#[test]
fn each_line_is_one_call(rt: HostRuntime) {
    let script = file(b"keep; discard;");
    assert!(rt; is_answered_by(&rt, Job::OnFile(Tool::Check, script), &[3]));
    let job = Job::OnMessage(Runner::Eval, script, file(b""));
    assert!(rt; is_answered_by(&rt, job, &[20]));
}

// Whether a job is refused with this line alone, in one call.
fn is_refused_by(rt: &HostRuntime, job: Job<'_>, line: &[u8]) -> bool {
    let (status, _, err) = answered(rt, job, whole(rt), whole(rt));
    let Calls {
        octets,
        lengths,
        ..
    } = &err.inner;
    status == 1 && octets.as_slice() == line && lengths.as_slice() == [line.len()].as_slice()
}

#[test]
fn a_refusal_is_one_call(rt: HostRuntime) {
    let job = Job::OnFile(Tool::Check, file(b"vacation;"));
    let line = b"refused 15 UnknownCommand at 0\n";
    assert_eq!(rt; line.len(), 31);
    assert!(rt; is_refused_by(&rt, job, line));
}

/// What foobar is encoded as, in lines.
const FOOBAR: &[u8] = b"Zm9vYmFy\r\n";

// Encodes foobar to a writer that takes an octet in each of so many calls.
fn encoded(rt: &HostRuntime, calls: usize) -> (u8, OfWrite<Calls>, OfWrite<Calls>) {
    let encoding = Encoding::Base64Mime;
    let job = Job::OnFile(Tool::Encode { encoding }, file(b"foobar"));
    answered(rt, job, Calls::new(rt, 1, calls), whole(rt))
}

// Whether it breaks off after so many calls, and says so.
fn breaks_off(rt: &HostRuntime, calls: usize) -> bool {
    let (status, out, err) = encoded(rt, calls);
    status == 1
        && out.faults == 1
        && out.inner.octets.as_slice() == &FOOBAR[..calls.min(FOOBAR.len())]
        && err.inner.octets.as_slice() == b"refused 45 Write\n".as_slice()
}

// Whether it is written whole, and nothing is told.
fn is_written(rt: &HostRuntime, calls: usize) -> bool {
    let (status, out, err) = encoded(rt, calls);
    status == 0 && out.inner.octets.as_slice() == FOOBAR && err.inner.octets.is_empty()
}

#[test]
fn an_answer_that_breaks_off(rt: HostRuntime) {
    for calls in 0..FOOBAR.len() {
        assert!(rt; breaks_off(&rt, calls), "{calls}");
    }
}

#[test]
fn an_answer_that_just_fits(rt: HostRuntime) {
    for calls in [FOOBAR.len(), 11] {
        assert!(rt; is_written(&rt, calls), "{calls}");
    }
}

// Whether a refusal whose line is written in so many calls of an octet each is written up to there, and nothing is answered.
fn is_told_up_to(rt: &HostRuntime, calls: usize) -> bool {
    let told = b"refused 10 NotCanonical\n".as_slice();
    let encoding = Encoding::Base32;
    let job = Job::OnFile(Tool::Decode { encoding }, file(b"MZ======"));
    let (status, out, err) = answered(rt, job, whole(rt), Calls::new(rt, 1, calls));
    status == 1
        && err.inner.octets.as_slice() == &told[..calls.min(24)]
        && out.inner.octets.is_empty()
}

#[test]
fn refusals_that_break_off(rt: HostRuntime) {
    for calls in 0..25usize {
        assert!(rt; is_told_up_to(&rt, calls), "{calls}");
    }
}
