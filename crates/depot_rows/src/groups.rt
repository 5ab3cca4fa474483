// Deliveries that a batch does together: what they are answered, and what is read of which files.
use crate::calls::Calls;
use crate::known::{EMPTY, MAIL, Seen, entries, served};
use crate::shelf::Asked;
use depot_actions::{Depot, Refusal};
use sqlite::Alter;
use std::alloc::Global;
use std::test::Fail;

// How many files were opened.
fn opened(asked: &[Asked]) -> usize {
    asked
        .iter()
        .filter(|asked| matches!(asked, Asked::Opened(_)))
        .count()
}

// Whether all lines were read and answered so, with status 0, and this many files were opened.
fn is_whole(seen: &Seen<Vec<u8>>, given: usize, answer: &[u8], files: usize) -> bool {
    seen.status == 0
        && seen.given == given as u64
        && seen.out.as_slice() == answer
        && opened(&seen.asked) == files
}

// So many deliveries to ann.
fn deliveries(alloc: Global, count: usize) -> Result<Vec<u8>, Fail> {
    let mut lines = Vec::new(alloc);
    for _ in 0..count {
        lines.extend_from_slice(b"deliver ann mail\n")?;
    }
    Ok(lines)
}

// What they are answered, from this number on.
fn filed(alloc: Global, first: usize, count: usize) -> Result<Vec<u8>, Fail> {
    let mut text = Vec::new(alloc);
    for number in first..first.saturating_add(count) {
        let line = format!(in alloc; "{number} message \"INBOX\"\n= 0\n")?;
        text.extend_from_slice(line.as_bytes())?;
    }
    Ok(text)
}

// Whether lines that are all ready are answered so and nothing is told, with status 0, and this many files are opened.
fn are_answered<S: Alter>(
    alloc: Global,
    depot: &mut Result<Depot<S>, Refusal>,
    lines: &[u8],
    answer: &[u8],
    files: usize,
) -> Result<bool, Fail> {
    let seen = served(alloc, depot, [MAIL, EMPTY], 65_536, lines, Vec::new(alloc))?;
    Ok(is_whole(&seen, lines.len(), answer, files) && seen.err.is_empty())
}

// Three texts, one after another.
fn joined(alloc: Global, texts: [&[u8]; 3]) -> Result<Vec<u8>, Fail> {
    let mut whole = Vec::new(alloc);
    for text in texts {
        whole.extend_from_slice(text)?;
    }
    Ok(whole)
}

// Whether lines are answered in a new depot by three texts, and how many entries it has then.
fn answered(
    alloc: Global,
    lines: &[u8],
    texts: [&[u8]; 3],
    files: usize,
) -> Result<(bool, usize), Fail> {
    let answer = joined(alloc, texts)?;
    let mut depot = Depot::in_memory(alloc);
    let is_answered = are_answered(alloc, &mut depot, lines, &answer, files)?;
    Ok((is_answered, entries(&mut depot)?))
}

#[test]
fn withdrawn_groups(rt: HostRuntime) -> Result<(), Fail> {
    let alloc = rt.alloc();
    let one = b"1 message \"INBOX\"\n= 0\n";
    let refused = b"refused 44 UserName\n= 1\n";
    let unread = b"refused 46 Read\n= 1\n";
    let wrong = b"? deliver USER MESSAGE\n= 2\n";
    let two = b"2 message \"INBOX\"\n= 0\n";
    // each lines, the answers, and how many files are opened: those of the group, and again those of the lines
    let rows: [(&[u8], [&[u8]; 3], usize); 6] = [
        (
            b"deliver ann mail\ndeliver ANN mail\ndeliver ann mail\n",
            [one, refused, two],
            6,
        ),
        (
            b"deliver ann mail\ndeliver ann mail\ndeliver ANN mail\n",
            [one, two, refused],
            6,
        ),
        (
            b"deliver ann mail\ndeliver ann none\ndeliver ann mail\n",
            [one, unread, two],
            5,
        ),
        (
            b"deliver ann mail\ndeliver ann mail\ndeliver ann none\n",
            [one, two, unread],
            6,
        ),
        (
            b"deliver ann mail\ndeliver ann\ndeliver ann mail\n",
            [one, wrong, two],
            3,
        ),
        (
            b"deliver ann mail\ndeliver ann mail\ndeliver ann mail mail\n",
            [one, two, wrong],
            4,
        ),
    ];
    for (lines, texts, opened) in rows {
        let (is_answered, count) = answered(alloc, lines, texts, opened)?;
        assert!(rt; is_answered, "{opened}");
        assert_eq!(rt; count, 2, "{opened}");
    }
    Ok(())
}

// Eleven deliveries with another command between, and the beginning of a line.
fn mixed_lines(alloc: Global) -> Result<Vec<u8>, Fail> {
    let mut lines = deliveries(alloc, 9)?;
    lines.extend_from_slice(b"list eve\ndeliver ann mail\ndeliver ann mail\ndeliver")?;
    Ok(lines)
}

// What they are answered.
fn mixed_answers(alloc: Global) -> Result<Vec<u8>, Fail> {
    let mut answer = filed(alloc, 1, 9)?;
    answer.extend_from_slice(b"none\n= 0\n")?;
    answer.extend_from_slice(filed(alloc, 10, 2)?.as_slice())?;
    answer.extend_from_slice(b"? the input ended within this line\n= 2\n")?;
    Ok(answer)
}

// Whether these lines, of which so many octets are ready at a time, are answered so, and each delivery opens a file.
fn are_answered_as_ready<S: Alter>(
    alloc: Global,
    depot: &mut Result<Depot<S>, Refusal>,
    ready: usize,
    lines: &[u8],
    answer: &[u8],
) -> Result<bool, Fail> {
    let seen = served(alloc, depot, [MAIL, EMPTY], ready, lines, Vec::new(alloc))?;
    Ok(is_whole(&seen, lines.len(), answer, 11))
}

// Whether the mixed lines are answered so in a new depot.
fn is_answered_as_ready(alloc: Global, ready: usize) -> Result<bool, Fail> {
    let lines = mixed_lines(alloc)?;
    let answer = mixed_answers(alloc)?;
    let mut depot = Depot::in_memory(alloc);
    are_answered_as_ready(alloc, &mut depot, ready, &lines, &answer)
}

#[test]
fn whatever_is_ready(rt: HostRuntime) -> Result<(), Fail> {
    for ready in [1, 16, 17, 33, 34, 35, 60, 1_000] {
        assert!(rt; is_answered_as_ready(rt.alloc(), ready)?, "{ready}");
    }
    Ok(())
}

// Whether lines that are all ready, whose answers are written in so many calls of an octet each, are all read, and answered up
// to there.
fn is_answered_up_to<S: Alter>(
    rt: &HostRuntime,
    depot: &mut Result<Depot<S>, Refusal>,
    lines: &[u8],
    answer: &[u8],
    calls: usize,
) -> Result<bool, Fail> {
    let out = Calls::new(rt, 1, calls);
    let seen = served(rt.alloc(), depot, [MAIL, EMPTY], 65_536, lines, out)?;
    let written = &answer[..calls.min(answer.len())];
    Ok(
        seen.ends(1, b"refused 45 Write\n")
            && seen.given == lines.len() as u64
            && seen.out.octets.as_slice() == written,
    )
}

// Whether they are in a new depot, and how many entries it has then.
fn answered_up_to(
    rt: &HostRuntime,
    lines: &[u8],
    answer: &[u8],
    calls: usize,
) -> Result<(bool, usize), Fail> {
    let mut depot = Depot::in_memory(rt.alloc());
    let is_answered = is_answered_up_to(rt, &mut depot, lines, answer, calls)?;
    Ok((is_answered, entries(&mut depot)?))
}

#[test]
fn writers_that_fail_in_a_group(rt: HostRuntime) -> Result<(), Fail> {
    let alloc = rt.alloc();
    let lines = deliveries(alloc, 3)?;
    let answer = filed(alloc, 1, 3)?;
    for calls in 0..answer.len() {
        let (is_answered, count) = answered_up_to(&rt, &lines, &answer, calls)?;
        assert!(rt; is_answered, "{calls}");
        assert_eq!(rt; count, 3, "{calls}");
    }
    Ok(())
}
