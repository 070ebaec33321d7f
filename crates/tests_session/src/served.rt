//! Sessions over readers and writers, and their results.
use crate::parts::{assert_is, assert_that};
use crate::test_handler::TestHandler;
use std::alloc::Global;
use std::process::Abort;
use sysv_session::{End, Served, serve};
use tests_kit::{Page, Pieces};

/// The counts of a session: its requests, and the messages that were taken, written and lost.
pub(crate) fn counts_of(served: &Served) -> (u32, u64, u64, u64) {
    let tally = served.tally;
    (
        served.requests,
        tally.taken(),
        tally.written(),
        tally.lost(),
    )
}

/// Asserts that a session ended this way, with these counts and these bytes of replies.
pub(crate) fn assert_served(
    rt: &impl Abort,
    served: &Served,
    page: &Page,
    end: End,
    counts: (u32, u64, u64, u64),
    answers: &[u8],
) {
    assert_is(rt, (served.end, counts_of(served)), (end, counts));
    assert_is(rt, page.written(), answers);
}

/// Serves one session on this handler. Tolerates one refusal of memory, after which nothing was
/// read or written.
pub(crate) fn served_on(
    rt: &impl Abort,
    alloc: Global,
    reader: &mut Pieces<'_>,
    writer: &mut Page,
    handler: &mut TestHandler,
) -> Served {
    let all = (reader.front.len(), reader.rest.len());
    let served = serve(alloc, reader, writer, handler);
    if served.end != End::NoMemory {
        return served;
    }
    assert_is(rt, counts_of(&served), (0, 0, 0, 0));
    assert_is(rt, (reader.front.len(), reader.rest.len()), all);
    assert_is(rt, (writer.written().len(), writer.flushed().len()), (0, 0));
    assert_is(rt, handler.asked, 0);
    let again = serve(alloc, reader, writer, handler);
    assert_that(rt, again.end != End::NoMemory);
    again
}

/// Serves one session on a new handler, and asserts that all its blocks are free at the end.
pub(crate) fn served(
    rt: &impl Abort,
    alloc: Global,
    reader: &mut Pieces<'_>,
    writer: &mut Page,
) -> Served {
    let mut handler = TestHandler::open(rt, alloc);
    let served = served_on(rt, alloc, reader, writer, &mut handler);
    assert_is(rt, handler.asked.saturating_add(1), served.requests.max(1));
    assert_is(rt, handler.end(), 128);
    served
}
