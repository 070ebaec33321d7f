//! The session by a reader and a writer, with a service as its handler.
ghost use Rattle.std.specs.Prelude.{◌≡◌};

use super::{
    WHOLE, Wanted, assert_done, is_between_requests, opened, wanted_after, wanted_at_failure,
    whole_requests,
};
use crate::parts::assert_is;
use std::alloc::Global;
use std::process::Abort;
use std::sync::Wait;
use sysv_model::Instrumented;
use sysv_seats::{ServiceHandler, ZERO, Zero};
use sysv_session::{End, Served, Texts};
use sysv_wire::Fault;
use tests_kit::worked::{ANSWERS, SESSION};
use tests_kit::{Page, Pieces};

/// Returns the texts of a session. Tolerates one refusal of memory.
fn texts(rt: &impl Abort, alloc: Global) -> Texts {
    match Texts::open(alloc) {
        Ok(texts) => texts,
        Err(_) => Texts::open(alloc).expect(rt, "a second try"),
    }
}

/// Runs the session, and asserts that each stream has failed if and only if the end says so.
fn serve<R: Abort + Wait>(
    rt: &R,
    alloc: Global,
    reader: &mut Pieces<'_>,
    page: &mut Page,
    handler: &mut ServiceHandler<'_, Zero, R>,
) -> Served
    ensures { handler.new.service ≡ handler.old.service }
{
    let mut reader = Instrumented::new(reader);
    let mut page = Instrumented::new(page);
    let told = handler.serve_instrumented(&mut texts(rt, alloc), &mut reader, &mut page);
    let failures = (reader.failures(), page.failures());
    let wanted = match told.end {
        End::Fault(Fault::Read) => (1, 0),
        End::Write => (0, 1),
        _ => (0, 0),
    };
    assert_is(rt, failures, wanted);
    told
}

/// Serves the session on a new service, and asserts what it did and left.
fn assert_served<R: Abort + Wait>(
    rt: &R,
    alloc: Global,
    mut reader: Pieces<'_>,
    mut page: Page,
    wanted: &Wanted<'_>,
    place: usize,
) {
    let (service, pass) = opened(rt, alloc);
    let mut handler = ServiceHandler::new(rt, &service, &ZERO, pass);
    let told = serve(rt, alloc, &mut reader, &mut page, &mut handler);
    let pass = handler.into_pass();
    let closed = service.close(pass);
    assert_done(rt, &told, page.written(), closed, wanted, place);
}

#[test]
fn the_session_cut_after_each_byte(rt: HostRuntime) {
    for cut in 0..SESSION.len() + 1 {
        let reader = Pieces::both(&SESSION[..cut], &SESSION[cut..]);
        assert_served(&rt, rt.alloc(), reader, Page::new(), &WHOLE, cut);
    }
}

#[test]
fn the_session_by_pieces(rt: HostRuntime) {
    for piece in [1, 2, 3, 7, 64] {
        let reader = Pieces::new(SESSION, piece);
        let page = Page::taking(piece, usize::MAX, false);
        assert_served(&rt, rt.alloc(), reader, page, &WHOLE, piece);
    }
}

#[test]
fn the_session_ended_after_each_byte(rt: HostRuntime) {
    for cut in 0..SESSION.len() {
        let end = if is_between_requests(cut) {
            End::Ended
        } else {
            End::Fault(Fault::Truncated)
        };
        let wanted = wanted_after(whole_requests(cut), end);
        let reader = Pieces::new(&SESSION[..cut], usize::MAX);
        assert_served(&rt, rt.alloc(), reader, Page::new(), &wanted, cut);
    }
}

#[test]
fn the_reader_fails_after_each_byte(rt: HostRuntime) {
    for good in 0..SESSION.len() + 1 {
        let wanted = wanted_after(whole_requests(good), End::Fault(Fault::Read));
        let mut reader = Pieces::new(SESSION, usize::MAX);
        reader.good = good;
        assert_served(&rt, rt.alloc(), reader, Page::new(), &wanted, good);
    }
}

#[test]
fn the_writer_fails_after_each_byte(rt: HostRuntime) {
    for room in 0..ANSWERS.len() {
        let wanted = wanted_at_failure(room);
        for stalls in [false, true] {
            let reader = Pieces::new(SESSION, usize::MAX);
            let page = Page::taking(5, room, stalls);
            assert_served(&rt, rt.alloc(), reader, page, &wanted, room);
        }
    }
}

// A reply that was written and cannot be flushed is not written: its message is lost.
#[test]
fn the_writer_cannot_be_flushed(rt: HostRuntime) {
    let counts = [
        (1, 0, 0, 0),
        (2, 0, 0, 0),
        (3, 0, 0, 0),
        (4, 1, 0, 1),
        (5, 1, 1, 0),
    ];
    for flushes in 0..5 {
        let wanted = Wanted {
            end: End::Write,
            counts: counts[flushes],
            ..wanted_after(flushes + 1, End::Write)
        };
        let reader = Pieces::new(SESSION, usize::MAX);
        let mut page = Page::new();
        page.flushes = flushes;
        assert_served(&rt, rt.alloc(), reader, page, &wanted, flushes);
    }
}
