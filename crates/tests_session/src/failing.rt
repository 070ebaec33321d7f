//! Readers and writers that fail after each byte, and writers that cannot be flushed.
use crate::parts::assert_at;
use crate::served::{assert_served, served};
use sysv_session::End;
use sysv_wire::Fault;
use tests_kit::worked::{ANSWER_ENDS, ANSWERS, REQUEST_ENDS, SESSION};
use tests_kit::{Page, Pieces};

#[test]
fn the_reader_fails(rt: HostRuntime) {
    for good in 0..SESSION.len() {
        let mut reader = Pieces::new(SESSION, usize::MAX);
        reader.good = good;
        let mut page = Page::new();
        let told = served(&rt, rt.alloc(), &mut reader, &mut page);
        let whole = REQUEST_ENDS.iter().filter(|end| **end <= good).count();
        let end = End::Fault(Fault::Read);
        assert_at(&rt, (told.end, told.requests as usize), (end, whole), good);
        let answered = if whole == 0 {
            0
        } else {
            ANSWER_ENDS[whole.min(5) - 1]
        };
        assert_at(&rt, page.written(), &ANSWERS[..answered.min(49)], good);
    }
}

#[test]
fn the_reader_fails_at_the_end(rt: HostRuntime) {
    let mut reader = Pieces::new(SESSION, usize::MAX);
    reader.good = SESSION.len();
    let mut page = Page::new();
    let told = served(&rt, rt.alloc(), &mut reader, &mut page);
    assert_served(
        &rt,
        &told,
        &page,
        End::Fault(Fault::Read),
        (5, 1, 1, 0),
        ANSWERS,
    );
}

/// Returns the number of requests and the messages taken, written and lost if the writer takes this
/// number of bytes.
fn told_at(room: usize) -> (u32, u64, u64, u64) {
    match room {
        0..=6 => (1, 0, 0, 0),
        7..=17 => (2, 0, 0, 0),
        18..=24 => (3, 0, 0, 0),
        25..=41 => (4, 1, 0, 1),
        _ => (5, 1, 1, 0),
    }
}

#[test]
fn the_writer_fails(rt: HostRuntime) {
    for room in 0..ANSWERS.len() {
        for stalls in [false, true] {
            for piece in [1, 5, usize::MAX] {
                let mut reader = Pieces::new(SESSION, usize::MAX);
                let mut page = Page::new();
                page.room = room;
                page.stalls = stalls;
                page.piece = piece;
                let told = served(&rt, rt.alloc(), &mut reader, &mut page);
                assert_served(
                    &rt,
                    &told,
                    &page,
                    End::Write,
                    told_at(room),
                    &ANSWERS[..room.min(49)],
                );
            }
        }
    }
}

#[test]
fn the_writer_cannot_be_flushed(rt: HostRuntime) {
    let counts = [
        (1, 0, 0, 0),
        (2, 0, 0, 0),
        (3, 0, 0, 0),
        (4, 1, 0, 1),
        (5, 1, 1, 0),
    ];
    for flushes in 0..5 {
        let mut reader = Pieces::new(SESSION, usize::MAX);
        let mut page = Page::new();
        page.flushes = flushes;
        let told = served(&rt, rt.alloc(), &mut reader, &mut page);
        let answered = ANSWER_ENDS[flushes];
        assert_served(
            &rt,
            &told,
            &page,
            End::Write,
            counts[flushes],
            &ANSWERS[..answered.min(49)],
        );
    }
}
