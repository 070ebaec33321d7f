//! A session, with a growth of it refused: nothing was then read or written and no call was made,
//! and a second session runs as a whole.
use crate::parts::assert_is;
use crate::served::{assert_served, served_on};
use crate::test_handler::TestHandler;
use sysv_session::End;
use tests_kit::worked::{ANSWERS, SESSION};
use tests_kit::{Page, Pieces, mark};

#[test]
fn run_of_session(rt: HostRuntime) {
    let mut handler = TestHandler::open(&rt, rt.alloc());
    let mut reader = Pieces::new(SESSION, usize::MAX);
    let mut page = Page::new();
    let _marked = mark(rt.alloc());
    let told = served_on(&rt, rt.alloc(), &mut reader, &mut page, &mut handler);
    assert_served(&rt, &told, &page, End::Ended, (5, 1, 1, 0), ANSWERS);
    assert_is(&rt, handler.end(), 128);
}
