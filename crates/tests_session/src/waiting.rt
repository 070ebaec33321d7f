//! A handler that waits for a lock in each of its calls.
use crate::parts::assert_is;
use crate::served::counts_of;
use std::sync::{Mutex, Wait};
use sysv_model::{Body, Cred, Errno};
use sysv_session::{End, Handler, RequestOutcome, serve};
use sysv_wire::{Reply, ReplyContent, Request};
use tests_kit::worked::SESSION;
use tests_kit::{Page, Pieces};

/// Counts its requests under a lock, and refuses all of them.
#[derive(Drop)]
struct Locked<'a, R: Wait> {
    rt: &'a R,
    asked: &'a Mutex<u32>,
}

impl<R: Wait> Handler for Locked<'_, R> {
    ghost use Rattle.std.specs.Prelude.{⊤};

    ghost meaning = { λ _ _ _ _ _ _ _. ⊤ };

    ghost slots = { λ _. 3 };

    fn slots(&self) -> u32 {
        3
    }

    fn call(
        &mut self,
        _cred: Cred,
        request: &Request,
        _text: &Body,
        _given: &mut Body,
    ) -> RequestOutcome {
        let mut asked = self.asked.lock(self.rt);
        *asked = asked.wrapping_add(1);
        RequestOutcome::Reply(Reply {
            version: request.version,
            op: request.ask.op().number(),
            result: ReplyContent::Refused(Errno::ENOMSG),
        })
    }
}

#[test]
fn a_handler_may_wait(rt: HostRuntime) {
    let asked = Mutex::new(0);
    let mut handler = Locked {
        rt: &rt,
        asked: &asked,
    };
    let mut reader = Pieces::new(SESSION, usize::MAX);
    let mut page = Page::new();
    let told = serve(rt.alloc(), &mut reader, &mut page, &mut handler);
    if told.end == End::NoMemory {
        assert_is(&rt, counts_of(&told), (0, 0, 0, 0));
        assert_is(&rt, reader.front.len(), 108);
        assert_is(&rt, page.written().len(), 0);
        assert_is(&rt, *asked.lock(&rt), 0);
        return;
    }
    assert_is(&rt, told.end, End::Ended);
    assert_is(&rt, counts_of(&told), (5, 0, 0, 0));
    assert_is(&rt, *asked.lock(&rt), 4);
    assert_is(&rt, page.written().len(), 35);
}
