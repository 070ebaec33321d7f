//! Items that count how often they are dropped.
use super::{many, opened};
use crate::parts::assert_is;
use std::sync::atomic::AtomicU64;
use std::sync::atomic::Ordering::SeqCst;
use sysv_buffer::{ManyPutRefused, PutRefused};

/// An item that cannot be copied, and that counts its drop.
struct Counted<'a> {
    ends: &'a AtomicU64,
}

impl Drop for Counted<'_> {
    fn drop(self) {
        let Counted { ends } = self;
        ends.fetch_add(1, SeqCst);
    }
}

#[test]
fn each_item_ends_once(rt: HostRuntime) {
    let ends = AtomicU64::new(0);
    {
        let (buffer, mut puts, mut takes) = opened(&rt, rt.alloc(), 2);
        let put = buffer.try_put(&mut puts, Counted { ends: &ends });
        assert!(rt; put.is_ok());
        let put = buffer.try_put(&mut puts, Counted { ends: &ends });
        assert!(rt; put.is_ok());
        assert_is(&rt, ends.load(SeqCst), 0);
        let refused = buffer.try_put(&mut puts, Counted { ends: &ends });
        assert!(rt; matches!(&refused, Err(PutRefused::Full(_))));
        assert_is(&rt, ends.load(SeqCst), 0);
        drop(refused);
        assert_is(&rt, ends.load(SeqCst), 1);
        let taken = buffer.try_take(&mut takes);
        assert!(rt; taken.is_ok());
        assert_is(&rt, ends.load(SeqCst), 1);
        drop(taken);
        assert_is(&rt, ends.load(SeqCst), 2);
    }
    // The last of them was in the buffer.
    assert_is(&rt, ends.load(SeqCst), 3);
}

#[test]
fn each_item_of_many_ends_once(rt: HostRuntime) {
    let ends = AtomicU64::new(0);
    {
        let (buffer, mut one) = many::opened(&rt, rt.alloc(), 2);
        let mut two = buffer.split(&mut one);
        let put = buffer.try_put(&mut one, Counted { ends: &ends });
        assert!(rt; put.is_ok());
        let put = buffer.try_put(&mut two, Counted { ends: &ends });
        assert!(rt; put.is_ok());
        assert_is(&rt, ends.load(SeqCst), 0);
        let refused = buffer.try_put(&mut two, Counted { ends: &ends });
        assert!(rt; matches!(&refused, Err(ManyPutRefused::Full(_))));
        assert_is(&rt, ends.load(SeqCst), 0);
        drop(refused);
        assert_is(&rt, ends.load(SeqCst), 1);
        let taken = buffer.try_take(&mut two);
        assert!(rt; taken.is_ok());
        drop(taken);
        assert_is(&rt, ends.load(SeqCst), 2);
    }
    // The last of them was in the buffer.
    assert_is(&rt, ends.load(SeqCst), 3);
}
