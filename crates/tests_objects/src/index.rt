//! Selections compared with those of a list kept beside the index, which selects by the plain rule
//! of the message rules.

ghost use Rattle.std.specs.Prelude.{◌≡◌, ◌+◌, ◌<◌, ◌≤◌, length};
ghost use Rattle.sysv_model.specs.declared.limits.TheConstants.{QUEUE_MESSAGES};

use crate::parts::{assert_is, room};
use std::alloc::Global;
use std::marker::Brand;
use std::process::Abort;
use std::sync::ledger::{Blank, Ledger};
use std::test::Fail;
use sysv_messages::{Entry, Index, Steps};
use sysv_model::{NoMemory, QUEUE_MESSAGES, Selector};
use sysv_rules::select_plain;

/// Opens an index. Tolerates one refusal of memory.
fn open_index(rt: &impl Abort, alloc: Global) -> Index
    ensures { length result ≡ 0 }
{
    match Index::open(alloc) {
        Ok(index) => index,
        Err(why) => {
            assert_is(rt, why, NoMemory);
            Index::open(alloc).expect(rt, "a second try")
        }
    }
}

/// Returns what is selected, with a step counter that is opened and dropped here.
fn select_with<L: Ledger>(index: &Index, sel: Selector, blank: Blank) -> Option<Entry>
    requires name { blank.name ≡ L.name }
    requires parts { blank.parts ≡ L.parts }
    requires some { 0 < blank.parts }
{
    let mut steps = Steps::<L>::open(blank);
    index.select(sel, &mut steps)
}

fn select(index: &Index, sel: Selector) -> Option<Entry> {
    select_with::<Brand>(index, sel, Blank::new(1))
}

/// The entries in the order in which they were pushed, and space for a list of their types.
#[derive(Drop)]
struct Beside {
    entries: Vec<Entry>,
    types: Vec<i64>,
}

impl Beside {
    fn open(rt: &impl Abort, alloc: Global) -> Beside {
        Beside {
            entries: room(rt, alloc),
            types: room(rt, alloc),
        }
    }

    /// Returns what the plain rule selects.
    fn select(&mut self, sel: Selector) -> Result<Option<Entry>, Fail> {
        self.types.clear();
        for entry in &self.entries {
            self.types.push(entry.mtype)?;
        }
        let place = select_plain(sel, &self.types);
        Ok(place.and_then(|place| self.entries.get(place)).copied())
    }
}

/// Asserts that each kind of selector selects what the plain rule selects.
fn assert_agree(
    rt: &impl Abort,
    index: &Index,
    beside: &mut Beside,
    mtype: i64,
) -> Result<(), Fail> {
    assert_is(rt, index.len(), beside.entries.len());
    for sel in [
        Selector::Any,
        Selector::Exactly(mtype),
        Selector::UpTo(mtype.unsigned_abs()),
        Selector::Except(mtype),
    ] {
        assert_is(
            rt,
            (mtype, select(index, sel)),
            (mtype, beside.select(sel)?),
        );
    }
    Ok(())
}

/// Returns the selector of a step, and the type of the message that the step sends.
fn script(step: u64) -> (Selector, i64)
    requires { step < 500 }
{
    let mixed = step * 13 % 17 + step / 7;
    let mtype = (mixed % 7) as i64 + 1;
    let sel = match mixed % 4 {
        0 => Selector::Any,
        1 => Selector::Exactly(mtype),
        2 => Selector::Except(mtype),
        _ => Selector::UpTo(mtype.unsigned_abs()),
    };
    (sel, mtype)
}

#[test]
fn selections_follow_the_plain_rule(rt: HostRuntime) -> Result<(), Fail> {
    let mut index = open_index(&rt, rt.alloc());
    let mut beside = Beside::open(&rt, rt.alloc());
    let mut taken = 0u32;
    for step in 0..500 {
        let (sel, mtype) = script(step);
        assert_agree(&rt, &index, &mut beside, mtype)?;
        if step % 5 < 3 && index.len() < QUEUE_MESSAGES {
            let entry = Entry {
                mtype,
                number: step,
                place: (step % 256) as usize,
            };
            index.push(entry);
            beside.entries.push(entry)?;
        } else if let Some(found) = select(&index, sel) {
            index.remove(found.number);
            beside.entries.retain(|entry| entry.number != found.number);
            taken += 1;
        }
    }
    assert_is(&rt, (taken > 100, beside.entries.len() > 50), (true, true));
    Ok(())
}

/// Asserts that this entry is selected.
fn assert_selects(rt: &impl Abort, index: &Index, sel: Selector, wanted: Option<Entry>) {
    assert_is(rt, (sel, select(index, sel)), (sel, wanted));
}

const TENTH: Entry = Entry {
    mtype: 5,
    number: 10,
    place: 3,
};

const TWELFTH: Entry = Entry {
    mtype: 2,
    number: 12,
    place: 0,
};

#[test]
fn entries_come_and_go(rt: HostRuntime) {
    let mut index = open_index(&rt, rt.alloc());
    assert!(rt; index.is_empty());
    assert_selects(&rt, &index, Selector::Any, None);
    assert_selects(&rt, &index, Selector::Exactly(5), None);
    assert_selects(&rt, &index, Selector::UpTo(9), None);
    assert_selects(&rt, &index, Selector::Except(9), None);
    index.push(TENTH);
    index.push(TWELFTH);
    assert_is(&rt, index.len(), 2);
    assert_selects(&rt, &index, Selector::Any, Some(TENTH));
    assert_selects(&rt, &index, Selector::UpTo(5), Some(TWELFTH));
    assert_selects(&rt, &index, Selector::UpTo(1), None);
    assert_selects(&rt, &index, Selector::Exactly(5), Some(TENTH));
    assert_selects(&rt, &index, Selector::Exactly(4), None);
    assert_selects(&rt, &index, Selector::Except(2), Some(TENTH));
    assert_selects(&rt, &index, Selector::Except(4), Some(TENTH));
    assert_selects(&rt, &index, Selector::Except(5), Some(TWELFTH));
    index.remove(10);
    assert_selects(&rt, &index, Selector::Any, Some(TWELFTH));
    assert_selects(&rt, &index, Selector::Exactly(5), None);
    assert_selects(&rt, &index, Selector::Except(2), None);
    index.remove(11);
    assert_is(&rt, index.len(), 1);
    index.clear();
    assert_is(&rt, index.is_empty(), true);
    assert_selects(&rt, &index, Selector::Any, None);
}
