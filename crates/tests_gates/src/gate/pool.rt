//! A gate around a pool of blocks, with one ticket left.
ghost use Rattle.std.specs.Prelude.{◌≤◌};

use crate::parts::{LIMIT, assert_is};
use std::alloc::Global;
use std::process::Abort;
use sysv_gate::{Closing, Gate, Object, OpenRefused, TryRefused};
use sysv_pool::{Chain, Pool};

/// A pool. Each call reserves blocks for this number of bytes.
struct Blocks {
    pool: Pool,
}

impl Object for Blocks {
    type Call = u8;

    type Reply = Option<Chain>;

    ghost meaning = { λ _ _ _ _. Unit {0} };

    ghost counted = { λ b. (b.pool.released, 0) };

    fn apply(&mut self, call: u8) -> Option<Chain> {
        self.pool.reserve(usize::from(call))
    }

    fn counts(&self) -> (u64, u64) {
        (self.pool.released(), 0)
    }
}

/// Opens a pool of 128 blocks, from which nothing was released.
fn opened(rt: &impl Abort, alloc: Global) -> Pool
    ensures { result.released ≤ 0 }
{
    let pool = tests_kit::open_pool(alloc, 128).expect(rt, "a second try");
    if pool.released() > 0 {
        pool.end();
        panic!(rt; "a released count");
    }
    pool
}

/// Frees the blocks of a chain, and returns how many there were, or none if there is no chain.
fn count_of(chain: Option<Chain>) -> Option<u32> {
    match chain {
        Some(chain) => Some(chain.end()),
        None => None,
    }
}

/// Frees the pool that was handed back. Returns the number of its free blocks and its released
/// count, or none if there is no pool.
fn ended(blocks: Option<Blocks>) -> Option<(u32, u64)> {
    match blocks {
        Some(Blocks { pool }) => {
            let left = (pool.free(), pool.released());
            pool.end();
            Some(left)
        }
        None => None,
    }
}

// The call with the last ticket reserves two of the blocks. Those that follow reserve none.
#[test]
fn the_last_ticket_of_a_pool_is_served(rt: HostRuntime) {
    let pool = opened(&rt, rt.alloc());
    match Gate::starting_at(rt.alloc(), Blocks { pool }, LIMIT - 1) {
        Ok((gate, mut seat)) => {
            match gate.call(&rt, &mut seat, 65) {
                Ok(chain) => assert_is(&rt, count_of(chain), Some(2)),
                Err(_) => panic!(rt; "the last ticket"),
            }
            match gate.call(&rt, &mut seat, 66) {
                Ok(_) => panic!(rt; "a turn"),
                Err(worn) => assert_is(&rt, worn.call, 66),
            }
            match gate.try_call(&mut seat, 67) {
                Err(TryRefused::Worn(call)) => assert_is(&rt, call, 67),
                _ => panic!(rt; "a turn"),
            }
            let Closing {
                object,
                rest,
                turns,
                next_ticket: _,
            } = gate.close(seat);
            assert_is(&rt, (turns, ended(object)), (1, Some((126, 0))));
            assert_is(&rt, ended(rest), None);
        }
        Err(OpenRefused::NoMemory(blocks) | OpenRefused::BadStart(blocks)) => {
            assert_is(&rt, ended(Some(blocks)), Some((128, 0)));
        }
    }
}
