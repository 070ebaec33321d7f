//! Places, each with a chain or without one.

ghost use Rattle.std.specs.Prelude.{◌≡◌, ◌<◌, ◌≤◌, [], None, Some, IsSome, length, replicate, slice_set, vec_len, vec_capacity};
ghost use Rattle.std.specs.List.{All};
ghost use Rattle.sysv_messages.specs.Texts.{all_blocks};
ghost use Rattle.sysv_messages.specs.Kept.{chain_at};

use std::mem;
use sysv_pool::Chain;

/// Appends `places` places without a chain.
pub(crate) fn add_bare(chains: &mut Vec<Option<Chain>>, places: usize)
    requires empty { chains.old.items ≡ [] }
    requires room { places ≤ vec_capacity chains.old }
    ensures { chains.new.items ≡ replicate places None }
{
    for _ in 0..places {
        chains.push_reserved(None);
    }
}

/// Puts a chain at a place that has none.
pub(crate) fn put(chains: &mut Vec<Option<Chain>>, place: usize, chain: Chain)
    requires within { place < length chains.old.items }
    requires bare { chain_at chains.old.items place ≡ None }
    ensures { chains.new.items ≡ slice_set chains.old.items place (Some chain) }
{
    if let Some(_other) = mem::replace(&mut chains[place], Some(chain)) {
        unreachable!()
    }
}

/// Takes the chain at a place that has one.
pub(crate) fn take(chains: &mut Vec<Option<Chain>>, place: usize) -> Chain
    requires { IsSome (chain_at chains.old.items place) }
    ensures given { chain_at chains.old.items place ≡ Some result }
    ensures left { chains.new.items ≡ slice_set chains.old.items place None }
{
    let Some(chain) = chains[place].take() else {
        unreachable!()
    };
    chain
}

/// Takes the chain at each place, and returns one chain with all their blocks.
pub(crate) fn take_all(chains: &mut Vec<Option<Chain>>) -> Chain
    ensures chain { result ≡ record { blocks = all_blocks chains.old.items; bytes = [] } }
    ensures bare { All (λ chain. chain ≡ None) chains.new.items }
    ensures places { length chains.new.items ≡ length chains.old.items }
{
    let mut all = Chain::empty();
    for place in 0..chains.len() {
        if let Some(chain) = chains[place].take() {
            all = all.join(chain);
        }
    }
    all
}

/// Removes all places with their chains, and returns one chain with all their blocks.
pub(crate) fn clear(chains: &mut Vec<Option<Chain>>) -> Chain
    ensures chain { result ≡ record { blocks = all_blocks chains.old.items; bytes = [] } }
    ensures items { chains.new.items ≡ [] }
    ensures len { vec_len chains.new ≡ 0 }
{
    let mut all = Chain::empty();
    while let Some(place) = chains.pop() {
        if let Some(chain) = place {
            all = all.join(chain);
        }
    }
    all
}
