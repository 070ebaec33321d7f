//! Linked blocks of 64 bytes.

ghost use Rattle.std.specs.Prelude.{◌≡◌, ◌≢◌, ℕ, List, [], ◌∷◌, ◌++◌, ◌+◌, ◌-◌, ◌*◌, ◌≤◌, IsTrue, ◌↔◌, length, take, drop, IfOk};
ghost use Rattle.std.specs.List.{concat};
ghost use Rattle.sysv_model.specs.declared.limits.TheConstants.{BLOCK_BYTES as block_bytes, BODY_ROOM as body_room};
ghost use Rattle.sysv_model.specs.Pool.{blocks_for};
ghost use Rattle.sysv_pool.specs.Blocks.{contents_of};

use std::alloc::Global;
use std::marker::Model;
use std::mem;
use sysv_model::{BLOCK_BYTES, Body, NoMemory};

/// A block of 64 bytes and the blocks linked after it.
///
/// Dropping a block would drop those after it recursively. `free_all` frees one block at a time
/// instead.
#[derive(Drop)]
pub(crate) struct Block {
    bytes: [u8; BLOCK_BYTES],
    next: Link,
}

/// A list of linked blocks, or none.
pub(crate) type Link = Option<Box<Block>>;

impl Model for Block {
    ghost use Rattle.std.specs.Prelude.{List, ℕ, ◌≡◌, ◌∷◌, length};
    ghost use Rattle.sysv_model.specs.declared.limits.TheConstants.{BLOCK_BYTES as block_bytes};
    ghost use Rattle.std.specs.Coded.{coded_list, coded_ℕ};

    ghost Value = { List (List ℕ) };

    ghost coded = { coded_list (coded_list coded_ℕ) };

    ghost use Rattle.sysv_pool.specs.Blocks.{contents_of};

    ghost view = { λ b. b.bytes ∷ contents_of b.next };

    ghost invariant = { λ b. length b.bytes ≡ block_bytes };

    ghost size = { length };

    ghost use Rattle.std.proofs.Common.{arith, length-append};

    ghost size_decreases = { λ a h. Prim.grind (arith, length-append) };
}

/// Creates a list of `blocks` blocks of zeros.
///
/// # Errors
///
/// - `NoMemory` if allocation fails.
pub(crate) fn linked(alloc: Global, blocks: u32) -> Result<Link, NoMemory>
    ensures { IfOk result (λ link. length (contents_of link) ≡ blocks) }
{
    let mut link = None;
    for _ in 0..blocks {
        let Ok(mut block) = Box::new(
            alloc,
            Block {
                bytes: [0; BLOCK_BYTES],
                next: None,
            },
        ) else {
            free_all(link);
            return Err(NoMemory);
        };
        block.next = link;
        link = Some(block);
    }
    Ok(link)
}

/// Frees linked blocks one at a time, without recursion.
pub(crate) fn free_all(mut link: Link) {
    while let Some(mut block) = link {
        link = block.next.take();
    }
}

/// Keeps the first `blocks` blocks in `link` and returns the rest. It recurses once per kept block;
/// callers keep at most 128.
pub(crate) fn cut(link: &mut Link, blocks: u32) -> Link
    requires { blocks ≤ length (contents_of link.old) }
    ensures kept { length (contents_of link.new) ≡ blocks }
    ensures rest { blocks + length (contents_of result) ≡ length (contents_of link.old) }
{
    if blocks == 0 {
        return link.take();
    }
    let Some(block) = link else { unreachable!() };
    cut(&mut block.next, blocks - 1)
}

/// Moves all blocks of `from`, one at a time, to the front of `onto`.
pub(crate) fn shift_all(from: Link, onto: Link) -> Link
    ensures { length (contents_of result) ≡ length (contents_of from) + length (contents_of onto) }
{
    let mut rest = from;
    let mut front = onto;
    while let Some(mut block) = rest {
        rest = mem::replace(&mut block.next, front);
        front = Some(block);
    }
    front
}

/// Writes `piece` at the start of the first block. A piece of a whole block is copied in one
/// assignment, whose length the compiler knows.
fn write(block: &mut Block, piece: &[u8])
    requires { length piece.now ≤ block_bytes }
    ensures blocks { length block.new ≡ length block.old }
    ensures text { (text : List ℕ) × (block.new ≡ text ∷ drop 1 block.old)
        × (length text ≡ block_bytes) × (take (length piece.now) text ≡ piece.now) }
{
    match piece.as_array::<BLOCK_BYTES>() {
        Some(whole) => block.bytes = *whole,
        None => block.bytes[..piece.len()].copy_from_slice(piece),
    }
}

/// Writes the body, from its block `k` on, into the linked blocks. It recurses once per block, at
/// most 129 deep.
pub(crate) fn fill_from(link: &mut Link, k: u32, body: &Body)
    requires all { k + length (contents_of link.old) ≡ blocks_for (length body.now) }
    requires room { length body.now ≤ body_room }
    ensures blocks { length (contents_of link.new) ≡ length (contents_of link.old) }
    ensures text { take (length body.now - k * block_bytes) (concat (contents_of link.new))
        ≡ drop (k * block_bytes) body.now }
{
    if let Some(block) = link {
        write(block, body.block(k));
        fill_from(&mut block.next, k + 1, body);
    }
}

/// Appends the first `n` bytes of the blocks to `out`.
pub(crate) fn copy_front(link: &Link, n: usize, out: &mut Body)
    requires there { n ≤ length (concat (contents_of link.now)) }
    requires room { length out.old + n ≤ body_room }
    ensures { out.new ≡ out.old ++ take n (concat (contents_of link.now)) }
{
    let mut left = n;
    let mut link = link;
    while let Some(block) = link {
        let block: &Block = block;
        if left < BLOCK_BYTES {
            out.push_piece(&block.bytes[..left]);
            return;
        }
        out.push_piece(&block.bytes);
        left -= BLOCK_BYTES;
        link = &block.next;
    }
}
