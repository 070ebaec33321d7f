//! The size of a script's pool.
ghost use Rattle.sysv_script.specs.Lines.{IsBlocks};

use sysv_model::{MAX_BLOCKS, MIN_BLOCKS};
use sysv_words::Reads;

/// A number of blocks that a pool can have, 128 to 65,536.
#[derive(Clone, Copy)]
pub struct Blocks(pub u32);

impl Reads for Blocks {
    ghost says = { IsBlocks };

    fn read(word: &[u8]) -> Option<Blocks> {
        match u32::read(word) {
            Some(number) if number >= MIN_BLOCKS && number <= MAX_BLOCKS => Some(Blocks(number)),
            _ => None,
        }
    }
}
