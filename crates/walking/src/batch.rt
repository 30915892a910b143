//! A batch: many scripts in one input, each behind its length.
ghost use Rattle.std.specs.Prelude.{Ok, Err};
ghost use Rattle.walking.specs.Batches.{Cuts, Splits};

use crate::walk::write_lines;
use std::alloc::Global;
use std::io::Write;
use thiserror::Error;

/// Why no script can be split off a batch.
#[derive(Clone, Copy, Debug, PartialEq, Eq, Error)]
pub enum Cut {
    /// Fewer bytes are left than a length has.
    #[error("the length has {left} of its 4 bytes")]
    InLength { left: usize },
    /// Fewer bytes are left than the length says.
    #[error("the script has {left} of its {length} bytes")]
    InScript { length: usize, left: usize },
}

/// A batch that is cut short, and the byte at which its last length starts.
#[derive(Clone, Copy, Debug, PartialEq, Eq, Error)]
#[error("batch cut short at byte {at}: {cut}")]
pub struct CutAt {
    cut: Cut,
    at: usize,
}

/// Writes the lines of each script of a batch, and an empty line behind them.
pub fn write_batch<W: Write>(heap: Global, batch: &[u8], out: &mut W) -> anyhow::Result<()> {
    let mut unread = batch;
    while !unread.is_empty() {
        let at = batch.len() - unread.len();
        let (script, behind) = split_script(unread).map_err(|cut| CutAt { cut, at })?;
        write_lines(heap, script, out)?;
        writeln!(out, "")?;
        unread = behind;
    }
    Ok(())
}

/// Splits the first script off a batch: its bytes, and the bytes behind it.
fn split_script(batch: &[u8]) -> Result<(&[u8], &[u8]), Cut>
    ensures { elim result [ Ok p ↦ Splits batch.now p.0.now p.1.now | Err cut ↦ Cuts batch.now cut ] }
{
    let &[l0, l1, l2, l3, ref behind @ ..] = batch else {
        return Err(Cut::InLength { left: batch.len() });
    };
    let length = u32::from_le_bytes([l0, l1, l2, l3]) as usize;
    behind.split_at_checked(length).ok_or(Cut::InScript {
        length,
        left: behind.len(),
    })
}
