//! Inserts bytes into a vector.
ghost use Rattle.std.specs.Prelude.{◌≡◌, ◌+◌, ◌-◌, ◌≤◌, ◌++◌, length, take, drop, OnOk, vec_len};
ghost use lib.Seq.{paste};

use std::alloc::AllocError;

// The number of bytes that are moved at a time.
const BLOCK: usize = 4096;

// Copies `count` bytes, through a separate block, to a place that may overlap them.
#[inline(always)]
fn copy_by_block(bytes: &mut [u8], block: &mut [u8; BLOCK], from: usize, to: usize, count: usize)
    requires small { count ≤ 4096 }
    requires read { from + count ≤ length bytes.old }
    requires written { to + count ≤ length bytes.old }
    ensures { bytes.new ≡ paste bytes.old to (drop from bytes.old) count }
{
    block[..count].copy_from_slice(&bytes[from..from + count]);
    bytes[to..to + count].copy_from_slice(&block[..count]);
}

// Moves all bytes except the last `gap` up by `gap` places, the last of them first.
fn move_up(bytes: &mut [u8], gap: usize)
    requires { gap ≤ length bytes.old }
    ensures { drop gap bytes.new ≡ take (length bytes.old - gap) bytes.old }
{
    let mut block = [0; BLOCK];
    let mut left = bytes.len() - gap;
    while 0 < left {
        let count = left.min(BLOCK);
        left -= count;
        copy_by_block(bytes, &mut block, left, left + gap, count);
    }
}

// Inserts bytes before all others. The last ones are overwritten.
fn put_before(bytes: &mut [u8], more: &[u8])
    requires { length more.now ≤ length bytes.old }
    ensures { bytes.new ≡ more.now ++ take (length bytes.old - length more.now) bytes.old }
{
    move_up(bytes, more.len());
    bytes[..more.len()].copy_from_slice(more);
}

// Inserts bytes at a place. The bytes after it are moved in blocks, so that no second vector is needed.
pub(crate) fn insert(out: &mut Vec<u8>, at: usize, more: &[u8]) -> Result<(), AllocError>
    requires { at ≤ vec_len out.old }
    ensures { OnOk result (out.new.items ≡ take at out.old.items ++ more.now ++ drop at out.old.items) }
{
    out.extend_from_slice(more)?;
    put_before(out.slice_mut(at..), more);
    Ok(())
}
