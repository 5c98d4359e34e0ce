// Columns of a record, stored in the first entries of lent buffers: one loop for each kind of entry, since a loop that is lent what to read is no
// shorter.
ghost use Rattle.std.specs.Prelude.{◌≡◌, ◌+◌, ◌*◌, ◌/◌, ◌%◌, get_or};
ghost use Rattle.journal.specs.Record.{first_cell, float_at};
ghost use Rattle.journal.specs.inner.Buffer.{FieldsStand, FloatsStand, entries_stored};

use crate::float::float_at;
use crate::record::FIRST_CELL;

// A field of the first word of each of n candidates: what is left of the word divided by `unit`, below `limit`.
pub fn copy_fields(words: &[u32], n: usize, unit: u32, limit: u32, buffer: &mut [u32])
    requires { FieldsStand words.now n unit limit buffer.old }
    ensures { buffer.new ≡ entries_stored n (λ k. get_or words.now (first_cell + 7 * k) 0 / unit % limit) buffer.old }
{
    for k in 0..n {
        buffer[k] = words[FIRST_CELL + 7 * k] / unit % limit;
    }
}

// n floats, the first at a place and each so many words after the one before.
pub fn copy_floats(words: &[u32], place: usize, apart: usize, n: usize, buffer: &mut [f64])
    requires { FloatsStand words.now place apart n buffer.old }
    ensures { buffer.new ≡ entries_stored n (λ k. float_at words.now (place + apart * k)) buffer.old }
{
    for k in 0..n {
        buffer[k] = float_at(words, place + apart * k);
    }
}
