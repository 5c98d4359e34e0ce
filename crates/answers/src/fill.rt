// What buffers hold before a call, and whether the entries past its list still hold it.
pub const FILL: u32 = 4294967295;

// The float with the bits FFEFFFFFFFFFFFFF: the least one that is finite.
pub const FILL_FLOAT: f64 = -1.7976931348623157e308;

// Whether the entries from a number on hold the fill. It is no NaN and no zero, so that a float equals it only by its bits. A loop, since `all` takes a
// hundred times as long where the program is tried without optimisation.
pub fn kept<T: Copy + PartialEq>(buffer: &[T], n: usize, fill: T) -> bool {
    for x in &buffer[n.min(buffer.len())..] {
        if *x != fill {
            return false;
        }
    }
    true
}

pub fn words_kept(buffer: &[u32], n: usize) -> bool {
    kept(buffer, n, FILL)
}

pub fn floats_kept(buffer: &[f64], n: usize) -> bool {
    kept(buffer, n, FILL_FLOAT)
}
