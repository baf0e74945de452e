// Sixteen cells, one for each class of widths and some to spare: an index is taken modulo 16, and is never outside. And places of slices, which may
// not be there.

pub(crate) fn at(cells: &[u64; 16], k: u64) -> u64 {
    cells[(k % 16) as usize]
}

pub(crate) fn put(cells: &mut [u64; 16], k: u64, x: u64) {
    cells[(k % 16) as usize] = x;
}

// So many more in a cell.
pub(crate) fn tally(cells: &mut [u64; 16], k: u64, more: u64) {
    let cell = &mut cells[(k % 16) as usize];
    *cell = cell.wrapping_add(more);
}

// Row i of a run: 0 where it has none.
pub(crate) fn row(rows: &[i64], i: usize) -> u64 {
    match rows.get(i) {
        Some(row) => row.cast_unsigned(),
        None => 0,
    }
}

// What is put into a place that is not there is lost.
pub(crate) fn lay(column: &mut [u64], i: usize, x: u64) {
    if let Some(place) = column.get_mut(i) {
        *place = x;
    }
}
