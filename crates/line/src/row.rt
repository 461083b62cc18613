// Rows that stand one after the other.
ghost use Rattle.std.specs.Prelude.{◌≡◌, ℕ, ◌+◌, ◌*◌, ◌<◌, ◌≤◌, length, drop};
ghost use Rattle.line.specs.Rows.{row};

// Row e, where rows of so many elements each stand one after the other.
pub(crate) fn row_of<T>(rows: &[T], width: usize, e: usize) -> &[T]
    requires { e * width + width ≤ length rows.now }
    ensures { result.now ≡ row width rows.now e }
{
    let from = e * width;
    &rows[from..from + width]
}

// Writes so many rows of `to`, each by `copy` from the same row of `from`. What comes after them stays.
// It goes by an index, since nothing is known of the elements that `chunks_exact_mut` lends once they are given back.
// Rows and their width go as two arguments: a struct of both would be made here alone, once for each side.
pub(crate) fn copy_rows<S, T, F: Fn(&[S], &mut [T])>(
    from: &[S],
    from_width: usize,
    to: &mut [T],
    to_width: usize,
    rows: usize,
    copy: F,
)
    requires whole { rows * from_width ≤ length from.now }
    requires room { rows * to_width ≤ length to.old }
    requires callable { (x : _) (y : _) → length x.now ≡ from_width → length y.now ≡ to_width → F.pre copy x y }
    ensures each { (e : ℕ) → e < rows → (x : _) × (y : _) × (z : _) × F.post copy x y tt z × (x.now ≡ row from_width from.now e) × (z.now ≡ row to_width to.new e) }
    ensures rest { drop (rows * to_width) to.new ≡ drop (rows * to_width) to.old }
{
    for e in 0..rows {
        let at = e * to_width;
        copy(row_of(from, from_width, e), &mut to[at..at + to_width]);
    }
}
