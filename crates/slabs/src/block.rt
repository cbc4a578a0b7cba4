// The columns that are summed side by side, w of them: those from a column on, or the last ones, where fewer are left.

ghost use Rattle.std.specs.Prelude.{ℕ, ◌≡◌, ◌≤◌, ◌<◌, ◌+◌, ◌^◌};

// Where they begin, of n columns, for column j to be among them.
pub fn block_start(w: usize, j: usize, n: usize) -> usize
    requires { (j < n) × (w ≤ n) × (n < 2 ^ 63) × (0 < w) }
    ensures { (result ≤ j) × (j < result + w) × (result + w ≤ n) × (j + w ≤ n → result ≡ j) × (n ≤ j + w → result + w ≡ n) }
{
    if j + w <= n { j } else { n - w }
}

// Where those of them that come before column `end` end.
pub fn block_end(w: usize, from: usize, end: usize) -> usize
    requires { from + w < 2 ^ 63 }
    ensures { (result ≤ end) × (result ≤ from + w) × ((j : ℕ) → j < end → j < from + w → j < result) × (from + w ≤ end → result ≡ from + w) × (end ≤ from + w → result ≡ end) }
{
    if from + w <= end { from + w } else { end }
}
