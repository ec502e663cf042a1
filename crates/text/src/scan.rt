// Scanning over the file.
ghost use Rattle.std.specs.Prelude.{◌≡◌, ◌≤◌, ◌<◌, ℕ, true, false, length, slice_index};
ghost use Rattle.text.specs.Scan.{Found, is_not, past};

pub const LF: u8 = 10;

pub const CR: u8 = 13;

pub const SPACE: u8 = 32;

// The last byte that a line may have.
pub const TILDE: u8 = 126;

// The first position from `at` on whose byte fails the test, or the text's end.
pub fn past<F: Fn(u8) -> bool>(text: &[u8], at: usize, passes: F) -> usize
    requires in_text { at ≤ length text.now }
    requires callable { F.IsAlwaysCallable passes }
    ensures within { (at ≤ result) × (result ≤ length text.now) }
    ensures before { (k : ℕ) → at ≤ k → k < result → F.post passes (slice_index text.now k) true }
    ensures stops { result < length text.now → F.post passes (slice_index text.now result) false }
{
    for i in at..text.len() {
        if !passes(text[i]) {
            return i;
        }
    }
    text.len()
}

// The first position from `at` on with that byte, or the text's end.
pub fn find_byte(text: &[u8], at: usize, byte: u8) -> usize
    requires { at ≤ length text.now }
    ensures { Found at (length text.now) (past (is_not byte) at (length text.now) text.now) result }
{
    past(text, at, |b| b != byte)
}
