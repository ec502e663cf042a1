// The bytes in the cells of feed memory.
ghost use Rattle.std.specs.Prelude.{◌+◌, ◌*◌, ◌≤◌, ◌++◌, ◌≡◌, length, get_or};
ghost use Rattle.rules.specs.Limits.{longest_file};
ghost use Rattle.state.specs.Layout.{zeros};
ghost use Rattle.feed.specs.Layout.{feed_size, byte_cells, cells_with, bytes_in};
ghost use Rattle.feed.specs.Held.{file_room, unpacked, spread_at};

use crate::layout::BYTES;
use crate::memory::power;

// The bytes of a piece behind the n that stand there.
pub fn put_bytes(feed: &mut [u64], n: usize, piece: &[u8])
    requires piece_bound { n + length piece.now ≤ longest_file }
    requires feed_value { feed.old ≡ cells_with (get_or feed.old 0 0) (bytes_in feed.old n) }
    ensures { feed.new ≡ cells_with (get_or feed.old 0 0) (bytes_in feed.old n ++ piece.now) }
{
    for (i, byte) in piece.iter().enumerate() {
        let k = n + i;
        let cell = BYTES + k / 8;
        feed[cell] += *byte as u64 * power(k % 8);
    }
}

// The eight bytes of a cell.
fn spread(cell: u64, file: &mut [u8], at: usize)
    requires { at + 8 ≤ length file.old }
    ensures { file.new ≡ spread_at cell at file.old }
{
    file[at..at + 8].copy_from_slice(&cell.to_le_bytes());
}

// The bytes of the first n cells, into zeros.
pub fn unpack(feed: &[u64], n: usize, file: &mut [u8])
    requires feed_len { length feed.now ≡ feed_size }
    requires n_le_byte_cells { n ≤ byte_cells }
    requires file_value { file.old ≡ zeros file_room }
    ensures { file.new ≡ unpacked feed.now (8 * n) }
{
    for i in 0..n {
        spread(feed[BYTES + i], file, 8 * i);
    }
}
