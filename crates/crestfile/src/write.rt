// The one file of record bytes, written into lent room block by block.
ghost use Rattle.std.specs.Prelude.{true, ◌≡◌, ◌+◌, ◌-◌, ◌*◌, ◌/◌, ◌≤◌, length};
ghost use Rattle.model.specs.Records.{block_size, record_size, per_block, put};
ghost use Rattle.model.specs.Writer.{blocks_needed, file_of, count_fits};

use blocks::write_block;
use model::layout::{BLOCK_SIZE, MOST_RECORDS, PER_BLOCK, RECORD_SIZE, RECORDS_END};

// 17: whether so many bytes are 1 to 60 records.
#[tactic(auto, unfolding(model::specs::Writer::count_fits))]
pub fn count_fits(len: usize) -> bool
    ensures { result ≡ count_fits len }
{
    let n = len / RECORD_SIZE;
    len % RECORD_SIZE == 0 && 1 <= n && n <= MOST_RECORDS
}

// Added before a division by the records of a block, it rounds up.
const BLOCK_ROUND_UP: usize = PER_BLOCK - 1;

// The blocks needed for so many record bytes: as many as hold the records, 15 in each.
pub fn blocks_needed(len: usize) -> usize
    ensures { result ≡ (len / record_size + (per_block - 1)) / per_block }
{
    (len / RECORD_SIZE + BLOCK_ROUND_UP) / PER_BLOCK
}

// The file of 1 to 60 records, at the front of the room; the rest of the room stays as it came.
pub fn write_blocks(records: &[u8], room: &mut [u8])
    requires records_value { count_fits (length records.now) ≡ true }
    requires records_in_bounds { block_size * blocks_needed records.now ≤ length room.old }
    ensures { room.new ≡ put room.old 0 (file_of records.now) }
{
    for (b, part) in records.chunks(RECORDS_END).enumerate() {
        let at = BLOCK_SIZE * b;
        write_block(&mut room[at..at + BLOCK_SIZE], b, part);
    }
}
