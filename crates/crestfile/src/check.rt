// The refusals of a crest file by its length and its blocks, in their order; how many records are in it, and where each starts.
ghost use Rattle.std.specs.Prelude.{ℕ, List, [], ◌∷◌, ◌≡◌, ◌≤◌, ◌<◌, length};
ghost use Rattle.model.specs.Records.{block_count, block_of, most_records, record_start, record_bytes, count_of};
ghost use Rattle.model.specs.Refusals.{Rule, rule, rule₀, for_each, verdict, byte_count, checksum, block_field};
ghost use Rattle.model.specs.Acceptance.{length_fits, sums_agree, fields_fit, blocks_rules};
ghost use Rattle.model.specs.Answers.{paper_if, paper_of_outcome};

use blocks::{fields_fit, sums_agree};
use model::layout::{
    BLOCK_SIZE, FOUR_BLOCKS, PER_BLOCK, RECORD_SIZE, THREE_BLOCKS, TWO_BLOCKS, USED_AT,
};
use model::{Outcome, refusals, refused};

// 1: a crest is 512, 1024, 1536 or 2048 bytes long.
fn check_length(len: usize) -> Outcome
    ensures { result ≡ verdict (rule₀ byte_count (length_fits len) ∷ []) }
{
    match len {
        BLOCK_SIZE | TWO_BLOCKS | THREE_BLOCKS | FOUR_BLOCKS => Outcome::Done,
        _ => refused(refusals::BYTE_COUNT, 0),
    }
}

// 2: of block b.
fn check_sums(b: usize, block: &[u8; BLOCK_SIZE]) -> Outcome
    requires { b < 4 }
    ensures { result ≡ verdict (rule checksum b (sums_agree block.now) ∷ []) }
{
    if sums_agree(block) {
        Outcome::Done
    } else {
        refused(refusals::CHECKSUM, b as u32)
    }
}

// 3: of block b of n.
fn check_fields(n: usize, b: usize, block: &[u8; BLOCK_SIZE]) -> Outcome
    requires { (b < n) × (n ≤ 4) }
    ensures { result ≡ verdict (rule block_field b (fields_fit n b block.now) ∷ []) }
{
    if fields_fit(n, b, block) {
        Outcome::Done
    } else {
        refused(refusals::BLOCK_FIELD, b as u32)
    }
}

// A check of every block, from the first.
fn check_each<F: Fn(usize, &[u8; BLOCK_SIZE]) -> Outcome>(file: &[u8], check: F) -> Outcome
    requires { (b : ℕ) (block : _) → b < block_count file.now → F.pre check b block }
    ensures { (rules : ℕ → List Rule) → ((b : ℕ) (block : _) (told : _) → F.post check b block told → b < block_count file.now → block.now ≡ block_of file.now b → told ≡ verdict (rules b)) → result ≡ verdict (for_each rules (block_count file.now) 0) }
{
    let (blocks, _) = file.as_chunks::<BLOCK_SIZE>();
    for (b, block) in blocks.iter().enumerate() {
        match check(b, block) {
            Outcome::Refused(x) => return Outcome::Refused(x),
            Outcome::Done => {}
        }
    }
    Outcome::Done
}

// 1 to 3: of any bytes.
pub fn check_blocks(file: &[u8]) -> Outcome
    ensures value { result ≡ verdict (blocks_rules file.now) }
    ensures paper { paper_of_outcome result ≡ paper_if (verdict (blocks_rules file.now)) [] }
{
    match check_length(file.len()) {
        Outcome::Refused(length) => return Outcome::Refused(length),
        Outcome::Done => {}
    }
    match check_each(file, check_sums) {
        Outcome::Refused(sums) => return Outcome::Refused(sums),
        Outcome::Done => {}
    }
    let n = file.len() / BLOCK_SIZE;
    check_each(
        file,
        |b: usize, block: &[u8; BLOCK_SIZE]|
            requires { (b < n) × (n ≤ 4) }
        { check_fields(n, b, block) },
    )
}

// How many records are in use in a file whose blocks are accepted: 15 in each block but the last.
pub fn record_count(file: &[u8]) -> usize
    requires { verdict (blocks_rules file.now) ≡ Outcome.Done }
    ensures { result ≡ count_of (record_bytes file.now) }
{
    let last = file.len() / BLOCK_SIZE - 1;
    PER_BLOCK * last + fields::u16_at(file, BLOCK_SIZE * last + USED_AT) as usize
}

// Where record r, counted from 0 over all blocks, starts in a file.
pub fn record_start(r: usize) -> usize
    requires { r < most_records }
    ensures { result ≡ record_start r }
{
    BLOCK_SIZE * (r / PER_BLOCK) + RECORD_SIZE * (r % PER_BLOCK)
}
