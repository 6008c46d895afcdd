// The run of bytes that a session is receiving, as the table holds it.
#![tactic(auto)]

ghost use Rattle.std.specs.Prelude.{◌≡◌, ◌≤◌, ◌<◌, min, length};
ghost use Rattle.std.specs.List.{fold, position};
ghost use Rattle.model.specs.Limits.{run_counted};
ghost use Rattle.model.specs.Runs.{empty_run, longer as longer_run, cut, consumed_by};
ghost use Rattle.run.specs.Area.{run_size, run_of, run_formed, bytes_of, Area, Over, Lengthened, Passed, is_NUL, Ends};

const KEPT: usize = 45;

const COUNTED: usize = 10_000;

// ---- received bytes

// How many bytes are looked through at once: first so many, and those that are left in smaller blocks.
const WIDE: usize = 512;

const NARROW: usize = 16;

// The lowest of these bytes. All are looked at, whatever stands before them, so that the compiler takes many at a time.
fn lowest(block: &[u8]) -> u8
    ensures { result ≡ fold min 255 block.now }
{
    block.iter().fold(255, |lowest, &b| lowest.min(b))
}

// Past the blocks of `size` bytes without NUL that stand from `from` on.
fn past_blocks(bytes: &[u8], from: usize, size: usize) -> usize
    requires { Passed bytes.now from × (0 < size) }
    ensures { Passed bytes.now result }
{
    let mut at = from;
    for block in bytes[from..].chunks_exact(size) {
        if lowest(block) == 0 {
            break;
        }
        at += size;
    }
    at
}

// Where the first NUL of these bytes stands.
fn first_nul(bytes: &[u8]) -> Option<usize>
    ensures { result ≡ position is_NUL bytes.now }
{
    bytes.iter().position(|&b| b == 0)
}

// Where what one call reads of them ends.
pub fn ends_at(bytes: &[u8]) -> usize
    ensures { Ends bytes.now result }
{
    let far = past_blocks(bytes, 0, WIDE);
    let near = past_blocks(bytes, far, NARROW);
    let last = &bytes[near..];
    near + first_nul(last).unwrap_or(last.len())
}

// What one call consumes of them, of which it reads up to `end`: the NUL too, where one stands there.
pub fn consumed(bytes: &[u8], end: usize) -> usize
    requires { Ends bytes.now end }
    ensures { result ≡ consumed_by (cut bytes.now) }
{
    bytes.len().min(end + 1)
}

// A run that stands whole in a slice: the bytes of it that are kept, as they stand, and how many it has.
#[tactic(auto, using(text::proofs::Lists::take_least))]
pub fn kept_of(bytes: &[u8]) -> &[u8]
    ensures { result.now ≡ (longer_run empty_run bytes.now).kept }
{
    &bytes[..KEPT.min(bytes.len())]
}

pub fn count_of(bytes: &[u8]) -> usize
    ensures { result ≡ (longer_run empty_run bytes.now).count }
{
    COUNTED.min(bytes.len())
}

// ---- the run in its area, a slice: callers cut it from the table, and an array would be a conversion more at each call

#[tactic(auto, unfolding(crate::specs::Area::run_formed))]
pub fn is_formed(area: &[u8]) -> bool
    requires { length area.now ≡ run_size }
    ensures { result ≡ run_formed area.now }
{
    text::little(area, 0, 2) <= COUNTED as u64
}

// How many bytes it has.
#[tactic(auto, using(crate::proofs::Areas::counted), unfolding(crate::specs::Area::run_of))]
pub fn count(area: &[u8]) -> usize
    requires { Area area.now }
    ensures { (result ≡ (run_of area.now).count) × (result ≤ run_counted) }
{
    text::little(area, 0, 2) as usize
}

// The bytes that are kept, as they stand.
#[tactic(auto, using(crate::proofs::Areas::kept_is))]
pub fn kept(area: &[u8]) -> &[u8]
    requires { Area area.now }
    ensures { result.now ≡ (run_of area.now).kept }
{
    let k = KEPT.min(count(area));
    &area[2..2 + k]
}

// Its bytes, or those of the one before, as they stand.
pub fn bytes(area: &[u8]) -> &[u8]
    requires { length area.now ≡ run_size }
    ensures { result.now ≡ bytes_of area.now }
{
    &area[2..2 + KEPT]
}

// More bytes of it.
#[tactic(auto, using(crate::proofs::Areas::lengthened))]
pub fn lengthen(area: &mut [u8], bytes: &[u8])
    requires { Area area.old }
    ensures { Lengthened area.old bytes.now area.new }
{
    let n = count(area);
    let k = KEPT.min(n);
    let m = (KEPT - k).min(bytes.len());
    text::copy(&bytes[..m], area, 2 + k);
    let v = (COUNTED - n).min(bytes.len());
    text::put_little(area, 0, 2, (n + v) as u64);
}

// It is over.
#[tactic(auto, using(crate::proofs::Areas::cleared))]
pub fn clear(area: &mut [u8])
    requires { length area.old ≡ run_size }
    ensures { Over area.old area.new }
{
    text::put_little(area, 0, 2, 0);
}
