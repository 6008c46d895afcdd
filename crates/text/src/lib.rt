// Bytes, and the numbers and texts in them.
#![tactic(auto)]

ghost use Rattle.std.specs.Prelude.{◌≡◌, true, ◌+◌, ◌-◌, ◌^◌, ◌≤◌, ◌<◌, length, take, drop, replicate};
ghost use Rattle.std.proofs.lemmas.List.Edits.{sets};
ghost use Rattle.model.specs.Bytes.{within, is_digit, is_text, is_space, all, decimal as decimal_of, digits, little as little_of, in_bytes};
ghost use Rattle.text.specs.Put.{Put};

// ---- tests of bytes

pub fn is_digit(b: u8) -> bool
    ensures { result ≡ is_digit b }
{
    b.is_ascii_digit()
}

// Whether every byte of s is least..greatest. By `iter().all` a byte takes five instructions in place of four: an acknowledge 2 % more.
#[tactic(auto, using(crate::proofs::Lists::drop_next))]
pub fn all_within(s: &[u8], least: u8, greatest: u8) -> bool
    ensures { result ≡ all (within least greatest) s.now }
{
    for b in s {
        if !(least..=greatest).contains(b) {
            return false;
        }
    }
    true
}

pub fn is_text(s: &[u8]) -> bool
    ensures { result ≡ all is_text s.now }
{
    all_within(s, 0x20, 0x7E)
}

pub fn is_digits(s: &[u8]) -> bool
    ensures { result ≡ all is_digit s.now }
{
    all_within(s, b'0', b'9')
}

pub fn is_spaces(s: &[u8]) -> bool
    ensures { result ≡ all is_space s.now }
{
    s.iter().all(|&b| b == b' ')
}

// ---- numbers that bytes hold

// The number of these bytes, little-endian.
fn number_of(bytes: &[u8]) -> u64
    requires { length bytes.now ≤ 8 }
    ensures { (result ≡ little_of bytes.now) × (result < 256 ^ length bytes.now) }
{
    let mut n: u64 = 0;
    for &byte in bytes.iter().rev() {
        n = n * 256 + u64::from(byte);
    }
    n
}

// The number of the size bytes at `at`. Two and four stand by themselves: where the length is known, the bytes are read in one load.
#[tactic(auto, using(crate::proofs::Numbers::little_2, crate::proofs::Numbers::little_4))]
pub fn little(b: &[u8], at: usize, size: usize) -> u64
    requires { (at + size ≤ length b.now) × (size ≤ 8) }
    ensures { (result ≡ little_of (take size (drop at b.now))) × (result < 256 ^ size) }
{
    match size {
        2 => u64::from(u16::from_le_bytes([b[at], b[at + 1]])),
        4 => u64::from(u32::from_le_bytes([b[at], b[at + 1], b[at + 2], b[at + 3]])),
        _ => number_of(&b[at..at + size]),
    }
}

// The number that digits give.
pub fn decimal(s: &[u8]) -> u64
    requires { (length s.now ≤ 19) × (all is_digit s.now ≡ true) }
    ensures { (result ≡ decimal_of s.now) × (result < 10 ^ length s.now) }
{
    let mut n: u64 = 0;
    for &digit in s {
        n = n * 10 + u64::from(digit - b'0');
    }
    n
}

// The same number of any bytes, whether they are digits or not: each counts as what it is above `0`, and 0 where it is not.
pub fn number(s: &[u8]) -> u64
    requires { length s.now ≤ 17 }
    ensures { result ≡ decimal_of s.now }
{
    let mut n: u64 = 0;
    for byte in s {
        n = n * 10 + u64::from(byte.saturating_sub(b'0'));
    }
    n
}

// ---- parts

// The bytes from `from` on, as part of the caller's.
pub fn rest(s: &[u8], from: usize) -> &[u8]
    ensures { result.now ≡ drop from s.now }
{
    &s[from.min(s.len())..]
}

// ---- writers: each returns the place behind what it wrote

// The bytes of `from` in the place of as many, by a loop of its own: where the compiler does not know how many, it makes of std's
// `copy_from_slice` a call of memmove, which the archive for C would have to be given.
#[tactic(auto, using(crate::proofs::Lists::replaced_next, crate::proofs::Lists::replaced_all))]
pub fn replace(to: &mut [u8], from: &[u8])
    requires { length to.old ≡ length from.now }
    ensures { to.new ≡ from.now }
{
    for (i, &b) in from.iter().enumerate() {
        to[i] = b;
    }
}

// The bytes of s.
#[tactic(auto, using(crate::proofs::Puts::put_part))]
pub fn copy(s: &[u8], out: &mut [u8], at: usize) -> usize
    requires { at + length s.now ≤ length out.old }
    ensures { Put out.old at s.now result out.new }
{
    let end = at + s.len();
    replace(&mut out[at..end], s);
    end
}

// The bytes of s, where they are few and the compiler knows how many: the library moves them by a load and a store, and no loop.
#[tactic(auto, using(crate::proofs::Puts::put_part))]
pub fn copy_few(s: &[u8], out: &mut [u8], at: usize) -> usize
    requires { at + length s.now ≤ length out.old }
    ensures { Put out.old at s.now result out.new }
{
    let end = at + s.len();
    out[at..end].copy_from_slice(s);
    end
}

// The byte b, width times.
#[tactic(auto, using(crate::proofs::Puts::put_part))]
pub fn fill(out: &mut [u8], at: usize, width: usize, b: u8) -> usize
    requires { at + width ≤ length out.old }
    ensures { (result ≡ at + width) × Put out.old at (replicate width b) result out.new }
{
    let end = at + width;
    out[at..end].fill(b);
    end
}

// n in size bytes, little-endian.
#[tactic(auto, using(crate::proofs::Puts::bytes_put), unfolding(model::specs::Bytes::in_bytes))]
pub fn put_little(out: &mut [u8], at: usize, size: usize, n: u64) -> usize
    requires { at + size ≤ length out.old }
    ensures { (result ≡ at + size) × Put out.old at (in_bytes size n) result out.new }
{
    let end = at + size;
    let mut left = n;
    for byte in &mut out[at..end] {
        *byte = (left % 256) as u8;
        left /= 256;
    }
    end
}

// Two digits: both in one store.
#[tactic(auto, using(crate::proofs::Numbers::pair_bytes))]
fn put_pair(out: &mut [u8], at: usize, n: u64) -> usize
    requires { (n < 100) × (at + 2 ≤ length out.old) }
    ensures { (result ≡ at + 2) × Put out.old at (digits 2 n) result out.new }
{
    put_little(out, at, 2, n / 10 + 256 * (n % 10) + 0x3030)
}

// n as a decimal field: its last width digits, zeros before them. They are written in pairs, from the last on.
pub fn put_digits(out: &mut [u8], at: usize, width: usize, n: u64) -> usize
    requires { at + width ≤ length out.old }
    ensures { (result ≡ at + width) × Put out.old at (digits width n) result out.new }
{
    let odd = width % 2;
    let mut left = n;
    for i in (0..width / 2).rev() {
        put_pair(out, at + odd + 2 * i, left % 100);
        left /= 100;
    }
    if odd == 1 {
        out[at] = b'0' + (left % 10) as u8;
    }
    at + width
}

// The n bytes at `from`, moved down to `to`.
#[tactic(auto, using(crate::proofs::Lists::sets_moved))]
pub fn shift(b: &mut [u8], to: usize, from: usize, n: usize)
    requires { (to ≤ from) × (from + n ≤ length b.old) }
    ensures { b.new ≡ sets b.old to (take n (drop from b.old)) }
{
    b.copy_within(from..from + n, to);
}

// The bytes from `from` up to `at`, once more behind them.
pub fn repeat(out: &mut [u8], from: usize, at: usize) -> usize
    requires { (from ≤ at) × (at + (at - from) ≤ length out.old) }
    ensures { Put out.old at (take (at - from) (drop from out.old)) result out.new }
{
    let n = at - from;
    let (before, behind) = out.split_at_mut(at);
    replace(&mut behind[..n], &before[from..]);
    at + n
}
