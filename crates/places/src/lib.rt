// The results that sessions have open or waiting: one copy of each, in places that all sessions share. A session keeps the numbers of its
// places.
#![tactic(auto)]

ghost use Rattle.std.specs.Prelude.{◌≡◌, true, ◌<◌, length};
ghost use Rattle.model.specs.Bytes.{all};
ghost use Rattle.places.specs.Places.{place_count, places_size, is_place, place_in, Putting, Puts};
ghost use Rattle.places.specs.Free.{marked, FirstFree};

use model::RESULT_LENGTH;

// How many there are.
pub const COUNT: usize = 32;

// How many bytes they have.
pub const SIZE: usize = 3520;

// ---- a place

// The result in place p, as it stands.
#[tactic(auto, using(crate::proofs::Areas::place_fits))]
pub fn at(area: &[u8], p: usize) -> &[u8]
    requires { (length area.now ≡ places_size) × (p < place_count) }
    ensures { result.now ≡ place_in p area.now }
{
    let a = p * RESULT_LENGTH;
    &area[a..a + RESULT_LENGTH]
}

// A result is put in place p.
pub fn put(area: &mut [u8], p: usize, res: &[u8])
    requires { Putting p res.now area.old }
    ensures { Puts p res.now area.old area.new }
{
    text::copy(res, area, p * RESULT_LENGTH);
}

// ---- which of them is free

// The places of one session are marked as used, each by a 1.
#[tactic(auto, using(crate::proofs::Marks::mark_end, text::proofs::Lists::all_at))]
pub fn mark(used: &mut [u8], held: &[u8])
    requires { (length used.old ≡ place_count) × (all is_place held.now ≡ true) }
    ensures { used.new ≡ marked used.old held.now }
{
    for &p in held {
        used[usize::from(p)] = 1;
    }
}

// The first that is not marked, if there is one.
pub fn first_free(used: &[u8]) -> Option<usize>
    ensures { FirstFree used.now result }
{
    used.iter().position(|&mark| mark == 0)
}
