// What all sessions share, in its bytes at the front of the table.
#![tactic(auto)]

ghost use Rattle.std.specs.Prelude.{◌≡◌, [], suc, ◌<◌, length};
ghost use Rattle.model.specs.Limits.{identifier_length, number_greatest};
ghost use Rattle.model.specs.Bytes.{spaces};
ghost use Rattle.model.specs.Records.{settings_of, settings_length, tightening_length};
ghost use Rattle.model.specs.Events.{result_as};
ghost use Rattle.model.specs.Memory.{kept_with};
ghost use Rattle.shared.specs.Memory.{place_at, payload_kept};
ghost use Rattle.shared.specs.Shared.{shared_size, settings_part, in_force_of, last_of, count_of, kept_of, shared_formed};
ghost use Rattle.shared.specs.Shared.{Area, Next, Holds};

use model::{IDENTIFIER_LENGTH, NUMBER_LENGTH, RESULTS_KEPT, SETTINGS_LENGTH, TIGHTENING_LENGTH};

// How many bytes it has.
pub const SIZE: usize = 8192;

// SERIFLA and the number of the map, 4, as the number of its bytes.
const MARK: u64 = 0x34414C4649524553;

const MARK_LENGTH: usize = 8;

const MARK_AT: usize = 0;

const LAST_AT: usize = 8;

// How many tightenings are kept, in one byte.
const COUNT_AT: usize = 12;

const COUNT_LENGTH: usize = 1;

const SETTINGS_AT: usize = 16;

const IN_FORCE_AT: usize = 56;

// Where the places of the tightenings that are kept begin.
const MEMORY_AT: usize = 1024;

// The last number in the settings' payload: it stands at its end.
const SETTINGS_LAST_AT: usize = SETTINGS_LENGTH - NUMBER_LENGTH;

// ---- reading. The area is a slice: callers cut it from the table, and an array would be a conversion more at each call

// The mark stands, and so many tightenings may be kept: every call asks it.
#[tactic(auto, unfolding(crate::specs::Shared::shared_formed))]
pub fn is_formed(area: &[u8]) -> bool
    requires { length area.now ≡ shared_size }
    ensures { result ≡ shared_formed area.now }
{
    let many = count(area);
    text::little(area, MARK_AT, MARK_LENGTH) == MARK && many <= RESULTS_KEPT && many <= last(area)
}

// The settings' payload, as it stands.
#[tactic(auto, unfolding(crate::specs::Shared::settings_part))]
pub fn settings(area: &[u8]) -> &[u8]
    requires { length area.now ≡ shared_size }
    ensures { result.now ≡ settings_part area.now }
{
    &area[SETTINGS_AT..SETTINGS_AT + SETTINGS_LENGTH]
}

// The identifier in force, as it stands.
#[tactic(auto, unfolding(crate::specs::Shared::in_force_of))]
pub fn in_force(area: &[u8]) -> &[u8]
    requires { length area.now ≡ shared_size }
    ensures { result.now ≡ in_force_of area.now }
{
    &area[IN_FORCE_AT..IN_FORCE_AT + IDENTIFIER_LENGTH]
}

// The last tightening number.
#[tactic(auto, unfolding(crate::specs::Shared::last_of))]
pub fn last(area: &[u8]) -> u64
    requires { length area.now ≡ shared_size }
    ensures { (result ≡ last_of area.now) × (result < suc number_greatest) }
{
    text::little(area, LAST_AT, NUMBER_LENGTH)
}

// How many tightenings are kept.
#[tactic(auto, unfolding(crate::specs::Shared::count_of))]
pub fn count(area: &[u8]) -> u64
    requires { length area.now ≡ shared_size }
    ensures { (result ≡ count_of area.now) × (result < 256) }
{
    text::little(area, COUNT_AT, COUNT_LENGTH)
}

// Where the tightening with the number n stands while it is kept: the next takes the place of the oldest.
fn place_at(n: u64) -> usize
    ensures { result ≡ place_at n }
{
    MEMORY_AT + (n % RESULTS_KEPT) as usize * TIGHTENING_LENGTH
}

// The payload at the place of the number n, as it stands.
#[tactic(auto, using(crate::proofs::Results::payload_long), unfolding(crate::specs::Memory::payload_kept))]
pub fn kept(area: &[u8], n: u64) -> &[u8]
    requires { length area.now ≡ shared_size }
    ensures { (result.now ≡ payload_kept n area.now) × (length result.now ≡ tightening_length) }
{
    let at = place_at(n);
    &area[at..at + TIGHTENING_LENGTH]
}

// ---- writing

// A start with these settings: no identifier is in force, the last number is the settings', and no tightening is kept.
#[tactic(auto, using(crate::proofs::Areas::started))]
pub fn start(area: &mut [u8], payload: &[u8])
    requires { (length area.old ≡ shared_size) × (length payload.now ≡ settings_length) }
    ensures { Holds payload.now (spaces identifier_length) (settings_of payload.now).last []
        area.new }
{
    let last = text::little(payload, SETTINGS_LAST_AT, NUMBER_LENGTH);
    text::put_little(area, MARK_AT, MARK_LENGTH, MARK);
    text::put_little(area, LAST_AT, NUMBER_LENGTH, last);
    text::put_little(area, COUNT_AT, COUNT_LENGTH, 0);
    text::copy(payload, area, SETTINGS_AT);
    text::fill(area, IN_FORCE_AT, IDENTIFIER_LENGTH, b' ');
}

// An identifier comes in force.
#[tactic(auto, using(crate::proofs::Areas::force_put))]
pub fn put_in_force(area: &mut [u8], identifier: &[u8])
    requires { Area area.old × (length identifier.now ≡ identifier_length) }
    ensures { Holds (settings_part area.old) identifier.now (last_of area.old)
        (kept_of area.old) area.new }
{
    text::copy(identifier, area, IN_FORCE_AT);
}

// A tightening came: its payload, the identifier that is meant in place of the tool's own, and its number behind it, which is the next.
pub fn remember(area: &mut [u8], res: &[u8])
    requires { Next area.old res.now }
    ensures { Holds (settings_part area.old) (in_force_of area.old) (suc (last_of area.old))
        (kept_with (result_as (suc (last_of area.old)) res.now) (kept_of area.old))
        area.new }
{
    let number = text::little(res, TIGHTENING_LENGTH, NUMBER_LENGTH);
    let many = RESULTS_KEPT.min(count(area) + 1);
    text::copy(&res[0..TIGHTENING_LENGTH], area, place_at(number));
    text::put_little(area, COUNT_AT, COUNT_LENGTH, many);
    text::put_little(area, LAST_AT, NUMBER_LENGTH, number);
}
