// Which calls are refused, and with which number. 01, "What the product holds": the lowest that applies.
#![tactic(auto)]

ghost use Rattle.std.specs.Prelude.{◌≡◌, ◌≢◌, ◌<◌, IfOk, OnOk};
ghost use Rattle.model.specs.Limits.{session_count, number_greatest};
ghost use Rattle.model.specs.Calls.{
  start as start_call,
  open_session,
  hang_up_session,
  one_tick,
};
ghost use Rattle.table.specs.Table.{decode, Openable};
ghost use Rattle.refusal.specs.Numbers.{number_of, number_told, number, tool_number, Ready, Startable};

use model::{NUMBER_GREATEST, OUTPUT_LEAST, SESSION_COUNT, TABLE_LEAST};
use record::ToolRecord;

// Why a call is refused, in the order of the numbers.
#[derive(Clone, Copy, PartialEq, Eq)]
pub enum Refusal {
    TableShort = 1,
    TableNotWellFormed,
    OutputShort,
    SessionTooHigh,
    SessionClosed,
    SessionNotClosed,
    ToolRecordBad,
    LastNumberReached,
    SettingsBad,
}

impl Refusal {
    pub fn number(self) -> u64
        ensures { result ≡ number_of self }
    {
        self as u64
    }
}

// A start asks nothing of the table but its length, and for no output.
#[tactic(auto, unfolding(model::specs::Calls::refusal))]
pub fn start(table: &[u8], settings: &[u8]) -> Result<(), Refusal>
    ensures number { number_told result ≡ number table.now 0 (start_call settings.now) }
    ensures ready { OnOk result (Startable table.now settings.now) }
{
    if table.len() < TABLE_LEAST {
        return Err(Refusal::TableShort);
    }
    if !record::is_settings(settings) {
        return Err(Refusal::SettingsBad);
    }
    Ok(())
}

// A tick asks no more than every call does that is lent an output, which has so many bytes.
#[tactic(auto, unfolding(model::specs::Calls::refusal))]
pub fn tick(table: &[u8], output: usize) -> Result<(), Refusal>
    ensures number { number_told result ≡ number table.now «output» one_tick }
    ensures ready { OnOk result (Ready table.now «output») }
{
    if table.len() < TABLE_LEAST {
        return Err(Refusal::TableShort);
    }
    if !table::is_formed(table) {
        return Err(Refusal::TableNotWellFormed);
    }
    if output < OUTPUT_LEAST {
        return Err(Refusal::OutputShort);
    }
    Ok(())
}

#[tactic(auto, unfolding(model::specs::Calls::refusal))]
pub fn open(table: &[u8], output: usize, session: u64) -> Result<(), Refusal>
    ensures number { number_told result ≡ number table.now «output» (open_session session) }
    ensures ready { OnOk result (Openable table.now session) }
{
    tick(table, output)?;
    if session >= SESSION_COUNT {
        return Err(Refusal::SessionTooHigh);
    }
    if !table::is_closed(table, session) {
        return Err(Refusal::SessionNotClosed);
    }
    Ok(())
}

// A hang-up; received bytes are refused as it is.
#[tactic(auto, unfolding(model::specs::Calls::refusal))]
pub fn hang_up(table: &[u8], output: usize, session: u64) -> Result<(), Refusal>
    ensures number { number_told result ≡ number table.now «output» (hang_up_session session) }
    ensures ready { OnOk result (Ready table.now «output») }
    ensures session { OnOk result (session < session_count) }
{
    tick(table, output)?;
    if session >= SESSION_COUNT {
        return Err(Refusal::SessionTooHigh);
    }
    if table::is_closed(table, session) {
        return Err(Refusal::SessionClosed);
    }
    Ok(())
}

// What a slice was found to be as a tool record; it comes back where it is not refused.
#[tactic(auto, unfolding(model::specs::Calls::refusal, crate::specs::Numbers::tool_number))]
pub fn tool_record(
    table: &[u8],
    output: usize,
    record_kind: Option<ToolRecord>,
) -> Result<ToolRecord, Refusal>
    ensures number { number_told result ≡ tool_number table.now «output» record_kind }
    ensures ready { OnOk result (Ready table.now «output») }
    ensures same { IfOk result (λ kind. record_kind ≡ Some kind) }
    ensures left { IfOk result (λ kind. kind ≡ ToolRecord.Tightening → (decode table.now).shared.last ≢ number_greatest) }
{
    tick(table, output)?;
    let kind = record_kind.ok_or(Refusal::ToolRecordBad)?;
    if kind == ToolRecord::Tightening && table::last(table) == NUMBER_GREATEST {
        return Err(Refusal::LastNumberReached);
    }
    Ok(kind)
}
