//! The probe `storm`: more than 1,000 messages in one group.

ghost use Rattle.std.specs.Prelude.{◌≡◌, ◌<◌, ◌^◌, IfOk};
ghost use Rattle.dn_probe.specs.Storm.{storm_rules, storm_opening, is_message, messages_with, is_storm};

use crate::Probe;
use crate::tally::{Tally, one_more};
use dn_guest::{Bytes, Input, NoMemory};
use dn_model::{Header, Row};
use std::alloc::Global;
use std::marker::Model;

/// So many messages of a group are no storm yet.
const MOST_MESSAGES: u64 = 1_000;

/// Says yes at a message if more than 1,000 messages of its group were shown, itself among them.
///
/// The rows of a run stand in the order of their groups, so it counts the messages of the last group alone.
#[derive(Drop)]
pub struct StormProbe {
    tally: Tally,
    group: u32,
    messages: u64,
}

impl Model for StormProbe {
    ghost use Rattle.std.specs.Fmt.{decimal};
    ghost use Rattle.dn_probe.specs.Meaning.{Remembering};
    ghost use Rattle.dn_probe.specs.Storm.{storm_memory};

    ghost Value = { Remembering };

    ghost view = { λ p. record { memory = storm_memory (decimal p.tally.yes) p.group p.messages; shown = p.tally.shown } };
}

impl StormProbe {
    /// The probe `storm`, before any row.
    pub fn new() -> StormProbe
        ensures { result ≡ record { memory = storm_opening; shown = 0 } }
    {
        StormProbe {
            tally: Tally::new(),
            group: 0,
            messages: 0,
        }
    }
}

fn is_message(input: &Input) -> bool
    ensures { result ≡ is_message input.now }
{
    match input {
        Input::Msg(_, _) => true,
        Input::Tick(_) | Input::Cmd(_) | Input::Down(_) | Input::Up(_) => false,
    }
}

/// How many messages of the row's group were shown, the row among them, where so many of this group were shown before.
fn messages_with(group: u32, messages: u64, row: &Row) -> Result<u64, NoMemory>
    ensures count { IfOk result (λ n. n ≡ messages_with group messages row.now) }
    ensures few { (group < 2 ^ 64) × (messages < 2 ^ 64) }
{
    let before = if group == row.key.group { messages } else { 0 };
    if is_message(&row.input) {
        one_more(before)
    } else {
        Ok(before)
    }
}

/// Whether the row is a message, and more than 1,000 of its group were shown.
fn is_storm(messages: u64, row: &Row) -> bool
    ensures { result ≡ is_storm messages row.now }
{
    is_message(&row.input) && messages > MOST_MESSAGES
}

impl Probe for StormProbe {
    ghost watcher = { λ p. record { rules = storm_rules; memory = p.memory; shown = p.shown } };

    fn name(&self) -> &[u8] {
        b"storm"
    }

    fn begin(&mut self, _alloc: Global, _header: &Header) -> Result<(), NoMemory> {
        self.tally = Tally::new();
        self.group = 0;
        self.messages = 0;
        Ok(())
    }

    fn seen(&mut self, _alloc: Global, row: &Row, _show: &[u8]) -> Result<bool, NoMemory> {
        let messages = messages_with(self.group, self.messages, row)?;
        let yes = is_storm(messages, row);
        self.tally = self.tally.with(yes)?;
        self.group = row.key.group;
        self.messages = messages;
        Ok(yes)
    }

    fn shown(&self) -> u64 {
        self.tally.shown
    }

    fn report(&self, out: &mut Bytes) -> Result<(), NoMemory> {
        self.tally.push_report(b"storm", out)
    }
}
