// The calls on a lent store that change its lists, after bmc/foreign_master.rs: a fresh start, a registration, ageing. Each asks
// nothing of what it is lent; a refusal changes no word.
#![tactic(auto)]

ghost use Rattle.std.specs.Prelude.{◌≡◌, ◌<◌, get_or};
ghost use Rattle.slot.specs.Slot.{Narrow};
ghost use Rattle.refused.specs.Refusal.{number_in};
ghost use Rattle.book.specs.Rules.{store_refusal, SoundStore};
ghost use Rattle.fresh.specs.Fresh.{site_with};
ghost use Rattle.foreign_master.specs.Calls.{fresh_answer, fresh_exit, held_of, register_answer, register_exit, age_answer, age_exit};
ghost use Rattle.foreign_master.specs.Steps.{taking_answer, taking_exit};

use announce::AnnounceMessage;
use refused::Refusal;
use slot::ForeignAnnounceMessage;

// How many messages a call put out, let age out and consumed.
#[derive(Clone, Copy)]
pub struct Tallies {
    pub evicted: u64,
    pub aged_out: u64,
    pub consumed: u64,
}

// Starts afresh for the ports whose intervals are given: 1 where the store is too short, then 14 where the count of ports, an
// interval or the length of the list is out of range. Where any master is acceptable the list is kept and not looked at.
pub fn fresh_start(
    store: &mut [u64],
    own: u64,
    any: bool,
    listed: &[u64],
    intervals: &[u64],
) -> Result<(), Refusal>
    ensures value { number_in result ≡ fresh_answer store.old (site_with own any listed.now) intervals.now }
    ensures store_after { store.new ≡ fresh_exit store.old (site_with own any listed.now) intervals.now }
{
    if store.len() < book::STORE_WORDS {
        return Err(Refusal::Short);
    }
    if !fresh::startable(listed, intervals) {
        return Err(Refusal::OutOfRange);
    }
    fresh::begin(store, own, any, listed, intervals);
    Ok(())
}

// An announce that a port received, which counts from 0.
fn register_at(store: &mut [u64], q: usize, announce: AnnounceMessage) -> Result<Tallies, Refusal>
    requires store_words_in_bounds { SoundStore store.old × (q < get_or store.old 0 0) }
    requires narrow { Narrow (held_of announce) }
    ensures { (result ≡ taking_answer store.old q announce) × (store.new ≡ taking_exit store.old q announce) }
{
    let m = ForeignAnnounceMessage {
        message: announce,
        age: 0,
        receipt: 0,
    };
    refusal::refusal(store, q, m)?;
    let evicted = admission::register_in(store, q, m);
    Ok(Tallies {
        evicted,
        aged_out: 0,
        consumed: 0,
    })
}

// Registers the frame that a port received, on a store whose check has answered.
pub fn register_checked(
    store: &mut [u64],
    checked: Result<(), Refusal>,
    port: u16,
    frame: &[u8],
) -> Result<Tallies, Refusal>
    requires { number_in checked ≡ store_refusal store.old }
    ensures value { result ≡ register_answer store.old port frame.now }
    ensures store_after { store.new ≡ register_exit store.old port frame.now }
{
    checked?;
    if port == 0 || store[0] < port as u64 {
        return Err(Refusal::NoPort);
    }
    let message = frame::read_frame(frame)?;
    register_at(store, port as usize - 1, message.announce)
}

// Registers the frame that a port received: 1, 16, then 6 where there is no such port, then the frame's refusals, 7, 8, 9, 10, 11, 12.
pub fn register_announce_message(
    store: &mut [u64],
    port: u16,
    frame: &[u8],
) -> Result<Tallies, Refusal>
    ensures value { result ≡ register_answer store.old port frame.now }
    ensures store_after { store.new ≡ register_exit store.old port frame.now }
{
    let checked = book::check(store);
    register_checked(store, checked, port, frame)
}

// Makes every message older by a step, on a store whose check has answered.
pub fn age_checked(
    store: &mut [u64],
    checked: Result<(), Refusal>,
    step: u64,
) -> Result<Tallies, Refusal>
    requires { number_in checked ≡ store_refusal store.old }
    ensures { (result ≡ age_answer store.old step) × (store.new ≡ age_exit store.old step) }
{
    checked?;
    if 0x4000_0000_0000_0000 <= step {
        return Err(Refusal::LongStep);
    }
    let aged_out = ageing::age_ports(store, step);
    Ok(Tallies {
        evicted: 0,
        aged_out,
        consumed: 0,
    })
}

// Makes every message older by a step, and drops those that are too old: 1, 16, then 13 for a step of 2^62 or more.
pub fn step_age(store: &mut [u64], step: u64) -> Result<Tallies, Refusal>
    ensures { (result ≡ age_answer store.old step) × (store.new ≡ age_exit store.old step) }
{
    let checked = book::check(store);
    age_checked(store, checked, step)
}
