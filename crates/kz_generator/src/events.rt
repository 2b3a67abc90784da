//! The events of a script that is generated.
ghost use Rattle.std.specs.Prelude.{◌≡◌, ◌<◌, ◌+◌, ◌*◌, ◌%◌, ◌^◌, [], ◌∷◌, ◌++◌, ℕ, pos, IfOk, OnOk, decimal};
ghost use Rattle.kz_types.specs.declared.machine.Event.TheVariants.{Change};
ghost use Rattle.kz_spec_machine.specs.Generator.{value_at, leader_at, config_at, turn_after, election_after, events_at, opening_events, closing_events};

use kz_types::{ConfigRecord, Event, MetaRecord, NoMemory, Sequence, Text};
use std::alloc::Global;

const FIRST: i32 = 3000;

const SECOND: i32 = 3001;

/// The value after this one, as a linear congruential generator gives it.
pub fn next_value(value: u64) -> u64
    requires { value < 2 ^ 31 }
    ensures next { result ≡ (1103515245 * value + 12345) % 2147483648 }
    ensures bound { result < 2 ^ 31 }
{
    (1_103_515_245 * value + 12_345) % 2_147_483_648
}

// The controller that leads at the change with this number.
fn leader_at(number: u64) -> i32
    requires { 0 < number }
    ensures { result ≡ leader_at number }
{
    if (number - 1) / 100 % 2 == 0 {
        FIRST
    } else {
        SECOND
    }
}

// A number in decimal.
fn number_text(alloc: Global, number: u64) -> Result<Text, NoMemory>
    ensures { IfOk result (λ text. text ≡ decimal number) }
{
    Ok(Text::from_string(format!(in alloc; "{number}")?))
}

// The configuration that the change with this number sets to this value.
fn config_at(alloc: Global, number: u64, value: u64) -> Result<MetaRecord, NoMemory>
    ensures { IfOk result (λ made. (n : ℕ) → value_at n number ≡ value → made ≡ config_at n number) }
{
    Ok(MetaRecord::Config(ConfigRecord {
        resource_type: 4,
        resource_name: number_text(alloc, number % 100)?,
        name: Text::from_str(alloc, "k")?,
        value: Some(number_text(alloc, value)?),
    }))
}

// A list of one record.
fn one_record(alloc: Global, change: MetaRecord) -> Result<Sequence<MetaRecord>, NoMemory>
    ensures { IfOk result (λ records. records ≡ change ∷ []) }
{
    Ok(Sequence::from_vec(vec![in alloc; change]?))
}

// The change with this number, which sets this value.
fn change_at(alloc: Global, number: u64, value: u64) -> Result<Event, NoMemory>
    requires { 0 < number }
    ensures { IfOk result (λ event. (n : ℕ) → value_at n number ≡ value → event ≡ Change (leader_at number) (config_at n number ∷ []) (pos 0)) }
{
    Ok(Event::Change {
        controller: leader_at(number),
        records: one_record(alloc, config_at(alloc, number, value)?)?,
        now: 0,
    })
}

// The turn after this change, if there is one.
fn add_turn(events: &mut Vec<Event>, number: u64) -> Result<(), NoMemory>
    requires { 0 < number }
    ensures { OnOk result (events.new.items ≡ events.old.items ++ turn_after number) }
{
    if number % 10 == 0 {
        events.push(Event::Turn {
            controller: leader_at(number),
            now: 0,
        })?;
    }
    Ok(())
}

// The election after this change, if there is one.
fn add_election(events: &mut Vec<Event>, number: u64) -> Result<(), NoMemory>
    requires { number < 2 ^ 63 }
    ensures { OnOk result (events.new.items ≡ events.old.items ++ election_after number) }
{
    if number % 100 == 0 {
        events.push(Event::Elect {
            controller: leader_at(number + 1),
            now: 0,
        })?;
    }
    Ok(())
}

/// The change with this number, which sets this value, and the turn and the election after it.
pub fn events_at(alloc: Global, number: u64, value: u64) -> Result<Vec<Event>, NoMemory>
    requires above { 0 < number }
    requires below { number < 2 ^ 63 }
    ensures { IfOk result (λ events. (n : ℕ) → value_at n number ≡ value → events.items ≡ events_at n number) }
{
    let mut events = vec![in alloc; change_at(alloc, number, value)?]?;
    add_turn(&mut events, number)?;
    add_election(&mut events, number)?;
    Ok(events)
}

/// Both controllers start, one is elected, and it migrates.
pub fn opening(alloc: Global) -> Result<Vec<Event>, NoMemory>
    ensures { IfOk result (λ events. events.items ≡ opening_events) }
{
    let ids = Sequence::from_vec(vec![in alloc; FIRST, SECOND]?);
    Ok(vec![in alloc;
        Event::Quorum { ids },
        Event::Start { controller: FIRST },
        Event::Start { controller: SECOND },
        Event::Elect {
            controller: FIRST,
            now: 0
        },
        Event::Turn {
            controller: FIRST,
            now: 0
        },
    ]?)
}

/// The controller that was elected last has a turn, and the tree is checked.
pub fn closing(alloc: Global, changes: u64) -> Result<Vec<Event>, NoMemory>
    requires { changes < 2 ^ 63 }
    ensures { IfOk result (λ events. events.items ≡ closing_events changes) }
{
    Ok(vec![in alloc;
        Event::Turn {
            controller: leader_at(changes + 1),
            now: 0
        },
        Event::Check,
    ]?)
}
