// The operations on registers: which register an operation reaches, and what it writes there.
ghost use Rattle.std.specs.Prelude.{◌≡◌, ◌^◌, ◌<◌, ◌≤◌, [], None, true, MatchOption};
ghost use Rattle.hp_model.specs.State.{registers, index_bits as index_bits_of, memory_bytes};
ghost use Rattle.hp_model.specs.Operations as ops;
ghost use Rattle.hp_model.specs.Memory.{register_value, with_register};
ghost use Rattle.hp_model.specs.Questions.{answers_to, index_questions};
ghost use Rattle.hp_model.specs.ControlStep.{place_error};
ghost use Rattle.hp_model.specs.DataStep.{pushed};
ghost use Rattle.hp_ops.specs.Meaning.{of_registers, where_is};
ghost use Rattle.hp_core.specs.Machines.{Changes, control_of, data_of};

use crate::given::{Given, spell};
use crate::machine::Machine;
use crate::moves::push;
use crate::words::masked;
use hp_nibbles::Extent;
use hp_ops::{Place, Registers};

/// How many bits of the index register name any register of one nibble.
fn index_bits(extent: Extent) -> u32
    ensures value { result ≡ index_bits_of (memory_bytes extent) }
    ensures bound { result ≤ 11 }
{
    match extent {
        Extent::Standard => 9,
        Extent::Large => 11,
    }
}

/// What is asked where the index register names a register: whether there are so many, and else the
/// number's bits.
fn answer_index(machine: &Machine, given: &mut Given)
    requires { given.old.items ≡ [] }
    ensures value { given.new.items ≡ answers_to
        (index_questions (control_of machine.now)) (control_of machine.now) (data_of machine.now) }
    ensures no_error { machine.now.content.i < registers (control_of machine.now)
        → place_error (control_of machine.now) ops.through_index given.new.items ≡ None }
{
    let index = machine.content.i;
    if index >= machine.memory.count(machine.control.size) as u64 {
        given.push(true);
    } else {
        spell(given, index, index_bits(machine.memory.extent()));
    }
}

/// The number of a register, and None from the count on.
fn register_at(machine: &Machine, number: u64) -> Option<u16>
    ensures { let count = registers (control_of machine.now) in
        MatchOption result (count ≤ number) (λ r. (r ≡ number) × (r < count)) }
{
    let count = machine.memory.count(machine.control.size);
    if number < count as u64 {
        Some(number as u16)
    } else {
        None
    }
}

/// X is stored in a register.
fn store_at(machine: &mut Machine, r: u16)
    requires { r < registers (control_of machine.old) }
    ensures control { control_of machine.new ≡ control_of machine.old }
    ensures contents { data_of machine.new ≡ record (data_of machine.old) {
      nibbles = with_register machine.old.control.size.bits machine.old.memory.nibbles
          r machine.old.content.x;
    } }
{
    let x = machine.content.x;
    machine.memory.write(machine.control.size, r, x);
}

/// X is stored in a register or in the index register. Error 3 from the count on.
fn store(machine: &mut Machine, place: Place, given: &mut Given)
    requires { given.old.items ≡ [] }
    ensures { Changes machine.old machine.new (ops.store (where_is place)) given.new.items }
{
    match place {
        Place::Index => machine.content.i = machine.content.x,
        Place::Direct(register) => {
            if let Some(r) = register_at(machine, register.number as u64) {
                store_at(machine, r);
            }
        }
        Place::Through => {
            answer_index(machine, given);
            if let Some(r) = register_at(machine, machine.content.i) {
                store_at(machine, r);
            }
        }
    }
}

/// X is new, after a lift where stack lift is enabled.
fn recall_value(machine: &mut Machine, x: u64)
    requires { x < 2 ^ machine.old.control.size.bits }
    ensures control { control_of machine.new ≡ control_of machine.old }
    ensures contents { data_of machine.new
        ≡ pushed (control_of machine.old) x (data_of machine.old) }
{
    push(&mut machine.content, machine.control.lift, x);
}

/// A register is recalled.
fn recall_at(machine: &mut Machine, r: u16)
    requires { r < registers (control_of machine.old) }
    ensures control { control_of machine.new ≡ control_of machine.old }
    ensures contents { data_of machine.new ≡ pushed (control_of machine.old)
        (register_value machine.old.control.size.bits machine.old.memory.nibbles r)
        (data_of machine.old) }
{
    let value = machine.memory.read(machine.control.size, r);
    recall_value(machine, value);
}

/// A register or the index register to X. Error 3 from the count on.
fn recall(machine: &mut Machine, place: Place, given: &mut Given)
    requires { given.old.items ≡ [] }
    ensures { Changes machine.old machine.new (ops.recall (where_is place)) given.new.items }
{
    match place {
        Place::Index => {
            let index = masked(machine.control.size, machine.content.i);
            recall_value(machine, index);
        }
        Place::Direct(register) => {
            if let Some(r) = register_at(machine, register.number as u64) {
                recall_at(machine, r);
            }
        }
        Place::Through => {
            answer_index(machine, given);
            if let Some(r) = register_at(machine, machine.content.i) {
                recall_at(machine, r);
            }
        }
    }
}

/// X and the index register change places, which X takes as a word.
fn exchange_index(machine: &mut Machine)
    ensures { Changes machine.old machine.new ops.exchange_index [] }
{
    let index = masked(machine.control.size, machine.content.i);
    machine.content.i = machine.content.x;
    machine.content.x = index;
}

/// X and a register change places.
fn exchange_at(machine: &mut Machine, r: u16)
    requires { r < registers (control_of machine.old) }
    ensures control { control_of machine.new ≡ control_of machine.old }
    ensures contents { data_of machine.new ≡ record (data_of machine.old) {
      x = register_value machine.old.control.size.bits machine.old.memory.nibbles r;
      nibbles = with_register machine.old.control.size.bits machine.old.memory.nibbles
          r machine.old.content.x;
    } }
{
    let size = machine.control.size;
    let x = machine.content.x;
    machine.content.x = machine.memory.read(size, r);
    machine.memory.write(size, r, x);
}

/// X and the register whose number is in the index register change places. Error 3 from the count
/// on.
fn exchange_through(machine: &mut Machine, given: &mut Given)
    requires { given.old.items ≡ [] }
    ensures { Changes machine.old machine.new ops.exchange_through given.new.items }
{
    answer_index(machine, given);
    if let Some(r) = register_at(machine, machine.content.i) {
        exchange_at(machine, r);
    }
}

/// An operation on registers.
#[inline(never)]
pub fn change(machine: &mut Machine, op: Registers, given: &mut Given)
    requires { given.old.items ≡ [] }
    ensures { Changes machine.old machine.new (of_registers op) given.new.items }
{
    match op {
        Registers::Store(place) => store(machine, place, given),
        Registers::Recall(place) => recall(machine, place, given),
        Registers::ExchangeIndex => exchange_index(machine),
        Registers::ExchangeThrough => exchange_through(machine, given),
        Registers::Clear => machine.memory.clear_registers(),
    }
}
