// Spelling how the stream stands into the front of a buffer that has room for it.
ghost use Rattle.std.specs.Prelude.{◌≤◌, ◌++◌, length, codes};
ghost use Rattle.mesh_stream.specs.Numbers.{layer_word, cause_number};
ghost use Rattle.mesh_report.specs.Spelling.{next_number, fault_line, last_line};
ghost use Rattle.mesh_report.specs.Writing.{Written};

use super::number::{spell_byte, spell_number, spell_text};
use mesh_stream::fault::{Cause, Fault, LayerName};
use mesh_stream::stage::Standing;

// A number behind a blank: ten digits at the most.
#[tactic(auto, using(crate::proofs::Digits::digits_of_count), unfolding(crate::specs::Spelling::next_number))]
fn spell_next(buffer: &mut [u8], n: u32) -> usize
    requires { 11 ≤ length buffer.old }
    ensures written { Written (next_number n) buffer.old result buffer.new }
    ensures short { result ≤ 11 }
{
    let at = spell_byte(buffer, b' ');
    at + spell_number(&mut buffer[at..], u64::from(n))
}

// `fault LAYER`, where the word of a layer has eight bytes at the most.
fn spell_layer(buffer: &mut [u8], layer: LayerName) -> usize
    requires { 14 ≤ length buffer.old }
    ensures written { Written (codes "fault " ++ layer_word layer) buffer.old result buffer.new }
    ensures short { result ≤ 14 }
{
    let at = spell_text(buffer, b"fault ");
    at + spell_text(&mut buffer[at..], layer.word().as_bytes())
}

// A cause, by its number.
fn spell_cause(buffer: &mut [u8], cause: Cause) -> usize
    requires { 11 ≤ length buffer.old }
    ensures written { Written (next_number (cause_number cause)) buffer.old result buffer.new }
    ensures short { result ≤ 11 }
{
    spell_next(buffer, u32::from(cause.number()))
}

fn spell_cause_and_place(buffer: &mut [u8], cause: Cause, place: u32) -> usize
    requires { 22 ≤ length buffer.old }
    ensures written { Written (next_number (cause_number cause) ++ next_number place) buffer.old result buffer.new }
    ensures short { result ≤ 22 }
{
    let at = spell_cause(buffer, cause);
    at + spell_next(&mut buffer[at..], place)
}

fn spell_fault(buffer: &mut [u8], fault: Fault) -> usize
    requires { 36 ≤ length buffer.old }
    ensures written { Written (fault_line fault) buffer.old result buffer.new }
    ensures short { result ≤ 36 }
{
    let at = spell_layer(buffer, fault.layer);
    at + spell_cause_and_place(&mut buffer[at..], fault.cause, fault.place)
}

// How the stream stands, which takes the most bytes at a fault.
pub(super) fn spell_standing(buffer: &mut [u8], standing: Standing) -> usize
    requires { 36 ≤ length buffer.old }
    ensures written { Written (last_line standing) buffer.old result buffer.new }
    ensures short { result ≤ 36 }
{
    match standing {
        Standing::Waiting => spell_text(buffer, b"end open"),
        Standing::Ended => spell_text(buffer, b"end ok"),
        Standing::Faulty(fault) => spell_fault(buffer, fault),
    }
}
