// Spelling bytes and numbers into the front of a buffer that has room for them. Each call answers how many bytes it spelled.
ghost use Rattle.std.specs.Prelude.{◌≡◌, ◌+◌, ◌/◌, ◌%◌, ◌<◌, ◌≤◌, [], ◌∷◌, length};
ghost use Rattle.mesh_report.specs.Spelling.{sign, spelled, spelled_signed};
ghost use Rattle.mesh_report.specs.Writing.{Written};

pub(super) fn spell_byte(buffer: &mut [u8], byte: u8) -> usize
    requires { 0 < length buffer.old }
    ensures { Written (byte ∷ []) buffer.old result buffer.new }
{
    buffer[0] = byte;
    1
}

pub(super) fn spell_text(buffer: &mut [u8], text: &[u8]) -> usize
    requires { length text.now ≤ length buffer.old }
    ensures { Written text.now buffer.old result buffer.new }
{
    buffer[0..text.len()].copy_from_slice(text);
    text.len()
}

// How many whole tens the number has.
fn tens(n: u64) -> u64
    ensures { result ≡ n / 10 }
{
    n / 10
}

// With `as`, since a remainder by ten is a byte: `u8::try_from` would bring in a failure that never comes.
fn last_digit(n: u64) -> u8
    ensures { result ≡ 48 + n % 10 }
{
    b'0' + (n % 10) as u8
}

// The spelling of the tens, if there are any, then the last digit: it calls itself, since the definition of a spelled number does.
#[tactic(auto, using(crate::proofs::Digits::length_one, crate::proofs::Digits::length_more))]
pub(super) fn spell_number(buffer: &mut [u8], n: u64) -> usize
    requires { length (spelled n) ≤ length buffer.old }
    ensures { Written (spelled n) buffer.old result buffer.new }
{
    let front = tens(n);
    if front == 0 {
        return spell_byte(buffer, last_digit(n));
    }
    let at = spell_number(buffer, front);
    at + spell_byte(&mut buffer[at..], last_digit(n))
}

// The minus of a negative number, and nothing for any other.
fn spell_sign(buffer: &mut [u8], n: i64) -> usize
    requires { 0 < length buffer.old }
    ensures written { Written (sign n) buffer.old result buffer.new }
    ensures short { result ≤ 1 }
{
    if n < 0 { spell_byte(buffer, b'-') } else { 0 }
}

// A minus and 19 digits, or 19 digits, at the most.
#[tactic(auto, using(crate::proofs::Digits::digits_of_distance))]
pub(super) fn spell_signed(buffer: &mut [u8], n: i64) -> usize
    requires { 20 ≤ length buffer.old }
    ensures written { Written (spelled_signed n) buffer.old result buffer.new }
    ensures short { result ≤ 20 }
{
    let at = spell_sign(buffer, n);
    at + spell_number(&mut buffer[at..], n.unsigned_abs())
}
