//! Names, registers and calls.

ghost use Rattle.std.specs.Prelude.{◌≡◌, ◌<◌, IfSome, Some, map};
ghost use Rattle.std.specs.List.{list_all};
ghost use Rattle.asm_syntax.specs.Numbers.{is_between};
ghost use Rattle.asm_syntax.specs.Numbers as numbers;
ghost use Rattle.asm_syntax.specs.Values as values;

/// Whether a word is a name: a letter or an underscore, and then letters, digits and underscores.
pub(crate) fn is_name(word: &[u8]) -> bool
    ensures name { result ≡ numbers.is_name word.now }
{
    match word {
        [first, rest @ ..] => begins_name(*first) && are_in_name(rest),
        [] => false,
    }
}

// Whether each byte may follow the first of a name.
fn are_in_name(bytes: &[u8]) -> bool
    ensures all { result ≡ list_all numbers.is_in_name bytes.now }
{
    bytes.iter().all(|b| is_in_name(*b))
}

// Whether a byte may begin a name.
fn begins_name(b: u8) -> bool
    ensures begins { result ≡ numbers.begins_name b }
{
    is_within(b'a', b'z', b) || is_within(b'A', b'Z', b) || b == b'_'
}

// Whether a byte may follow the first of a name.
fn is_in_name(b: u8) -> bool
    ensures follows { result ≡ numbers.is_in_name b }
{
    begins_name(b) || is_within(b'0', b'9', b)
}

/// Whether a byte is between two others.
pub(crate) fn is_within(low: u8, high: u8, b: u8) -> bool
    ensures between { result ≡ is_between low high b }
{
    low <= b && b <= high
}

/// The number, below 32, of the register of a name: `x` and the number, or the register's name in the calling convention. `None` if and
/// only if no register has the name.
pub fn register_of(name: &[u8]) -> Option<u8>
    ensures register { result ≡ values.register_of name.now }
    ensures small { IfSome result (λ n. n < 32) }
{
    match name {
        [x, d] => {
            if *x == b'x' && is_within(b'0', b'9', *d) {
                return Some(*d - b'0');
            }
        }
        [x, d, e] => {
            if *x == b'x'
                && is_within(b'1', b'3', *d)
                && is_within(b'0', b'9', *e)
                && (*d - b'0') * 10 + (*e - b'0') < 32
            {
                return Some((*d - b'0') * 10 + (*e - b'0'));
            }
        }
        _ => {}
    }
    register_named(name)
}

// The registers' names in the calling convention, by their numbers.
const REGISTERS: [&str; 32] = [
    "zero", "ra", "sp", "gp", "tp", "t0", "t1", "t2", "s0", "s1", "a0", "a1", "a2", "a3", "a4",
    "a5", "a6", "a7", "s2", "s3", "s4", "s5", "s6", "s7", "s8", "s9", "s10", "s11", "t3", "t4",
    "t5", "t6",
];

// The names, as a value that a contract can name.
fn register_names() -> [&'static str; 32]
    ensures names { map (λ name. name.now) result ≡ map (λ row. row.0) values.registers }
{
    REGISTERS
}

// The register of a name in the calling convention.
fn register_named(name: &[u8]) -> Option<u8>
    ensures register { result ≡ values.register_named name.now }
    ensures small { IfSome result (λ n. n < 32) }
{
    let names = register_names();
    for number in 0..32u8 {
        if name == names[usize::from(number)].as_bytes() {
            return Some(number);
        }
    }
    None
}
