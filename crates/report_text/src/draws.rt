//! The numbers that a made tour is drawn from.
ghost use Rattle.std.specs.Prelude.{◌≡◌, ◌<◌};
ghost use Rattle.report_text.specs.Draws.{next_number, drawn};
ghost use Rattle.report_text.specs.declared.draws.TheConstants.{DRAW_MODULUS};

/// What a number is multiplied by for the next one.
pub const DRAW_FACTOR: u64 = 1_103_515_245;

/// What is added for the next number.
pub const DRAW_ADDEND: u64 = 12_345;

/// The number below which all numbers are.
pub const DRAW_MODULUS: u64 = 2_147_483_648;

/// The part of a number that a draw leaves out.
pub const DRAW_DIVISOR: u64 = 65_536;

/// The number after this one.
pub fn next_number(number: u64) -> u64
    requires { number < DRAW_MODULUS }
    ensures value { result ≡ next_number number }
    ensures below { result < DRAW_MODULUS }
{
    (number * DRAW_FACTOR + DRAW_ADDEND) % DRAW_MODULUS
}

/// What is drawn with this number.
pub fn drawn(number: u64) -> u64
    ensures { result ≡ drawn number }
{
    number / DRAW_DIVISOR
}
