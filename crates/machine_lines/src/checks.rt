//! The checks of an unordered code.
ghost use Rattle.std.specs.Prelude.{◌≡◌, ℕ, ◌<◌, ◌≤◌};
ghost use Rattle.tsc_bits.specs.Bits.{bits_of};
ghost use Rattle.mofn_code.specs.CheckBits.{check_bits};
ghost use Rattle.fault_secure.specs.CodePlan.{HasWidth, IsUnorderedCode};

use berger_code::{berger_width, check_of};
use mofn_code::thermo_of;
use tsc_net::Code;

/// How many checks an unordered code has for 1 to 64 outputs.
pub fn checks_of(code: Code, outputs: usize) -> usize
    requires unordered { IsUnorderedCode code }
    requires some { 0 < outputs }
    requires most { outputs ≤ 64 }
    ensures width { HasWidth code outputs result }
    ensures few { result ≤ 64 }
{
    match code {
        Code::Parity => unreachable!(),
        Code::Berger => berger_width(outputs),
        Code::MOutOfN => outputs,
    }
}

/// The check of 1 to 64 outputs, the last ones of the number, under an unordered code.
pub fn check_number(code: Code, outputs: usize, number: u64) -> u64
    requires unordered { IsUnorderedCode code }
    requires some { 0 < outputs }
    requires most { outputs ≤ 64 }
    ensures check { (checks : ℕ) → HasWidth code outputs checks → bits_of checks result ≡ check_bits code checks (bits_of outputs number) }
{
    match code {
        Code::Parity => unreachable!(),
        Code::Berger => check_of(outputs, number),
        Code::MOutOfN => thermo_of(outputs, number),
    }
}
