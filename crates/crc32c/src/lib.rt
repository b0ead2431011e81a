//! CRC-32C (RFC 3720, section 12.1 and appendix B.4), bit by bit. `append` is the one function that computes: it continues a finished sum.
#![tactic(auto)]

ghost use Rattle.std.specs.Prelude.{◌≡◌};
ghost use Rattle.crc32c.specs.Crc.{bit_step, byte_step, AppendAllows};

pub mod laws;

/// 0x1EDC6F41 with its 32 bits in reverse.
const POLY: u32 = 0x82F6_3B78;

/// One bit goes out of the register at its low end.
#[tactic(auto, unfolding(crate::specs::Crc::bit_step))]
fn bit_step(register: u32) -> u32
    ensures { result ≡ bit_step register }
{
    if register % 2 == 1 {
        register / 2 ^ POLY
    } else {
        register / 2
    }
}

/// A byte goes into the register, and its eight bits out.
#[tactic(auto, unfolding(crate::specs::Crc::byte_step, crate::specs::Crc::steps))]
fn byte_step(register: u32, byte: u8) -> u32
    ensures { result ≡ byte_step register byte }
{
    let mut shifted = register ^ u32::from(byte);
    for _ in 0u32..8 {
        shifted = bit_step(shifted);
    }
    shifted
}

/// Continues the finished sum `crc` with bytes; 0 is the sum of no bytes.
#[tactic(auto, using(crate::proofs::Folds::folded))]
pub fn append(crc: u32, bytes: &[u8]) -> u32
    ensures { AppendAllows crc bytes.now result }
{
    !bytes
        .iter()
        .fold(!crc, |register, byte| byte_step(register, *byte))
}
